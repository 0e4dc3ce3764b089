//! Tests of the status of the response to each call in each state of a master.

use crate::support::{called, new_master};
use mes_double_master::Master;
use std::alloc::{AllocGlobal, Global};
use std::test::Fail;

/// A SUBSCRIBE.
const SUBSCRIBE: &str =
    r#"{"type":"SUBSCRIBE","subscribe":{"framework_info":{"user":"root","name":"n"}}}"#;

/// A TEARDOWN.
const TEARDOWN: &str = r#"{"type":"TEARDOWN","framework_id":{"value":"F1"}}"#;

/// Calls of this framework and then of another, with their statuses in three states: before a
/// SUBSCRIBE, after two, and after a TEARDOWN. In each state the call names the second stream, then
/// the first stream, then none.
const STATUSES: &str =
    r#"{"type":"SUBSCRIBE","subscribe":{"framework_info":{"user":"root","name":"n"}}} => 200 200 200 / 200 200 200 / 403 403 403
{"type":"ACCEPT","framework_id":{"value":"F1"},"accept":{"offer_ids":[{"value":"O1"}],"operations":[{"type":"LAUNCH","launch":{"task_infos":[{"name":"n","task_id":{"value":"T1"},"agent_id":{"value":"A1"}}]}}]}} => 403 403 403 / 202 400 400 / 403 403 403
{"type":"DECLINE","framework_id":{"value":"F1"},"decline":{"offer_ids":[{"value":"O1"}]}} => 403 403 403 / 202 400 400 / 403 403 403
{"type":"REVIVE","framework_id":{"value":"F1"}} => 403 403 403 / 202 400 400 / 403 403 403
{"type":"KILL","framework_id":{"value":"F1"},"kill":{"task_id":{"value":"T1"}}} => 403 403 403 / 202 400 400 / 403 403 403
{"type":"ACKNOWLEDGE","framework_id":{"value":"F1"},"acknowledge":{"agent_id":{"value":"A1"},"task_id":{"value":"T1"},"uuid":"AAECAwQFBgcICQoLDA0ODw=="}} => 403 403 403 / 202 400 400 / 403 403 403
{"type":"RECONCILE","framework_id":{"value":"F1"},"reconcile":{}} => 403 403 403 / 202 400 400 / 403 403 403
{"type":"TEARDOWN","framework_id":{"value":"F1"}} => 403 403 403 / 202 400 400 / 403 403 403
{"type":"SUPPRESS","framework_id":{"value":"F1"}} => 403 403 403 / 202 400 400 / 403 403 403
{"type":"SHUTDOWN","framework_id":{"value":"F1"},"shutdown":{"executor_id":{"value":"E1"},"agent_id":{"value":"A1"}}} => 403 403 403 / 202 400 400 / 403 403 403
{"type":"MESSAGE","framework_id":{"value":"F1"},"message":{"agent_id":{"value":"A1"},"executor_id":{"value":"E1"},"data":"AAE="}} => 403 403 403 / 202 400 400 / 403 403 403
{"type":"SUBSCRIBE","framework_id":{"value":"F2"},"subscribe":{"framework_info":{"user":"root","name":"n"}}} => 403 403 403 / 403 403 403 / 403 403 403
{"type":"ACCEPT","framework_id":{"value":"F2"},"accept":{"offer_ids":[{"value":"O1"}],"operations":[{"type":"LAUNCH","launch":{"task_infos":[{"name":"n","task_id":{"value":"T1"},"agent_id":{"value":"A1"}}]}}]}} => 403 403 403 / 403 403 403 / 403 403 403
{"type":"DECLINE","framework_id":{"value":"F2"},"decline":{"offer_ids":[{"value":"O1"}]}} => 403 403 403 / 403 403 403 / 403 403 403
{"type":"REVIVE","framework_id":{"value":"F2"}} => 403 403 403 / 403 403 403 / 403 403 403
{"type":"KILL","framework_id":{"value":"F2"},"kill":{"task_id":{"value":"T1"}}} => 403 403 403 / 403 403 403 / 403 403 403
{"type":"ACKNOWLEDGE","framework_id":{"value":"F2"},"acknowledge":{"agent_id":{"value":"A1"},"task_id":{"value":"T1"},"uuid":"AAECAwQFBgcICQoLDA0ODw=="}} => 403 403 403 / 403 403 403 / 403 403 403
{"type":"RECONCILE","framework_id":{"value":"F2"},"reconcile":{}} => 403 403 403 / 403 403 403 / 403 403 403
{"type":"TEARDOWN","framework_id":{"value":"F2"}} => 403 403 403 / 403 403 403 / 403 403 403
{"type":"SUPPRESS","framework_id":{"value":"F2"}} => 403 403 403 / 403 403 403 / 403 403 403
{"type":"SHUTDOWN","framework_id":{"value":"F2"},"shutdown":{"executor_id":{"value":"E1"},"agent_id":{"value":"A1"}}} => 403 403 403 / 403 403 403 / 403 403 403
{"type":"MESSAGE","framework_id":{"value":"F2"},"message":{"agent_id":{"value":"A1"},"executor_id":{"value":"E1"},"data":"AAE="}} => 403 403 403 / 403 403 403 / 403 403 403
{"type":"SUBSCRIBE","framework_id":{"value":"F1"},"subscribe":{"framework_info":{"user":"root","name":"n"}}} => 200 200 200 / 200 200 200 / 403 403 403
"#;

/// Brings a new master to a state: no stream yet, a second stream, or after a TEARDOWN.
fn bring_to(alloc: Global, master: &mut Master, state: usize) -> Result<(), Fail> {
    if state > 0 {
        called(alloc, master, "-", SUBSCRIBE)?;
        called(alloc, master, "-", SUBSCRIBE)?;
    }
    if state > 1 {
        called(alloc, master, "2", TEARDOWN)?;
    }
    Ok(())
}

/// Returns the status of the response to a call that names this stream, of a new master brought to
/// this state.
fn status_of(
    alloc: Global,
    master: &mut Master,
    state: usize,
    stream: &str,
    call: &str,
) -> Result<String, Fail> {
    bring_to(alloc, master, state)?;
    let reported = called(alloc, master, stream, call)?;
    let status = reported.split(" ").next().unwrap_or("");
    Ok(String::from_str(alloc, status)?)
}

fn status_in(alloc: Global, state: usize, stream: &str, call: &str) -> Result<String, Fail> {
    let mut master = new_master(alloc)?;
    let status = status_of(alloc, &mut master, state, stream, call);
    drop(master);
    status
}

/// Returns the statuses of a call in each state, with each stream that the call may name.
fn statuses_of(alloc: Global, call: &str) -> Result<String, Fail> {
    let mut text = String::new(alloc);
    for state in 0..3 {
        if state > 0 {
            text.push_str(" /")?;
        }
        for stream in ["2", "1", "-"] {
            text.push_str(" ")?;
            text.push_str(status_in(alloc, state, stream, call)?.as_str())?;
        }
    }
    Ok(text)
}

#[test]
fn each_call_has_its_status_in_each_state(rt: HostRuntime) -> Result<(), Fail> {
    for row in STATUSES.lines() {
        let (call, statuses) = row.split_once(" =>").ok_or("a row has statuses")?;
        let reported = statuses_of(rt.alloc(), call)?;
        assert_eq!(rt; reported.as_str(), statuses, "{row}");
    }
    Ok(())
}
