//! Tests of what a call took and launched, and of the getters of single tasks.

use crate::support::{counted, done, id_of, new_master};
use mes_double_master::Master;
use std::alloc::Global;
use std::test::Fail;

/// The offers O1 to O6 on the first stream.
const BEFORE: &str =
    r#"- {"type":"SUBSCRIBE","subscribe":{"framework_info":{"user":"root","name":"n"}}}
offer {"type":"OFFERS","offers":{"offers":[{"id":{"value":"O1"},"framework_id":{"value":"F1"},"agent_id":{"value":"A1"},"hostname":"h"},{"id":{"value":"O2"},"framework_id":{"value":"F1"},"agent_id":{"value":"A1"},"hostname":"h"},{"id":{"value":"O3"},"framework_id":{"value":"F1"},"agent_id":{"value":"A1"},"hostname":"h"},{"id":{"value":"O4"},"framework_id":{"value":"F1"},"agent_id":{"value":"A1"},"hostname":"h"},{"id":{"value":"O5"},"framework_id":{"value":"F1"},"agent_id":{"value":"A1"},"hostname":"h"},{"id":{"value":"O6"},"framework_id":{"value":"F1"},"agent_id":{"value":"A1"},"hostname":"h"}]}}
"#;

/// Calls in order, each with the number of the stream that it names, the number of offers that it
/// takes and of tasks that it launches. An offer or a task that a call names twice counts once.
const COUNTS: &str =
    r#"1 {"type":"ACCEPT","framework_id":{"value":"F1"},"accept":{"offer_ids":[{"value":"O1"},{"value":"O2"}],"operations":[{"type":"LAUNCH","launch":{"task_infos":[{"name":"n","task_id":{"value":"T1"},"agent_id":{"value":"A1"}},{"name":"n","task_id":{"value":"T2"},"agent_id":{"value":"A1"}},{"name":"n","task_id":{"value":"T1"},"agent_id":{"value":"A1"}}]}}]}} => 2 2
1 {"type":"ACCEPT","framework_id":{"value":"F1"},"accept":{"offer_ids":[{"value":"O1"},{"value":"O2"}],"operations":[{"type":"LAUNCH","launch":{"task_infos":[{"name":"n","task_id":{"value":"T1"},"agent_id":{"value":"A1"}},{"name":"n","task_id":{"value":"T2"},"agent_id":{"value":"A1"}},{"name":"n","task_id":{"value":"T1"},"agent_id":{"value":"A1"}}]}}]}} => 0 0
1 {"type":"ACCEPT","framework_id":{"value":"F1"},"accept":{"offer_ids":[{"value":"O3"},{"value":"O1"}],"operations":[{"type":"LAUNCH","launch":{"task_infos":[{"name":"n","task_id":{"value":"T3"},"agent_id":{"value":"A1"}}]}}]}} => 1 0
1 {"type":"ACCEPT","framework_id":{"value":"F1"},"accept":{"offer_ids":[{"value":"O4"},{"value":"O4"}],"operations":[{"type":"LAUNCH","launch":{"task_infos":[{"name":"n","task_id":{"value":"T1"},"agent_id":{"value":"A1"}},{"name":"n","task_id":{"value":"T4"},"agent_id":{"value":"A1"}}]}}]}} => 1 1
1 {"type":"ACCEPT","framework_id":{"value":"F1"},"accept":{"offer_ids":[],"operations":[{"type":"LAUNCH","launch":{"task_infos":[{"name":"n","task_id":{"value":"T5"},"agent_id":{"value":"A1"}}]}}]}} => 0 0
2 {"type":"ACCEPT","framework_id":{"value":"F1"},"accept":{"offer_ids":[{"value":"O5"}],"operations":[{"type":"LAUNCH","launch":{"task_infos":[{"name":"n","task_id":{"value":"T5"},"agent_id":{"value":"A1"}}]}}]}} => 0 0
1 {"type":"DECLINE","framework_id":{"value":"F1"},"decline":{"offer_ids":[{"value":"O5"},{"value":"O9"},{"value":"O5"}]}} => 1 0
1 {"type":"DECLINE","framework_id":{"value":"F1"},"decline":{"offer_ids":[{"value":"O5"}]}} => 0 0
1 {"type":"REVIVE","framework_id":{"value":"F1"}} => 0 0
1 {"type":"RECONCILE","framework_id":{"value":"F1"},"reconcile":{}} => 0 0
1 {"type":"TEARDOWN","framework_id":{"value":"F1"}} => 0 0
"#;

/// Makes the first part of a row happen for each row.
fn make_all(alloc: Global, master: &mut Master, rows: &str) -> Result<(), Fail> {
    for deed in rows.lines() {
        drop(done(alloc, master, deed)?);
    }
    Ok(())
}

/// Returns a master that has made the offers O1 to O6.
fn offering(alloc: Global) -> Result<Master, Fail> {
    let mut master = new_master(alloc)?;
    match make_all(alloc, &mut master, BEFORE) {
        Ok(()) => Ok(master),
        Err(why) => Err(why),
    }
}

fn counted_row(alloc: Global, master: &mut Master, call: &str) -> Result<String, Fail> {
    let (stream, text) = call.split_once(" ").ok_or("a call has a stream")?;
    counted(alloc, master, stream, text)
}

#[test]
fn each_call_counts_what_it_took_and_launched(rt: HostRuntime) -> Result<(), Fail> {
    let mut master = offering(rt.alloc())?;
    for row in COUNTS.lines() {
        let (call, counts) = row.split_once(" => ").ok_or("a row has counts")?;
        let reported = counted_row(rt.alloc(), &mut master, call)?;
        assert_eq!(rt; reported.as_str(), counts, "{row}");
    }
    assert_eq!(rt; master.outstanding().len(), 0);
    Ok(())
}

/// A task that is launched and has two statuses.
const TASK: &str =
    r#"1 {"type":"ACCEPT","framework_id":{"value":"F1"},"accept":{"offer_ids":[{"value":"O1"}],"operations":[{"type":"LAUNCH","launch":{"task_infos":[{"name":"n","task_id":{"value":"T1"},"agent_id":{"value":"A1"}}]}}]}}
update {"type":"UPDATE","update":{"status":{"task_id":{"value":"T1"},"state":"TASK_RUNNING","agent_id":{"value":"A1"},"uuid":"AAECAwQFBgcICQoLDA0ODw=="}}}
update {"type":"UPDATE","update":{"status":{"task_id":{"value":"T1"},"state":"TASK_KILLED","agent_id":{"value":"A1"},"uuid":"AQECAwQFBgcICQoLDA0ODw=="}}}
"#;

/// Returns whether a task was launched, and the name of its last state or `-`.
fn task_line(alloc: Global, master: &Master, task: &str) -> Result<String, Fail> {
    let id = id_of(alloc, task)?;
    let state = match master.last_status(&id) {
        Some(status) => status.state.name(),
        None => "-",
    };
    let launched = master.has_launched(&id);
    Ok(format!(in alloc; "{launched} {state}")?)
}

#[test]
fn a_task_is_found_by_its_identifier(rt: HostRuntime) -> Result<(), Fail> {
    let mut master = offering(rt.alloc())?;
    make_all(rt.alloc(), &mut master, TASK)?;
    let launched = task_line(rt.alloc(), &master, "T1")?;
    assert_eq!(rt; launched.as_str(), "true TASK_KILLED");
    let other = task_line(rt.alloc(), &master, "O1")?;
    assert_eq!(rt; other.as_str(), "false -");
    assert_eq!(rt; master.outstanding().len(), 5);
    Ok(())
}
