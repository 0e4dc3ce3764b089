//! Tests of calls: the canonical text of each call, and calls without a canonical text within the
//! limit of a record.

mod faults;

use crate::record::{Record, canon, expect_record, expect_records, nested};
use crate::support::text_fault_of;
use mes_json::{MAX_NESTING, Text, TextFaultKind, read_tape};
use mes_model::{Id, TaskInfo};
use mes_model_schema::{List, Part, PathBuilder};
use mes_msg::{Accept, Call, EncodeFault, Limit, Operation};
use std::alloc::Global;
use std::test::Fail;

/// Texts of calls that are their own canonical texts.
const OWN: &str =
    r#"{"type":"ACKNOWLEDGE","framework_id":{"value":"F1"},"acknowledge":{"agent_id":{"value":"A1"},"task_id":{"value":"T1"},"uuid":"AAECAwQFBgcICQoLDA0ODw=="}}
{"type":"REVIVE","framework_id":{"value":"F1"}}
{"type":"DECLINE","framework_id":{"value":"F1"},"decline":{"offer_ids":[{"value":"O1"}]}}
{"type":"KILL","framework_id":{"value":"F1"},"kill":{"task_id":{"value":"T1"}}}
{"type":"RECONCILE","framework_id":{"value":"F1"},"reconcile":{}}
{"type":"TEARDOWN","framework_id":{"value":"F1"}}
{"type":"SUPPRESS","framework_id":{"value":"F1"}}
{"type":"SHUTDOWN","framework_id":{"value":"F1"},"shutdown":{"executor_id":{"value":"E1"},"agent_id":{"value":"A1"}}}
{"type":"MESSAGE","framework_id":{"value":"F1"},"message":{"agent_id":{"value":"A1"},"executor_id":{"value":"E1"},"data":"AAE="}}
{"type":"SUBSCRIBE","subscribe":{"framework_info":{"user":"root","name":"n"}}}
{"type":"SUBSCRIBE","framework_id":{"value":"F1"},"subscribe":{"framework_info":{"user":"root","name":"n","id":{"value":"F1"},"failover_timeout":60.5,"checkpoint":true,"roles":["a","b"],"hostname":"h","principal":"p","capabilities":[{"type":"PARTITION_AWARE"},{}]}}}
{"type":"ACCEPT","framework_id":{"value":"F1"},"accept":{"offer_ids":[{"value":"O1"},{"value":"O2"}],"operations":[{"type":"LAUNCH","launch":{"task_infos":[{"name":"t","task_id":{"value":"T1"},"agent_id":{"value":"A1"},"resources":[{"name":"cpus","type":"SCALAR","scalar":{"value":0.5},"role":"*"},{"name":"ports","type":"RANGES","ranges":{"range":[{"begin":31000,"end":31001}]}}],"command":{"value":"sleep 1","shell":true,"arguments":["a","b"]},"executor":{"x":0.10}}]}},{"type":"LAUNCH","launch":{}}],"filters":{"refuse_seconds":5.0}}}
{"type":"ACCEPT","framework_id":{"value":"F1"},"accept":{}}
{"type":"ACCEPT","framework_id":{"value":"F1"},"accept":{"operations":[{"type":"LAUNCH","launch":{}}],"filters":{}}}
{"type":"DECLINE","framework_id":{"value":"F1"},"decline":{}}
{"type":"DECLINE","framework_id":{"value":"F1"},"decline":{"offer_ids":[{"value":"O1"},{"value":"O1"}],"filters":{"refuse_seconds":0.000001}}}
{"type":"KILL","framework_id":{"value":"F1"},"kill":{"task_id":{"value":"T1"},"agent_id":{"value":"A1"}}}
{"type":"ACKNOWLEDGE","framework_id":{"value":"F1"},"acknowledge":{"agent_id":{"value":"A1"},"task_id":{"value":"T1"},"uuid":""}}
{"type":"RECONCILE","framework_id":{"value":"F1"},"reconcile":{"tasks":[{"task_id":{"value":"T1"}},{"task_id":{"value":"T1"},"agent_id":{"value":"A1"}}]}}
{"type":"TEARDOWN","framework_id":{"value":"\u0001\"\\é"}}
"#;

/// Texts of calls with null, unknown or reordered members, each with the canonical text.
const LOOSE: &str =
    r#"{"type":"\u0052EVIVE","framework_\u0069d":{"value":"F1"}} => {"type":"REVIVE","framework_id":{"value":"F1"}}
{"type":"REVIVE","framework_id":{"value":"F1"},"revive":null} => {"type":"REVIVE","framework_id":{"value":"F1"}}
{"revive":null,"framework_id":{"value":"F1"},"type":"REVIVE","suppress":{},"roles":["a"],"roles":["b"]} => {"type":"REVIVE","framework_id":{"value":"F1"}}
{"type":"TEARDOWN","framework_id":{"value":"F1"},"teardown":{},"accept":7,"accept":8,"revive":{}} => {"type":"TEARDOWN","framework_id":{"value":"F1"}}
{"suppress":null,"type":"SUPPRESS","revive":{},"framework_id":{"value":"F1"}} => {"type":"SUPPRESS","framework_id":{"value":"F1"}}
{"shutdown":{"agent_id":{"value":"A1"},"executor_id":{"value":"E1"},"x":1},"type":"SHUTDOWN","framework_id":{"value":"F1"}} => {"type":"SHUTDOWN","framework_id":{"value":"F1"},"shutdown":{"executor_id":{"value":"E1"},"agent_id":{"value":"A1"}}}
{"type":"MESSAGE","framework_id":{"value":"F1"},"message":{"data":"","executor_id":{"value":"E1"},"agent_id":{"value":"A1"}}} => {"type":"MESSAGE","framework_id":{"value":"F1"},"message":{"agent_id":{"value":"A1"},"executor_id":{"value":"E1"},"data":""}}
{"type":"SUBSCRIBE","framework_id":null,"subscribe":{"framework_info":{"name":"n","user":"root","id":null,"webui_url":"u","roles":[]},"suppressed_roles":["a"]}} => {"type":"SUBSCRIBE","subscribe":{"framework_info":{"user":"root","name":"n"}}}
{"accept":{"filters":{"refuse_seconds":5},"operations":[{"launch":{"task_infos":[{"agent_id":{"value":"A1"},"task_id":{"value":"T1"},"name":"t","discovery":{},"executor":null,"resources":[]}]},"type":"LAUNCH","id":{"value":"X"},"reserve":7,"reserve":8}],"offer_ids":[{"value":"O1"}],"x":1,"x":2},"framework_id":{"value":"F1"},"type":"ACCEPT","decline":7} => {"type":"ACCEPT","framework_id":{"value":"F1"},"accept":{"offer_ids":[{"value":"O1"}],"operations":[{"type":"LAUNCH","launch":{"task_infos":[{"name":"t","task_id":{"value":"T1"},"agent_id":{"value":"A1"}}]}}],"filters":{"refuse_seconds":5.0}}}
{"type":"ACCEPT","framework_id":{"value":"F1"},"accept":{"offer_ids":null,"operations":null,"filters":null}} => {"type":"ACCEPT","framework_id":{"value":"F1"},"accept":{}}
{"type":"ACCEPT","framework_id":{"value":"F1"},"accept":{"offer_ids":[],"operations":[]}} => {"type":"ACCEPT","framework_id":{"value":"F1"},"accept":{}}
{"type":"ACCEPT","framework_id":{"value":"F1"},"accept":{"operations":[{"type":"LAUNCH","launch":{"task_infos":null}}]}} => {"type":"ACCEPT","framework_id":{"value":"F1"},"accept":{"operations":[{"type":"LAUNCH","launch":{}}]}}
{"type":"DECLINE","framework_id":{"value":"F1"},"decline":{"filters":{"refuse_seconds":0.0000005},"offer_ids":[]}} => {"type":"DECLINE","framework_id":{"value":"F1"},"decline":{"filters":{"refuse_seconds":0.000001}}}
{"type":"KILL","framework_id":{"value":"F1"},"kill":{"agent_id":null,"kill_policy":{"grace_period":{"nanoseconds":1}},"task_id":{"value":"T1"}}} => {"type":"KILL","framework_id":{"value":"F1"},"kill":{"task_id":{"value":"T1"}}}
{"type":"ACKNOWLEDGE","framework_id":{"value":"F1"},"acknowledge":{"uuid":"AA==","task_id":{"value":"T1"},"agent_id":{"value":"A1"},"data":7}} => {"type":"ACKNOWLEDGE","framework_id":{"value":"F1"},"acknowledge":{"agent_id":{"value":"A1"},"task_id":{"value":"T1"},"uuid":"AA=="}}
{"type":"RECONCILE","framework_id":{"value":"F1"},"reconcile":{"tasks":[],"x":1}} => {"type":"RECONCILE","framework_id":{"value":"F1"},"reconcile":{}}
{"type":"RECONCILE","framework_id":{"value":"F1"},"reconcile":{"tasks":null}} => {"type":"RECONCILE","framework_id":{"value":"F1"},"reconcile":{}}
"#;

#[test]
fn calls_are_written(rt: HostRuntime) -> Result<(), Fail> {
    for text in OWN.lines() {
        expect_record::<Call, HostRuntime>(&rt, text, text)?;
    }
    expect_records::<Call, HostRuntime>(&rt, LOOSE)
}

#[test]
fn other_bytes_are_not_json(rt: HostRuntime) {
    let answer = Call::read_record(rt.alloc(), br#"{"type":"REVIVE",}"#);
    assert_eq!(rt; text_fault_of(answer), Some((17, TextFaultKind::Byte)));
}

/// The call with the shortest canonical text.
const REVIVE: &str = r#"{"type":"REVIVE","framework_id":{"value":"F1"}}"#;

/// The call with the next longer canonical text.
const SUPPRESS: &str = r#"{"type":"SUPPRESS","framework_id":{"value":"F1"}}"#;

// The limit is the number of bytes of the record: 47 bytes are enough, 46 are not.
#[test]
fn a_call_fits_a_limit_of_its_length(rt: HostRuntime) -> Result<(), Fail> {
    assert_eq!(rt; REVIVE.len(), 47);
    expect_record::<Call, HostRuntime>(&rt, REVIVE, REVIVE)?;
    assert_eq!(rt; SUPPRESS.len(), 49);
    expect_record::<Call, HostRuntime>(&rt, SUPPRESS, SUPPRESS)
}

fn task_of(alloc: Global, text: &[u8]) -> Result<TaskInfo, Fail> {
    let tape = read_tape(alloc, text)?;
    match TaskInfo::read_from(alloc, &tape.root(), &PathBuilder::new()) {
        Ok(task) => Ok(task),
        Err(_) => Err("a task")?,
    }
}

/// Returns a task to launch whose executor has this number of nested objects.
fn deep_task(alloc: Global, objects: usize) -> Result<TaskInfo, Fail> {
    let text = nested(
        alloc,
        br#"{"name":"t","task_id":{"value":"T1"},"agent_id":{"value":"A1"},"executor":"#,
        objects,
        b"}",
    )?;
    task_of(alloc, text.as_slice())
}

fn list_of_one<T: Drop>(alloc: Global, value: T) -> Result<List<T>, Fail> {
    let mut values = Vec::new(alloc);
    values.push(value)?;
    Ok(List::new(values))
}

fn deep_launch(alloc: Global, objects: usize) -> Result<Operation, Fail> {
    Ok(Operation::Launch {
        task_infos: list_of_one(alloc, deep_task(alloc, objects)?)?,
    })
}

fn deep_accept(alloc: Global, objects: usize) -> Result<Accept, Fail> {
    let operations = list_of_one(alloc, deep_launch(alloc, objects)?)?;
    Ok(Accept {
        offer_ids: List::new(Vec::new(alloc)),
        operations,
        filters: None,
    })
}

fn deep_call(alloc: Global, objects: usize) -> Result<Call, Fail> {
    Ok(Call::Accept {
        framework_id: Id {
            value: Text::new(String::from_str(alloc, "F1")?),
        },
        body: deep_accept(alloc, objects)?,
    })
}

fn is_read_again<T: Record>(alloc: Global, record: T) -> Result<bool, Fail> {
    let text = canon(&record, alloc, Limit::LARGEST)?;
    Ok(T::of_text(alloc, text.as_slice()).is_ok())
}

fn is_too_deep<T: Record>(alloc: Global, record: T) -> bool {
    matches!(
        record.canonical(alloc, Limit::LARGEST),
        Err(EncodeFault::TooDeep)
    )
}

// The executor of a task to launch is inside seven objects and arrays of an ACCEPT call.
#[test]
fn calls_nest_to_the_limit(rt: HostRuntime) -> Result<(), Fail> {
    let alloc = rt.alloc();
    assert!(rt; is_read_again(alloc, deep_call(alloc, MAX_NESTING - 7)?)?);
    Ok(())
}

#[test]
fn deep_calls_are_refused(rt: HostRuntime) -> Result<(), Fail> {
    let alloc = rt.alloc();
    assert!(rt; is_too_deep(alloc, deep_call(alloc, MAX_NESTING - 6)?));
    Ok(())
}
