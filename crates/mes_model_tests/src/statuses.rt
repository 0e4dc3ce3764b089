//! Tests of task statuses, task states, and the acknowledgements that statuses require.

use crate::support::{expect_faults, expect_values, row_of, value_of};
use mes_model::{OwedKey, Part, TaskState, TaskStatus};
use std::alloc::{AllocGlobal, Global};
use std::process::Abort;
use std::test::Fail;

/// All task states, each with its name.
const STATES: [(TaskState, &str); 14] = [
    (TaskState::Staging, "TASK_STAGING"),
    (TaskState::Starting, "TASK_STARTING"),
    (TaskState::Running, "TASK_RUNNING"),
    (TaskState::Killing, "TASK_KILLING"),
    (TaskState::Finished, "TASK_FINISHED"),
    (TaskState::Failed, "TASK_FAILED"),
    (TaskState::Killed, "TASK_KILLED"),
    (TaskState::Error, "TASK_ERROR"),
    (TaskState::Lost, "TASK_LOST"),
    (TaskState::Dropped, "TASK_DROPPED"),
    (TaskState::Unreachable, "TASK_UNREACHABLE"),
    (TaskState::Gone, "TASK_GONE"),
    (TaskState::GoneByOperator, "TASK_GONE_BY_OPERATOR"),
    (TaskState::Unknown, "TASK_UNKNOWN"),
];

/// Names that no state has.
const NO_STATES: [&str; 8] = [
    "",
    "RUNNING",
    "task_running",
    "TASK_RUNNIN",
    "TASK_RUNNING ",
    " TASK_RUNNING",
    "TASK_GONE_BY",
    "TASK_GONE_BY_OPERATORS",
];

/// Invalid texts of a task state.
const STATE_FAULTS: &str = r#"null => . WrongKind
true => . WrongKind
3 => . WrongKind
["TASK_RUNNING"] => . WrongKind
{"TASK_RUNNING":1} => . WrongKind
"" => . UnknownName
"RUNNING" => . UnknownName
"task_running" => . UnknownName
"TASK_GONE_BY" => . UnknownName
"#;

const STATES_WRITTEN: &str = r#""TASK_STAGING" => "TASK_STAGING"
"TASK_\u0047ONE" => "TASK_GONE"
"TASK_UNKNOWN" => "TASK_UNKNOWN"
"#;

/// Invalid texts with a fault of a required member of a status.
const REQUIRED: &str = r#"null => . WrongKind
[] => . WrongKind
{"state":"TASK_RUNNING"} => task_id Missing
{"task_id":null,"state":"TASK_RUNNING"} => task_id Missing
{"task_id":"t","state":"TASK_RUNNING"} => task_id WrongKind
{"task_id":{"value":"t"},"state":"TASK_RUNNING","task_id":{"value":"t"}} => task_id Twice
{"task_id":{},"state":"TASK_RUNNING"} => task_id.value Missing
{"task_id":{"value":1},"state":"TASK_RUNNING"} => task_id.value WrongKind
{"task_id":{"value":"t","value":"t"},"state":"TASK_RUNNING"} => task_id.value Twice
{"task_id":{"value":"t"}} => state Missing
{"task_id":{"value":"t"},"state":null} => state Missing
{"task_id":{"value":"t"},"state":1} => state WrongKind
{"task_id":{"value":"t"},"state":{"value":"TASK_RUNNING"}} => state WrongKind
{"task_id":{"value":"t"},"state":""} => state UnknownName
{"task_id":{"value":"t"},"state":"TASK_STARTED"} => state UnknownName
{"task_id":{"value":"t"},"state":"task_running"} => state UnknownName
{"task_id":{"value":"t"},"state":"TASK_RUNNING","state":"TASK_FAILED"} => state Twice
{"task_id":{"value":"t"},"state":"TASK_RUNNING","state":null} => state Twice
{"state":1,"message":1} => task_id Missing
{"healthy":1,"message":1,"state":"RUNNING","task_id":{"value":"t"}} => state UnknownName
{"message":1,"state":1,"task_id":1} => task_id WrongKind
"#;

/// Invalid texts with a fault of a string or of bytes in a status.
const TEXTS: &str =
    r#"{"task_id":{"value":"t"},"state":"TASK_LOST","message":1} => message WrongKind
{"task_id":{"value":"t"},"state":"TASK_LOST","message":"m","message":"m"} => message Twice
{"task_id":{"value":"t"},"state":"TASK_LOST","source":{}} => source WrongKind
{"task_id":{"value":"t"},"state":"TASK_LOST","source":"s","source":null} => source Twice
{"task_id":{"value":"t"},"state":"TASK_LOST","reason":[]} => reason WrongKind
{"task_id":{"value":"t"},"state":"TASK_LOST","reason":"r","reason":"r"} => reason Twice
{"task_id":{"value":"t"},"state":"TASK_LOST","data":[0]} => data WrongKind
{"task_id":{"value":"t"},"state":"TASK_LOST","data":"Zg"} => data BadBase64
{"task_id":{"value":"t"},"state":"TASK_LOST","data":"Zh=="} => data BadBase64
{"task_id":{"value":"t"},"state":"TASK_LOST","data":"-_8="} => data BadBase64
{"task_id":{"value":"t"},"state":"TASK_LOST","data":"Zg==\n"} => data BadBase64
{"task_id":{"value":"t"},"state":"TASK_LOST","data":"Zg==","data":"Zg=="} => data Twice
{"task_id":{"value":"t"},"state":"TASK_LOST","uuid":0} => uuid WrongKind
{"task_id":{"value":"t"},"state":"TASK_LOST","uuid":"Zm9vYg"} => uuid BadBase64
{"task_id":{"value":"t"},"state":"TASK_LOST","uuid":"Zm9vYh=="} => uuid BadBase64
{"task_id":{"value":"t"},"state":"TASK_LOST","uuid":"00010203-0405-0607-0809-0a0b0c0d0e0f"} => uuid BadBase64
{"task_id":{"value":"t"},"state":"TASK_LOST","uuid":"","uuid":""} => uuid Twice
{"task_id":{"value":"t"},"state":"TASK_LOST","source":1,"message":1} => message WrongKind
{"task_id":{"value":"t"},"state":"TASK_LOST","reason":1,"source":1} => source WrongKind
{"task_id":{"value":"t"},"state":"TASK_LOST","data":"Zg","reason":1} => reason WrongKind
{"task_id":{"value":"t"},"state":"TASK_LOST","agent_id":1,"data":"Zg"} => data BadBase64
{"task_id":{"value":"t"},"state":"TASK_LOST","uuid":"Zg","timestamp":-1} => timestamp NumberRange
{"task_id":{"value":"t"},"state":"TASK_LOST","healthy":1,"uuid":"Zg"} => uuid BadBase64
{"task_id":{"value":"t"},"state":"TASK_LOST","message":null,"source":null,"reason":null,"data":null,"uuid":null,"healthy":"true"} => healthy WrongKind
"#;

/// Invalid texts with a fault of another member of a status.
const OTHERS: &str =
    r#"{"task_id":{"value":"t"},"state":"TASK_LOST","agent_id":"a"} => agent_id WrongKind
{"task_id":{"value":"t"},"state":"TASK_LOST","agent_id":{}} => agent_id.value Missing
{"task_id":{"value":"t"},"state":"TASK_LOST","agent_id":{"value":[]}} => agent_id.value WrongKind
{"task_id":{"value":"t"},"state":"TASK_LOST","agent_id":{"value":"a","value":"a"}} => agent_id.value Twice
{"task_id":{"value":"t"},"state":"TASK_LOST","agent_id":{"value":"a"},"agent_id":{"value":"a"}} => agent_id Twice
{"task_id":{"value":"t"},"state":"TASK_LOST","executor_id":1} => executor_id WrongKind
{"task_id":{"value":"t"},"state":"TASK_LOST","executor_id":{"value":null}} => executor_id.value Missing
{"task_id":{"value":"t"},"state":"TASK_LOST","executor_id":{"value":1}} => executor_id.value WrongKind
{"task_id":{"value":"t"},"state":"TASK_LOST","executor_id":{"value":"e","value":"e"}} => executor_id.value Twice
{"task_id":{"value":"t"},"state":"TASK_LOST","executor_id":{"value":"e"},"executor_id":null} => executor_id Twice
{"task_id":{"value":"t"},"state":"TASK_LOST","timestamp":"1"} => timestamp WrongKind
{"task_id":{"value":"t"},"state":"TASK_LOST","timestamp":-0.5} => timestamp NumberRange
{"task_id":{"value":"t"},"state":"TASK_LOST","timestamp":1000000000000.000001} => timestamp NumberRange
{"task_id":{"value":"t"},"state":"TASK_LOST","timestamp":0.000000000000000000000000000000000000000000000000000000000000000} => timestamp NumberRange
{"task_id":{"value":"t"},"state":"TASK_LOST","timestamp":1,"timestamp":1} => timestamp Twice
{"task_id":{"value":"t"},"state":"TASK_LOST","healthy":0} => healthy WrongKind
{"task_id":{"value":"t"},"state":"TASK_LOST","healthy":{}} => healthy WrongKind
{"task_id":{"value":"t"},"state":"TASK_LOST","healthy":true,"healthy":true} => healthy Twice
{"task_id":{"value":"t"},"state":"TASK_LOST","executor_id":1,"agent_id":{}} => agent_id.value Missing
{"task_id":{"value":"t"},"state":"TASK_LOST","timestamp":"1","executor_id":{}} => executor_id.value Missing
{"task_id":{"value":"t"},"state":"TASK_LOST","labels":[]} => labels WrongKind
{"task_id":{"value":"t"},"state":"TASK_LOST","labels":{},"labels":null} => labels Twice
{"task_id":{"value":"t"},"state":"TASK_LOST","labels":{"labels":{}}} => labels.labels WrongKind
{"task_id":{"value":"t"},"state":"TASK_LOST","labels":{"labels":[{"key":"k"},{"value":"v"}]}} => labels.labels[1].key Missing
{"task_id":{"value":"t"},"state":"TASK_LOST","unreachable_time":1} => unreachable_time WrongKind
{"task_id":{"value":"t"},"state":"TASK_LOST","unreachable_time":{}} => unreachable_time.nanoseconds Missing
{"task_id":{"value":"t"},"state":"TASK_LOST","unreachable_time":{"nanoseconds":"1"}} => unreachable_time.nanoseconds WrongKind
{"task_id":{"value":"t"},"state":"TASK_LOST","unreachable_time":{"nanoseconds":-1}} => unreachable_time.nanoseconds NumberRange
{"task_id":{"value":"t"},"state":"TASK_LOST","unreachable_time":{"nanoseconds":1.5}} => unreachable_time.nanoseconds NumberRange
{"task_id":{"value":"t"},"state":"TASK_LOST","unreachable_time":{"nanoseconds":18446744073709551616}} => unreachable_time.nanoseconds NumberRange
{"task_id":{"value":"t"},"state":"TASK_LOST","unreachable_time":{},"labels":7,"healthy":7} => healthy WrongKind
{"task_id":{"value":"t"},"state":"TASK_LOST","unreachable_time":{},"labels":7} => labels WrongKind
"#;

const WRITTEN: &str =
    r#"{"task_id":{"value":"t"},"state":"TASK_RUNNING"} => {"task_id":{"value":"t"},"state":"TASK_RUNNING"}
{"task_id":{"value":"t"},"state":"TASK_GONE_BY_OPERATOR","message":"m","source":"SOURCE_MASTER","reason":"REASON_SLAVE_REMOVED","data":"Zm9vYg==","agent_id":{"value":"a"},"executor_id":{"value":"e"},"timestamp":1.5,"uuid":"AAECAwQFBgcICQoLDA0ODw==","healthy":true} => {"task_id":{"value":"t"},"state":"TASK_GONE_BY_OPERATOR","message":"m","source":"SOURCE_MASTER","reason":"REASON_SLAVE_REMOVED","data":"Zm9vYg==","agent_id":{"value":"a"},"executor_id":{"value":"e"},"timestamp":1.5,"uuid":"AAECAwQFBgcICQoLDA0ODw==","healthy":true}
{"healthy":false,"uuid":"","timestamp":1.0000005,"executor_id":{"value":""},"agent_id":{"value":""},"data":"","reason":"","source":"","message":"","state":"TASK_ERROR","task_id":{"value":""}} => {"task_id":{"value":""},"state":"TASK_ERROR","message":"","source":"","reason":"","data":"","agent_id":{"value":""},"executor_id":{"value":""},"timestamp":1.000001,"uuid":"","healthy":false}
{"task_id":{"value":"t"},"state":"TASK_KILLED","message":null,"source":null,"reason":null,"data":null,"agent_id":null,"executor_id":null,"timestamp":null,"uuid":null,"healthy":null,"labels":null,"unreachable_time":null} => {"task_id":{"value":"t"},"state":"TASK_KILLED"}
{"unreachable_time":{"nanoseconds":0,"x":1},"labels":{},"task_id":{"value":"t"},"state":"TASK_UNREACHABLE"} => {"task_id":{"value":"t"},"state":"TASK_UNREACHABLE","labels":{},"unreachable_time":{"nanoseconds":0}}
{"task_id":{"value":"t"},"state":"TASK_UNREACHABLE","labels":{"labels":[{"key":"k"},{"value":"v","key":"l"}]},"unreachable_time":{"nanoseconds":18446744073709551615}} => {"task_id":{"value":"t"},"state":"TASK_UNREACHABLE","labels":{"labels":[{"key":"k"},{"key":"l","value":"v"}]},"unreachable_time":{"nanoseconds":18446744073709551615}}
{"task_id":{"value":"t"},"state":"TASK_UNREACHABLE","unreachable_time":{"nanoseconds":1.5e1}} => {"task_id":{"value":"t"},"state":"TASK_UNREACHABLE","unreachable_time":{"nanoseconds":15}}
{"limitation":1,"task_id":{"value":"t"},"limitation":2,"state":"TASK_DROPPED","timestamp":1e12} => {"task_id":{"value":"t"},"state":"TASK_DROPPED","timestamp":1000000000000.0}
{"task_id":{"value":"t"},"state":"TASK_FAILED","timestamp":0.0000004,"check_status":{},"healthy":null} => {"task_id":{"value":"t"},"state":"TASK_FAILED","timestamp":0.0}
"#;

/// The agent, the task and the uuid of a key.
type Key = (&'static str, &'static str, &'static [u8]);

/// A status, and the key of the acknowledgement that it requires, if it requires one.
type Owing = (&'static str, Option<Key>);

const OWING: [Owing; 8] = [
    (r#"{"task_id":{"value":"t"},"state":"TASK_LOST"}"#, None),
    (
        r#"{"task_id":{"value":"t"},"state":"TASK_LOST","uuid":"AA=="}"#,
        None,
    ),
    (
        r#"{"task_id":{"value":"t"},"state":"TASK_LOST","agent_id":{"value":"a"}}"#,
        None,
    ),
    (
        r#"{"task_id":{"value":"t"},"state":"TASK_LOST","uuid":""}"#,
        None,
    ),
    (
        r#"{"task_id":{"value":"t"},"state":"TASK_LOST","agent_id":{"value":"a"},"uuid":""}"#,
        None,
    ),
    (
        r#"{"task_id":{"value":"t"},"state":"TASK_LOST","agent_id":{"value":"a"},"uuid":"AA=="}"#,
        Some(("a", "t", &[0])),
    ),
    (
        r#"{"task_id":{"value":""},"state":"TASK_LOST","agent_id":{"value":""},"uuid":"Zg=="}"#,
        Some(("", "", b"f")),
    ),
    (
        r#"{"task_id":{"value":"t"},"state":"TASK_RUNNING","agent_id":{"value":"a"},"executor_id":{"value":"e"},"uuid":"AAECAwQFBgcICQoLDA0ODw=="}"#,
        Some((
            "a",
            "t",
            &[0, 1, 2, 3, 4, 5, 6, 7, 8, 9, 10, 11, 12, 13, 14, 15],
        )),
    ),
];

/// Two statuses with the same key of an acknowledgement.
const SAME: &str =
    r#"{"task_id":{"value":"t"},"state":"TASK_LOST","agent_id":{"value":"a"},"uuid":"Zm8="} => {"uuid":"Zm8=","agent_id":{"value":"a"},"healthy":true,"state":"TASK_GONE","task_id":{"value":"t"}}
"#;

/// Pairs of statuses with different keys of acknowledgements.
const OTHERS_OWED: &str =
    r#"{"task_id":{"value":"t"},"state":"TASK_LOST","agent_id":{"value":"a"},"uuid":"Zm8="} => {"task_id":{"value":"t"},"state":"TASK_LOST","agent_id":{"value":"b"},"uuid":"Zm8="}
{"task_id":{"value":"t"},"state":"TASK_LOST","agent_id":{"value":"a"},"uuid":"Zm8="} => {"task_id":{"value":"tt"},"state":"TASK_LOST","agent_id":{"value":"a"},"uuid":"Zm8="}
{"task_id":{"value":"t"},"state":"TASK_LOST","agent_id":{"value":"a"},"uuid":"Zm8="} => {"task_id":{"value":"t"},"state":"TASK_LOST","agent_id":{"value":"a"},"uuid":"Zm9v"}
{"task_id":{"value":"t"},"state":"TASK_LOST","agent_id":{"value":"a"},"uuid":"Zm8="} => {"task_id":{"value":"t"},"state":"TASK_LOST","agent_id":{"value":"a"},"uuid":"Zm4="}
{"task_id":{"value":"a"},"state":"TASK_LOST","agent_id":{"value":"t"},"uuid":"Zm8="} => {"task_id":{"value":"t"},"state":"TASK_LOST","agent_id":{"value":"a"},"uuid":"Zm8="}
"#;

fn owed_key_of(alloc: Global, text: &str) -> Result<Option<OwedKey>, Fail> {
    let status: TaskStatus = value_of(alloc, text)?;
    Ok(status.owed_key(alloc)?)
}

fn owes(alloc: Global, text: &str) -> Result<bool, Fail> {
    let status: TaskStatus = value_of(alloc, text)?;
    Ok(status.owes())
}

fn key_of(alloc: Global, text: &str) -> Result<OwedKey, Fail> {
    match owed_key_of(alloc, text)? {
        Some(key) => Ok(key),
        None => Err("a key")?,
    }
}

fn parts(key: &OwedKey) -> (&str, &str, &[u8]) {
    (
        key.agent.value.as_str(),
        key.task.value.as_str(),
        key.uuid.as_slice(),
    )
}

#[test]
fn each_state_has_one_name(rt: HostRuntime) -> Result<(), Fail> {
    for &(state, name) in &STATES {
        assert_eq!(rt; state.name(), name);
        assert_eq!(rt; TaskState::of_name(name), Some(state));
    }
    for &name in &NO_STATES {
        assert_eq!(rt; TaskState::of_name(name), None);
    }
    Ok(())
}

#[test]
fn a_state_is_read_by_its_name_alone(rt: HostRuntime) -> Result<(), Fail> {
    expect_faults::<TaskState, HostRuntime>(&rt, STATE_FAULTS)?;
    expect_values::<TaskState, HostRuntime>(&rt, STATES_WRITTEN)
}

#[test]
fn a_status_has_its_required_rows(rt: HostRuntime) -> Result<(), Fail> {
    expect_faults::<TaskStatus, HostRuntime>(&rt, REQUIRED)
}

#[test]
fn a_row_of_a_text_has_no_other_kind(rt: HostRuntime) -> Result<(), Fail> {
    expect_faults::<TaskStatus, HostRuntime>(&rt, TEXTS)
}

#[test]
fn the_first_fault_of_a_status_is_reported(rt: HostRuntime) -> Result<(), Fail> {
    expect_faults::<TaskStatus, HostRuntime>(&rt, OTHERS)
}

/// The deepest fault of a status is the fault of the key of a label, four steps below the status.
#[test]
fn a_fault_is_at_most_4_steps_below_a_status(rt: HostRuntime) {
    assert_eq!(rt; <TaskStatus as Part>::STEPS, 4);
}

#[test]
fn statuses_are_written_in_the_order_of_their_table(rt: HostRuntime) -> Result<(), Fail> {
    expect_values::<TaskStatus, HostRuntime>(&rt, WRITTEN)
}

#[test]
fn a_status_with_a_uuid_and_an_agent_requires_an_acknowledgement(
    rt: HostRuntime,
) -> Result<(), Fail> {
    for (text, owed) in OWING {
        assert_eq!(rt; owes(rt.alloc(), text)?, owed.is_some(), "{text}");
        expect_owed(&rt, text, owed)?;
    }
    Ok(())
}

fn expect_owed<R: Abort + AllocGlobal>(rt: &R, text: &str, owed: Option<Key>) -> Result<(), Fail> {
    let key = owed_key_of(rt.alloc(), text)?;
    assert_eq!(rt; key.as_ref().map(parts), owed, "{text}");
    Ok(())
}

/// Returns whether the keys of two statuses are equal, compared in both orders.
fn are_same(alloc: Global, text: &str, other: &str) -> Result<(bool, bool), Fail> {
    let key = key_of(alloc, text)?;
    let other = key_of(alloc, other)?;
    Ok((key == other, other == key))
}

/// Returns whether the copy of a status's key equals the key, and so does each field of the copy.
fn is_copied(alloc: Global, text: &str) -> Result<bool, Fail> {
    let key = key_of(alloc, text)?;
    let copy = key.copy(alloc)?;
    Ok(key == copy && parts(&copy) == parts(&key))
}

/// Checks that the keys of the two statuses on a line are equal if and only if `same` is true, and
/// that the first key equals its copy.
fn expect_key<R: Abort + AllocGlobal>(rt: &R, row: &str, same: bool) -> Result<(), Fail> {
    let (text, other) = row_of(row)?;
    let both = are_same(rt.alloc(), text, other)?;
    let copied = is_copied(rt.alloc(), text)?;
    assert_eq!(rt; (both, copied), ((same, same), true), "{text}");
    Ok(())
}

fn expect_keys<R: Abort + AllocGlobal>(rt: &R, rows: &str, same: bool) -> Result<(), Fail> {
    for row in rows.lines() {
        expect_key(rt, row, same)?;
    }
    Ok(())
}

#[test]
fn keys_are_the_same_if_all_their_parts_are(rt: HostRuntime) -> Result<(), Fail> {
    expect_keys(&rt, SAME, true)?;
    expect_keys(&rt, OTHERS_OWED, false)
}
