//! Tests of the printed lines of events.

use crate::record::record_of;
use crate::support::{as_text, row_of};
use mes_msg::Event;
use std::alloc::Global;
use std::process::Abort;
use std::test::Fail;

// Returns the printed lines of the event in a record, with this number.
fn lines_of(alloc: Global, number: u64, record: &str) -> Result<Vec<u8>, Fail> {
    let event: Event = record_of(alloc, record.as_bytes())?;
    let lines = event.show_lines(alloc, number);
    drop(event);
    Ok(lines?)
}

// Checks the printed lines of the event in a record, with this number.
fn expect_lines<R: Abort>(
    rt: &R,
    alloc: Global,
    number: u64,
    record: &str,
    lines: &str,
) -> Result<(), Fail> {
    let shown = lines_of(alloc, number, record)?;
    assert_eq!(rt; as_text(shown.as_slice()), Some(lines), "{record}");
    Ok(())
}

// Events, each with its printed line for the number 1.
const BODIES: &str =
    r#"{"type":"SUBSCRIBED","subscribed":{"framework_id":{"value":"F1"},"heartbeat_interval_seconds":15}} => 1 SUBSCRIBED "F1" 15.0
{"type":"SUBSCRIBED","subscribed":{"framework_id":{"value":"F1"},"heartbeat_interval_seconds":0.0000015}} => 1 SUBSCRIBED "F1" 0.000002
{"type":"SUBSCRIBED","subscribed":{"framework_id":{"value":"F1"}}} => 1 SUBSCRIBED "F1" -
{"type":"RESCIND","rescind":{"offer_id":{"value":"O1"}}} => 1 RESCIND "O1"
{"type":"MESSAGE","message":{"agent_id":{"value":"A1"},"executor_id":{"value":"E1"},"data":"AAEC"}} => 1 MESSAGE "A1" "E1" 3
{"type":"MESSAGE","message":{"agent_id":{"value":"A1"},"executor_id":{"value":""},"data":""}} => 1 MESSAGE "A1" "" 0
{"type":"FAILURE","failure":{}} => 1 FAILURE - - -
{"type":"FAILURE","failure":{"agent_id":{"value":"A1"},"executor_id":{"value":"E1"},"status":-2147483648}} => 1 FAILURE "A1" "E1" -2147483648
{"type":"FAILURE","failure":{"executor_id":{"value":"E1"},"status":0}} => 1 FAILURE - "E1" 0
{"type":"ERROR","error":{"message":"m"}} => 1 ERROR "m"
{"type":"HEARTBEAT"} => 1 HEARTBEAT
{"type":"INVERSE_OFFERS","inverse_offers":{}} => 1 OTHER "INVERSE_OFFERS"
"#;

#[test]
fn each_event_has_its_line(rt: HostRuntime) -> Result<(), Fail> {
    for row in BODIES.lines() {
        let (record, line) = row_of(row)?;
        let lines = format!(in rt.alloc(); "{line}\n")?;
        expect_lines(&rt, rt.alloc(), 1, record, lines.as_str())?;
    }
    Ok(())
}

#[test]
fn each_offer_has_a_line_of_its_own(rt: HostRuntime) -> Result<(), Fail> {
    let events = [
        (r#"{"type":"OFFERS","offers":{}}"#, "7 OFFERS 0\n"),
        (
            r#"{"type":"OFFERS","offers":[{"id":{"value":"O1"},"framework_id":{"value":"F1"},"agent_id":{"value":"A1"},"hostname":"h"}]}"#,
            "7 OFFERS 1\n  \"O1\" \"A1\" \"h\" 0\n",
        ),
        (
            r#"{"type":"OFFERS","offers":{"offers":[{"id":{"value":"O1"},"framework_id":{"value":"F1"},"agent_id":{"value":"A1"},"hostname":"h","resources":[{"name":"cpus","type":"SCALAR","scalar":{"value":1.5}},{"name":"mem","type":"SCALAR","scalar":{"value":64}}],"attributes":[{"name":"rack","type":"TEXT","text":{"value":"r"}}]},{"id":{"value":"O2"},"framework_id":{"value":"F1"},"agent_id":{"value":"A2"},"hostname":"i"}]}}"#,
            "7 OFFERS 2\n  \"O1\" \"A1\" \"h\" 2\n  \"O2\" \"A2\" \"i\" 0\n",
        ),
    ];
    for (record, lines) in events {
        expect_lines(&rt, rt.alloc(), 7, record, lines)?;
    }
    Ok(())
}

// Checks the end of the printed line of an UPDATE whose status has these members after `state`.
fn expect_update<R: Abort>(rt: &R, alloc: Global, members: &str, rest: &str) -> Result<(), Fail> {
    let record = format!(in alloc;
        "{{\"type\":\"UPDATE\",\"update\":{{\"status\":{{\"task_id\":{{\"value\":\"T1\"}},\"state\":\"TASK_RUNNING\"{members}}}}}}}"
    )?;
    let lines = format!(in alloc; "1 UPDATE \"T1\" {rest}")?;
    expect_lines(rt, alloc, 1, record.as_str(), lines.as_str())
}

// The uuids are the 16 bytes 00 to 0f, 15 bytes, one byte, no bytes, and an absent uuid.
#[test]
fn a_uuid_of_another_length_is_printed_in_hexadecimal(rt: HostRuntime) -> Result<(), Fail> {
    let updates = [
        (
            r#","uuid":"AAECAwQFBgcICQoLDA0ODw==""#,
            "TASK_RUNNING 00010203-0405-0607-0809-0a0b0c0d0e0f\n",
        ),
        (
            r#","uuid":"AAECAwQFBgcICQoLDA0O""#,
            "TASK_RUNNING hex:000102030405060708090a0b0c0d0e\n",
        ),
        (r#","uuid":"/w==""#, "TASK_RUNNING hex:ff\n"),
        (r#","uuid":"""#, "TASK_RUNNING hex:\n"),
        ("", "TASK_RUNNING -\n"),
    ];
    for (uuid, rest) in updates {
        expect_update(&rt, rt.alloc(), uuid, rest)?;
    }
    Ok(())
}

#[test]
fn texts_are_quoted(rt: HostRuntime) -> Result<(), Fail> {
    expect_lines(
        &rt,
        rt.alloc(),
        u64::MAX,
        r#"{"type":"ERROR","error":{"message":"a\"b\\c\n\u0001\u001f\u00e9/\u20ac"}}"#,
        "18446744073709551615 ERROR \"a\\\"b\\\\c\\n\\u0001\\u001f\u{e9}/\u{20ac}\"\n",
    )
}
