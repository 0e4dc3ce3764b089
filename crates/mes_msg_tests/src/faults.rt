//! Tests of invalid events, each with the path and the reason of its first fault.

use crate::record::expect_faults;
use crate::support::{field_fault_of, text_fault_of};
use mes_json::{MAX_NESTING, TextFaultKind};
use mes_model_schema::FieldFaultKind;
use mes_msg::Event;
use std::test::Fail;

/// Invalid events with a fault of the member `type`, and JSON values that are no objects.
const TYPES: &str = r#"null => . WrongKind
true => . WrongKind
1 => . WrongKind
"HEARTBEAT" => . WrongKind
[] => . WrongKind
[{"type":"HEARTBEAT"}] => . WrongKind
{} => type Missing
{"type":null} => type Missing
{"TYPE":"HEARTBEAT"} => type Missing
{"type":1} => type WrongKind
{"type":["HEARTBEAT"]} => type WrongKind
{"type":"HEARTBEAT","type":"HEARTBEAT"} => type Twice
{"type":"HEARTBEAT","type":null} => type Twice
{"offers":1,"error":{}} => type Missing
"#;

const SUBSCRIBED: &str = r#"{"type":"SUBSCRIBED"} => subscribed Missing
{"type":"SUBSCRIBED","subscribed":null} => subscribed Missing
{"type":"SUBSCRIBED","subscribed":"m"} => subscribed WrongKind
{"type":"SUBSCRIBED","subscribed":7} => subscribed WrongKind
{"type":"SUBSCRIBED","subscribed":{},"subscribed":{}} => subscribed Twice
{"type":"SUBSCRIBED","subscribed":null,"subscribed":{}} => subscribed Twice
{"type":"SUBSCRIBED","subscribed":[]} => subscribed WrongKind
{"type":"SUBSCRIBED","subscribed":{}} => subscribed.framework_id Missing
{"type":"SUBSCRIBED","subscribed":{"framework_id":null}} => subscribed.framework_id Missing
{"type":"SUBSCRIBED","subscribed":{"framework_id":"F1"}} => subscribed.framework_id WrongKind
{"type":"SUBSCRIBED","subscribed":{"framework_id":{"value":"F1"},"framework_id":{"value":"F1"}}} => subscribed.framework_id Twice
{"type":"SUBSCRIBED","subscribed":{"framework_id":{}}} => subscribed.framework_id.value Missing
{"type":"SUBSCRIBED","subscribed":{"framework_id":{"value":1}}} => subscribed.framework_id.value WrongKind
{"type":"SUBSCRIBED","subscribed":{"framework_id":{"value":"F1"},"heartbeat_interval_seconds":"15"}} => subscribed.heartbeat_interval_seconds WrongKind
{"type":"SUBSCRIBED","subscribed":{"framework_id":{"value":"F1"},"heartbeat_interval_seconds":-1}} => subscribed.heartbeat_interval_seconds NumberRange
{"type":"SUBSCRIBED","subscribed":{"framework_id":{"value":"F1"},"heartbeat_interval_seconds":1000000000000.000001}} => subscribed.heartbeat_interval_seconds NumberRange
{"type":"SUBSCRIBED","subscribed":{"framework_id":{"value":"F1"},"heartbeat_interval_seconds":15,"heartbeat_interval_seconds":15}} => subscribed.heartbeat_interval_seconds Twice
{"type":"SUBSCRIBED","subscribed":{"heartbeat_interval_seconds":-1}} => subscribed.framework_id Missing
"#;

const OFFERS: &str = r#"{"type":"OFFERS"} => offers Missing
{"type":"OFFERS","offers":null} => offers Missing
{"type":"OFFERS","offers":"m"} => offers WrongKind
{"type":"OFFERS","offers":7} => offers WrongKind
{"type":"OFFERS","offers":{},"offers":{}} => offers Twice
{"type":"OFFERS","offers":null,"offers":{}} => offers Twice
{"type":"OFFERS","offers":false} => offers WrongKind
{"type":"OFFERS","offers":{"offers":{}}} => offers.offers WrongKind
{"type":"OFFERS","offers":{"offers":7}} => offers.offers WrongKind
{"type":"OFFERS","offers":{"offers":[],"offers":[]}} => offers.offers Twice
{"type":"OFFERS","offers":{"offers":[null]}} => offers.offers[0] WrongKind
{"type":"OFFERS","offers":[null]} => offers[0] WrongKind
{"type":"OFFERS","offers":[7]} => offers[0] WrongKind
{"type":"OFFERS","offers":[[]]} => offers[0] WrongKind
{"type":"OFFERS","offers":[{}]} => offers[0].id Missing
{"type":"OFFERS","offers":{"offers":[{}]}} => offers.offers[0].id Missing
{"type":"OFFERS","offers":[{"id":{"value":"O1"},"framework_id":{"value":"F1"},"agent_id":{"value":"A1"},"hostname":"h"},{"id":{"value":"O2"}}]} => offers[1].framework_id Missing
{"type":"OFFERS","offers":{"offers":[{"id":{"value":"O1"},"framework_id":{"value":"F1"},"agent_id":{"value":"A1"},"hostname":"h"},{"id":{"value":"O1"},"framework_id":{"value":"F1"},"agent_id":{"value":"A1"},"hostname":"h","hostname":"h"}]}} => offers.offers[1].hostname Twice
{"type":"OFFERS","offers":{"offers":[{"id":{"value":"O1"},"framework_id":{"value":"F1"},"agent_id":{"value":"A1"},"hostname":"h","resources":[{"name":"a","type":"SET","set":{},"reservations":[{"labels":{"labels":[{}]}}]}]}]}} => offers.offers[0].resources[0].reservations[0].labels.labels[0].key Missing
"#;

const RESCIND: &str = r#"{"type":"RESCIND"} => rescind Missing
{"type":"RESCIND","rescind":null} => rescind Missing
{"type":"RESCIND","rescind":"m"} => rescind WrongKind
{"type":"RESCIND","rescind":7} => rescind WrongKind
{"type":"RESCIND","rescind":{},"rescind":{}} => rescind Twice
{"type":"RESCIND","rescind":null,"rescind":{}} => rescind Twice
{"type":"RESCIND","rescind":{}} => rescind.offer_id Missing
{"type":"RESCIND","rescind":{"offer_id":null}} => rescind.offer_id Missing
{"type":"RESCIND","rescind":{"offer_id":["O1"]}} => rescind.offer_id WrongKind
{"type":"RESCIND","rescind":{"offer_id":{"value":"O1"},"offer_id":{"value":"O1"}}} => rescind.offer_id Twice
{"type":"RESCIND","rescind":{"offer_id":{"value":null}}} => rescind.offer_id.value Missing
"#;

const UPDATE: &str = r#"{"type":"UPDATE"} => update Missing
{"type":"UPDATE","update":{"status":{"task_id":{"value":"T1"},"state":"TASK_UNREACHABLE","labels":[],"unreachable_time":{"nanoseconds":1}}}} => update.status.labels WrongKind
{"type":"UPDATE","update":{"status":{"task_id":{"value":"T1"},"state":"TASK_UNREACHABLE","labels":{"labels":[{"key":"k"}]},"unreachable_time":{}}}} => update.status.unreachable_time.nanoseconds Missing
{"type":"UPDATE","update":null} => update Missing
{"type":"UPDATE","update":"m"} => update WrongKind
{"type":"UPDATE","update":7} => update WrongKind
{"type":"UPDATE","update":{},"update":{}} => update Twice
{"type":"UPDATE","update":null,"update":{}} => update Twice
{"type":"UPDATE","update":{}} => update.status Missing
{"type":"UPDATE","update":{"status":null}} => update.status Missing
{"type":"UPDATE","update":{"status":"TASK_RUNNING"}} => update.status WrongKind
{"type":"UPDATE","update":{"status":{"task_id":{"value":"T1"},"state":"TASK_RUNNING"},"status":{"task_id":{"value":"T1"},"state":"TASK_RUNNING"}}} => update.status Twice
{"type":"UPDATE","update":{"status":{"task_id":{"value":"T1"},"state":"TASK_PAUSED"}}} => update.status.state UnknownName
{"type":"UPDATE","update":{"status":{"task_id":{"value":"T1"}}}} => update.status.state Missing
{"type":"UPDATE","update":{"status":{"task_id":{"value":"T1"},"state":"TASK_RUNNING","state":"TASK_LOST"}}} => update.status.state Twice
{"type":"UPDATE","update":{"status":{"task_id":{},"state":"TASK_RUNNING"}}} => update.status.task_id.value Missing
{"type":"UPDATE","update":{"status":{"task_id":{"value":"T1"},"state":"TASK_RUNNING","uuid":"AAE"}}} => update.status.uuid BadBase64
{"type":"UPDATE","update":{"status":{"task_id":{"value":"T1"},"state":"TASK_RUNNING","data":1}}} => update.status.data WrongKind
{"type":"UPDATE","update":{"status":{"task_id":{"value":"T1"},"state":"TASK_RUNNING","timestamp":-1}}} => update.status.timestamp NumberRange
{"type":"UPDATE","update":{"status":{"task_id":{"value":"T1"},"state":"TASK_RUNNING","healthy":0}}} => update.status.healthy WrongKind
"#;

const MESSAGE: &str = r#"{"type":"MESSAGE"} => message Missing
{"type":"MESSAGE","message":null} => message Missing
{"type":"MESSAGE","message":"m"} => message WrongKind
{"type":"MESSAGE","message":7} => message WrongKind
{"type":"MESSAGE","message":{},"message":{}} => message Twice
{"type":"MESSAGE","message":null,"message":{}} => message Twice
{"type":"MESSAGE","message":{"executor_id":{"value":"E1"},"data":"Zg=="}} => message.agent_id Missing
{"type":"MESSAGE","message":{"agent_id":null,"executor_id":{"value":"E1"},"data":"Zg=="}} => message.agent_id Missing
{"type":"MESSAGE","message":{"agent_id":"A1","executor_id":{"value":"E1"},"data":"Zg=="}} => message.agent_id WrongKind
{"type":"MESSAGE","message":{"agent_id":{"value":"A1"},"agent_id":{"value":"A1"},"executor_id":{"value":"E1"},"data":"Zg=="}} => message.agent_id Twice
{"type":"MESSAGE","message":{"agent_id":{},"executor_id":{"value":"E1"},"data":"Zg=="}} => message.agent_id.value Missing
{"type":"MESSAGE","message":{"agent_id":{"value":"A1"},"data":"Zg=="}} => message.executor_id Missing
{"type":"MESSAGE","message":{"agent_id":{"value":"A1"},"executor_id":null,"data":"Zg=="}} => message.executor_id Missing
{"type":"MESSAGE","message":{"agent_id":{"value":"A1"},"executor_id":7,"data":"Zg=="}} => message.executor_id WrongKind
{"type":"MESSAGE","message":{"agent_id":{"value":"A1"},"executor_id":{"value":"E1"},"executor_id":{"value":"E1"},"data":"Zg=="}} => message.executor_id Twice
{"type":"MESSAGE","message":{"agent_id":{"value":"A1"},"executor_id":{"value":[]},"data":"Zg=="}} => message.executor_id.value WrongKind
{"type":"MESSAGE","message":{"agent_id":{"value":"A1"},"executor_id":{"value":"E1"}}} => message.data Missing
{"type":"MESSAGE","message":{"agent_id":{"value":"A1"},"executor_id":{"value":"E1"},"data":null}} => message.data Missing
{"type":"MESSAGE","message":{"agent_id":{"value":"A1"},"executor_id":{"value":"E1"},"data":1}} => message.data WrongKind
{"type":"MESSAGE","message":{"agent_id":{"value":"A1"},"executor_id":{"value":"E1"},"data":"Zg"}} => message.data BadBase64
{"type":"MESSAGE","message":{"agent_id":{"value":"A1"},"executor_id":{"value":"E1"},"data":"Zh=="}} => message.data BadBase64
{"type":"MESSAGE","message":{"agent_id":{"value":"A1"},"executor_id":{"value":"E1"},"data":"-_=="}} => message.data BadBase64
{"type":"MESSAGE","message":{"agent_id":{"value":"A1"},"executor_id":{"value":"E1"},"data":"Zg==","data":null}} => message.data Twice
{"type":"MESSAGE","message":{"data":"Zg","executor_id":7}} => message.agent_id Missing
"#;

const FAILURE: &str = r#"{"type":"FAILURE"} => failure Missing
{"type":"FAILURE","failure":null} => failure Missing
{"type":"FAILURE","failure":"m"} => failure WrongKind
{"type":"FAILURE","failure":7} => failure WrongKind
{"type":"FAILURE","failure":{},"failure":{}} => failure Twice
{"type":"FAILURE","failure":null,"failure":{}} => failure Twice
{"type":"FAILURE","failure":[]} => failure WrongKind
{"type":"FAILURE","failure":{"agent_id":"A1"}} => failure.agent_id WrongKind
{"type":"FAILURE","failure":{"agent_id":{}}} => failure.agent_id.value Missing
{"type":"FAILURE","failure":{"agent_id":{"value":"A1"},"agent_id":null}} => failure.agent_id Twice
{"type":"FAILURE","failure":{"executor_id":7}} => failure.executor_id WrongKind
{"type":"FAILURE","failure":{"executor_id":{"value":null}}} => failure.executor_id.value Missing
{"type":"FAILURE","failure":{"executor_id":{"value":"E1"},"executor_id":{"value":"E1"}}} => failure.executor_id Twice
{"type":"FAILURE","failure":{"status":"1"}} => failure.status WrongKind
{"type":"FAILURE","failure":{"status":2147483648}} => failure.status NumberRange
{"type":"FAILURE","failure":{"status":-2147483649}} => failure.status NumberRange
{"type":"FAILURE","failure":{"status":1.5}} => failure.status NumberRange
{"type":"FAILURE","failure":{"status":1,"status":1}} => failure.status Twice
{"type":"FAILURE","failure":{"status":1.5,"executor_id":7}} => failure.executor_id WrongKind
"#;

const ERROR: &str = r#"{"type":"ERROR"} => error Missing
{"type":"ERROR","error":null} => error Missing
{"type":"ERROR","error":"m"} => error WrongKind
{"type":"ERROR","error":7} => error WrongKind
{"type":"ERROR","error":{},"error":{}} => error Twice
{"type":"ERROR","error":null,"error":{}} => error Twice
{"type":"ERROR","error":{}} => error.message Missing
{"type":"ERROR","error":{"message":null}} => error.message Missing
{"type":"ERROR","error":{"message":{}}} => error.message WrongKind
{"type":"ERROR","error":{"message":1}} => error.message WrongKind
{"type":"ERROR","error":{"message":"a","message":"a"}} => error.message Twice
"#;

#[test]
fn the_first_fault_of_an_event_is_reported(rt: HostRuntime) -> Result<(), Fail> {
    expect_faults::<Event, HostRuntime>(&rt, TYPES)?;
    expect_faults::<Event, HostRuntime>(&rt, SUBSCRIBED)?;
    expect_faults::<Event, HostRuntime>(&rt, OFFERS)?;
    expect_faults::<Event, HostRuntime>(&rt, RESCIND)?;
    expect_faults::<Event, HostRuntime>(&rt, UPDATE)?;
    expect_faults::<Event, HostRuntime>(&rt, MESSAGE)?;
    expect_faults::<Event, HostRuntime>(&rt, FAILURE)?;
    expect_faults::<Event, HostRuntime>(&rt, ERROR)
}

/// Bytes that are no JSON text, each with the offset and the reason of the fault.
const NO_TEXTS: [(&str, u64, TextFaultKind); 5] = [
    ("", 0, TextFaultKind::End),
    (r#"{"type":"HEARTBEAT""#, 19, TextFaultKind::End),
    (r#"{"type":"HEARTBEAT"}}"#, 20, TextFaultKind::Byte),
    (r#"{"type":"HEARTBEAT",}"#, 20, TextFaultKind::Byte),
    (r#"{"type":"UPDATE" "update":{}}"#, 17, TextFaultKind::Byte),
];

#[test]
fn other_bytes_are_not_json(rt: HostRuntime) {
    for &(text, byte, why) in &NO_TEXTS {
        let answer = Event::read_record(rt.alloc(), text.as_bytes());
        assert_eq!(rt; text_fault_of(answer), Some((byte, why)), "{text}");
    }
}

// Arrays nested to the limit `MAX_NESTING` are a JSON text, but no event.
#[test]
fn arrays_are_not_events(rt: HostRuntime) -> Result<(), Fail> {
    let mut text = Vec::new(rt.alloc());
    text.extend_from_slice(&[b'['; MAX_NESTING])?;
    text.extend_from_slice(&[b']'; MAX_NESTING])?;
    let fault = field_fault_of(Event::read_record(rt.alloc(), text.as_slice()));
    match fault {
        Some(fault) => assert_eq!(rt; fault.why, FieldFaultKind::WrongKind),
        None => Err("a fault")?,
    }
    Ok(())
}

// Arrays nested deeper than `MAX_NESTING` are not accepted as a JSON text.
#[test]
fn deeper_arrays_are_not_json(rt: HostRuntime) {
    let answer = Event::read_record(rt.alloc(), &[b'['; MAX_NESTING + 1]);
    assert_eq!(rt;
        text_fault_of(answer),
        Some((MAX_NESTING as u64, TextFaultKind::Depth))
    );
}
