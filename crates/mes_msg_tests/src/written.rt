//! Tests of events: the canonical text of each event and of its copy.

use crate::record::expect_records;
use mes_msg::Event;
use std::test::Fail;

/// Texts of SUBSCRIBED, RESCIND, MESSAGE, UPDATE, FAILURE and ERROR, each with the canonical text.
const PLAIN: &str =
    r#"{"type":"SUBSCRIBED","subscribed":{"framework_id":{"value":"F1"}}} => {"type":"SUBSCRIBED","subscribed":{"framework_id":{"value":"F1"}}}
{"type":"SUBSCRIBED","subscribed":{"framework_id":{"value":"F1"},"heartbeat_interval_seconds":15}} => {"type":"SUBSCRIBED","subscribed":{"framework_id":{"value":"F1"},"heartbeat_interval_seconds":15.0}}
{"type":"SUBSCRIBED","subscribed":{"heartbeat_interval_seconds":0.0000005,"framework_id":{"value":"F1"}}} => {"type":"SUBSCRIBED","subscribed":{"framework_id":{"value":"F1"},"heartbeat_interval_seconds":0.000001}}
{"type":"SUBSCRIBED","subscribed":{"framework_id":{"value":"F1"},"heartbeat_interval_seconds":1e12,"master_info":{"id":"M"}}} => {"type":"SUBSCRIBED","subscribed":{"framework_id":{"value":"F1"},"heartbeat_interval_seconds":1000000000000.0}}
{"type":"SUBSCRIBED","subscribed":{"framework_id":{"value":"F1"},"heartbeat_interval_seconds":null}} => {"type":"SUBSCRIBED","subscribed":{"framework_id":{"value":"F1"}}}
{"type":"RESCIND","rescind":{"offer_id":{"value":"O1"}}} => {"type":"RESCIND","rescind":{"offer_id":{"value":"O1"}}}
{"type":"RESCIND","rescind":{"offer_id":{"value":"O1","x":1,"x":2},"url":1}} => {"type":"RESCIND","rescind":{"offer_id":{"value":"O1"}}}
{"type":"MESSAGE","message":{"agent_id":{"value":"A1"},"executor_id":{"value":"E1"},"data":"Zg=="}} => {"type":"MESSAGE","message":{"agent_id":{"value":"A1"},"executor_id":{"value":"E1"},"data":"Zg=="}}
{"type":"MESSAGE","message":{"agent_id":{"value":"A1"},"executor_id":{"value":"E1"},"data":""}} => {"type":"MESSAGE","message":{"agent_id":{"value":"A1"},"executor_id":{"value":"E1"},"data":""}}
{"type":"MESSAGE","message":{"data":"Zm9v","executor_id":{"value":"E1"},"agent_id":{"value":"A1"}}} => {"type":"MESSAGE","message":{"agent_id":{"value":"A1"},"executor_id":{"value":"E1"},"data":"Zm9v"}}
{"type":"UPDATE","update":{"status":{"task_id":{"value":"T1"},"state":"TASK_UNREACHABLE","labels":{"labels":[{"key":"k"}]},"unreachable_time":{"nanoseconds":1}}}} => {"type":"UPDATE","update":{"status":{"task_id":{"value":"T1"},"state":"TASK_UNREACHABLE","labels":{"labels":[{"key":"k"}]},"unreachable_time":{"nanoseconds":1}}}}
{"type":"FAILURE","failure":{}} => {"type":"FAILURE","failure":{}}
{"type":"FAILURE","failure":{"status":null}} => {"type":"FAILURE","failure":{}}
{"type":"FAILURE","failure":{"agent_id":null,"executor_id":null,"status":0}} => {"type":"FAILURE","failure":{"status":0}}
{"type":"FAILURE","failure":{"agent_id":{"value":"A1"},"executor_id":{"value":"E1"},"status":-2147483648}} => {"type":"FAILURE","failure":{"agent_id":{"value":"A1"},"executor_id":{"value":"E1"},"status":-2147483648}}
{"type":"FAILURE","failure":{"status":2147483647.0,"executor_id":{"value":"E1"}}} => {"type":"FAILURE","failure":{"executor_id":{"value":"E1"},"status":2147483647}}
{"type":"FAILURE","failure":{"status":-0}} => {"type":"FAILURE","failure":{"status":0}}
{"type":"FAILURE","failure":{"agent_id":{"value":"A1"}}} => {"type":"FAILURE","failure":{"agent_id":{"value":"A1"}}}
{"type":"ERROR","error":{"message":""}} => {"type":"ERROR","error":{"message":""}}
{"type":"ERROR","error":{"message":"a\n\"\\\u0001/é"}} => {"type":"ERROR","error":{"message":"a\n\"\\\u0001/é"}}
{"type":"ERROR","error":{"message":"\u0061\/"}} => {"type":"ERROR","error":{"message":"a/"}}
"#;

/// Texts of HEARTBEAT and of events whose bodies are ignored, each with the canonical text.
const NAMES: &str = r#"{"type":"HEARTBEAT"} => {"type":"HEARTBEAT"}
 { "x":1, "type" : "HEARTBEAT", "x":2 }  => {"type":"HEARTBEAT"}
{"type":"HEARTBEAT","offers":7,"error":{},"error":{}} => {"type":"HEARTBEAT"}
{"t\u0079pe":"\u0048EARTBEAT"} => {"type":"HEARTBEAT"}
{"type":"INVERSE_OFFERS","inverse_offers":{"inverse_offers":[]}} => {"type":"INVERSE_OFFERS"}
{"type":"UPDATE_OPERATION_STATUS","update":7} => {"type":"UPDATE_OPERATION_STATUS"}
{"type":"heartbeat"} => {"type":"heartbeat"}
{"type":"HEARTBEAT "} => {"type":"HEARTBEAT "}
{"type":"OFFER","offers":[null]} => {"type":"OFFER"}
{"type":"","error":1,"error":2} => {"type":""}
{"type":"a\u0000\"é"} => {"type":"a\u0000\"é"}
"#;

/// Texts of OFFERS and UPDATE with nested messages, each with the canonical text.
const PARTS: &str =
    r#"{"type":"OFFERS","offers":[{"id":{"value":"O1"},"framework_id":{"value":"F1"},"agent_id":{"value":"A1"},"hostname":"h"}]} => {"type":"OFFERS","offers":{"offers":[{"id":{"value":"O1"},"framework_id":{"value":"F1"},"agent_id":{"value":"A1"},"hostname":"h"}]}}
{"type":"OFFERS","offers":{"offers":[{"id":{"value":"O1"},"framework_id":{"value":"F1"},"agent_id":{"value":"A1"},"hostname":"h"}]}} => {"type":"OFFERS","offers":{"offers":[{"id":{"value":"O1"},"framework_id":{"value":"F1"},"agent_id":{"value":"A1"},"hostname":"h"}]}}
{"type":"OFFERS","offers":[]} => {"type":"OFFERS","offers":{}}
{"type":"OFFERS","offers":{"offers":[]}} => {"type":"OFFERS","offers":{}}
{"type":"OFFERS","offers":{"offers":null}} => {"type":"OFFERS","offers":{}}
{"type":"OFFERS","offers":{}} => {"type":"OFFERS","offers":{}}
{"type":"OFFERS","offers":{"offers":[{"id":{"value":"O1"},"framework_id":{"value":"F1"},"agent_id":{"value":"A1"},"hostname":"h","url":{"scheme":"http"},"domain":{},"unavailability":1},{"id":{"value":"O2"},"framework_id":{"value":"F1"},"agent_id":{"value":"A1"},"hostname":"h","resources":[],"attributes":[],"executor_ids":[]}],"x":1}} => {"type":"OFFERS","offers":{"offers":[{"id":{"value":"O1"},"framework_id":{"value":"F1"},"agent_id":{"value":"A1"},"hostname":"h"},{"id":{"value":"O2"},"framework_id":{"value":"F1"},"agent_id":{"value":"A1"},"hostname":"h"}]}}
{"type":"OFFERS","offers":[{"id":{"value":"O1"},"framework_id":{"value":"F1"},"agent_id":{"value":"A1"},"hostname":"h","resources":[{"name":"cpus","type":"SCALAR","scalar":{"value":1.0005}}],"executor_ids":[{"value":"E1"}]}]} => {"type":"OFFERS","offers":{"offers":[{"id":{"value":"O1"},"framework_id":{"value":"F1"},"agent_id":{"value":"A1"},"hostname":"h","resources":[{"name":"cpus","type":"SCALAR","scalar":{"value":1.001}}],"executor_ids":[{"value":"E1"}]}]}}
{"type":"UPDATE","update":{"status":{"task_id":{"value":"T1"},"state":"TASK_RUNNING"}}} => {"type":"UPDATE","update":{"status":{"task_id":{"value":"T1"},"state":"TASK_RUNNING"}}}
{"type":"UPDATE","update":{"status":{"task_id":{"value":"T1"},"state":"TASK_GONE_BY_OPERATOR","message":"m","source":"SOURCE_MASTER","reason":"REASON_RECONCILIATION","data":"Zg==","agent_id":{"value":"A1"},"executor_id":{"value":"E1"},"timestamp":1.5,"uuid":"AAECAwQFBgcICQoLDA0ODw==","healthy":false}}} => {"type":"UPDATE","update":{"status":{"task_id":{"value":"T1"},"state":"TASK_GONE_BY_OPERATOR","message":"m","source":"SOURCE_MASTER","reason":"REASON_RECONCILIATION","data":"Zg==","agent_id":{"value":"A1"},"executor_id":{"value":"E1"},"timestamp":1.5,"uuid":"AAECAwQFBgcICQoLDA0ODw==","healthy":false}}}
{"type":"UPDATE","update":{"status":{"task_id":{"value":"T1"},"state":"TASK_RUNNING","container_status":{"x":1},"uuid":"","check_status":1,"url":{}}}} => {"type":"UPDATE","update":{"status":{"task_id":{"value":"T1"},"state":"TASK_RUNNING","uuid":""}}}
{"type":"UPDATE","update":{"x":null,"status":{"uuid":null,"state":"TASK_RUNNING","task_id":{"value":"T1"}}}} => {"type":"UPDATE","update":{"status":{"task_id":{"value":"T1"},"state":"TASK_RUNNING"}}}
"#;

#[test]
fn events_are_written(rt: HostRuntime) -> Result<(), Fail> {
    expect_records::<Event, HostRuntime>(&rt, PLAIN)?;
    expect_records::<Event, HostRuntime>(&rt, NAMES)?;
    expect_records::<Event, HostRuntime>(&rt, PARTS)
}
