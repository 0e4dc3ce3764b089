//! Tests of a master whose stream is disconnected.

use crate::support::expect_run;
use std::test::Fail;

/// A broken stream ends with its offers. Until the next SUBSCRIBE each call gets 403, and no event
/// is sent. Launched tasks and unacknowledged updates stay. Nothing happens without a stream.
const BROKEN: &str = r#"break => - => / / / -
- {"type":"SUBSCRIBE","subscribe":{"framework_info":{"user":"root","name":"n"}}} => 200 {"type":"SUBSCRIBED","subscribed":{"framework_id":{"value":"F1"},"heartbeat_interval_seconds":15.0}} => / / / 1
offer {"type":"OFFERS","offers":{"offers":[{"id":{"value":"O1"},"framework_id":{"value":"F1"},"agent_id":{"value":"A1"},"hostname":"h"},{"id":{"value":"O2"},"framework_id":{"value":"F1"},"agent_id":{"value":"A1"},"hostname":"h"}]}} => {"type":"OFFERS","offers":{"offers":[{"id":{"value":"O1"},"framework_id":{"value":"F1"},"agent_id":{"value":"A1"},"hostname":"h"},{"id":{"value":"O2"},"framework_id":{"value":"F1"},"agent_id":{"value":"A1"},"hostname":"h"}]}} => O1 O2 / / / 1
1 {"type":"ACCEPT","framework_id":{"value":"F1"},"accept":{"offer_ids":[{"value":"O1"}],"operations":[{"type":"LAUNCH","launch":{"task_infos":[{"name":"n","task_id":{"value":"T1"},"agent_id":{"value":"A1"}}]}}]}} => 202 => O2 / T1 / / 1
update {"type":"UPDATE","update":{"status":{"task_id":{"value":"T1"},"state":"TASK_RUNNING","agent_id":{"value":"A1"},"uuid":"AAECAwQFBgcICQoLDA0ODw=="}}} => {"type":"UPDATE","update":{"status":{"task_id":{"value":"T1"},"state":"TASK_RUNNING","agent_id":{"value":"A1"},"uuid":"AAECAwQFBgcICQoLDA0ODw=="}}} => O2 / T1 / / 1
break => - => / T1 / / -
1 {"type":"REVIVE","framework_id":{"value":"F1"}} => 403 => / T1 / / -
1 {"type":"ACCEPT","framework_id":{"value":"F1"},"accept":{"offer_ids":[{"value":"O2"}],"operations":[{"type":"LAUNCH","launch":{"task_infos":[{"name":"n","task_id":{"value":"T2"},"agent_id":{"value":"A1"}}]}}]}} => 403 => / T1 / / -
rescind O2 => M1 => / T1 / / -
resend 0 => M1 => / T1 / / -
break => - => / T1 / / -
- {"type":"SUBSCRIBE","subscribe":{"framework_info":{"user":"root","name":"n"}}} => 200 {"type":"SUBSCRIBED","subscribed":{"framework_id":{"value":"F1"},"heartbeat_interval_seconds":15.0}} => / T1 / / 2
1 {"type":"REVIVE","framework_id":{"value":"F1"}} => 400 => / T1 / / 2
2 {"type":"ACCEPT","framework_id":{"value":"F1"},"accept":{"offer_ids":[{"value":"O2"}],"operations":[{"type":"LAUNCH","launch":{"task_infos":[{"name":"n","task_id":{"value":"T2"},"agent_id":{"value":"A1"}}]}}]}} => 202 => / T1 / / 2
offer {"type":"OFFERS","offers":{"offers":[{"id":{"value":"O2"},"framework_id":{"value":"F1"},"agent_id":{"value":"A1"},"hostname":"h"}]}} => M2 => / T1 / / 2
resend 0 => {"type":"UPDATE","update":{"status":{"task_id":{"value":"T1"},"state":"TASK_RUNNING","agent_id":{"value":"A1"},"uuid":"AAECAwQFBgcICQoLDA0ODw=="}}} => / T1 / / 2
offer {"type":"OFFERS","offers":{"offers":[{"id":{"value":"O3"},"framework_id":{"value":"F1"},"agent_id":{"value":"A1"},"hostname":"h"}]}} => {"type":"OFFERS","offers":{"offers":[{"id":{"value":"O3"},"framework_id":{"value":"F1"},"agent_id":{"value":"A1"},"hostname":"h"}]}} => O3 / T1 / / 2
2 {"type":"TEARDOWN","framework_id":{"value":"F1"}} => 202 => / T1 / / -
break => - => / T1 / / -
- {"type":"SUBSCRIBE","subscribe":{"framework_info":{"user":"root","name":"n"}}} => 403 => / T1 / / -
"#;

#[test]
fn a_broken_stream_ends_with_its_offers(rt: HostRuntime) -> Result<(), Fail> {
    expect_run(&rt, BROKEN)
}
