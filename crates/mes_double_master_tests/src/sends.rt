//! Tests of the events that a master sends without a call, and of its refusals.

use crate::support::expect_run;
use std::test::Fail;

/// Each refusal changes nothing; a missing stream is reported first.
const REFUSED: &str =
    r#"offer {"type":"OFFERS","offers":{"offers":[{"id":{"value":"O1"},"framework_id":{"value":"F1"},"agent_id":{"value":"A1"},"hostname":"h"},{"id":{"value":"O1"},"framework_id":{"value":"F1"},"agent_id":{"value":"A1"},"hostname":"h"}]}} => M1 => / / / -
rescind O1 => M1 => / / / -
update {"type":"UPDATE","update":{"status":{"task_id":{"value":"T1"},"state":"TASK_RUNNING","agent_id":{"value":"A1"},"uuid":"AAECAwQFBgcICQoLDA0ODw=="}}} => M1 => / / / -
resend 0 => M1 => / / / -
- {"type":"SUBSCRIBE","subscribe":{"framework_info":{"user":"root","name":"n"}}} => 200 {"type":"SUBSCRIBED","subscribed":{"framework_id":{"value":"F1"},"heartbeat_interval_seconds":15.0}} => / / / 1
offer {"type":"OFFERS","offers":{"offers":[{"id":{"value":"O1"},"framework_id":{"value":"F1"},"agent_id":{"value":"A1"},"hostname":"h"},{"id":{"value":"O2"},"framework_id":{"value":"F1"},"agent_id":{"value":"A1"},"hostname":"h"},{"id":{"value":"O1"},"framework_id":{"value":"F1"},"agent_id":{"value":"A1"},"hostname":"h"}]}} => M2 => / / / 1
offer {"type":"OFFERS","offers":{"offers":[{"id":{"value":"O2"},"framework_id":{"value":"F1"},"agent_id":{"value":"A1"},"hostname":"h"},{"id":{"value":"O1"},"framework_id":{"value":"F1"},"agent_id":{"value":"A1"},"hostname":"h"}]}} => {"type":"OFFERS","offers":{"offers":[{"id":{"value":"O2"},"framework_id":{"value":"F1"},"agent_id":{"value":"A1"},"hostname":"h"},{"id":{"value":"O1"},"framework_id":{"value":"F1"},"agent_id":{"value":"A1"},"hostname":"h"}]}} => O2 O1 / / / 1
offer {"type":"OFFERS","offers":{"offers":[{"id":{"value":"O3"},"framework_id":{"value":"F1"},"agent_id":{"value":"A1"},"hostname":"h"},{"id":{"value":"O1"},"framework_id":{"value":"F1"},"agent_id":{"value":"A1"},"hostname":"h"}]}} => M2 => O2 O1 / / / 1
offer {"type":"OFFERS","offers":{"offers":[{"id":{"value":"O3"},"framework_id":{"value":"F1"},"agent_id":{"value":"A1"},"hostname":"h"}]}} => {"type":"OFFERS","offers":{"offers":[{"id":{"value":"O3"},"framework_id":{"value":"F1"},"agent_id":{"value":"A1"},"hostname":"h"}]}} => O2 O1 O3 / / / 1
rescind O9 => M3 => O2 O1 O3 / / / 1
rescind O1 => {"type":"RESCIND","rescind":{"offer_id":{"value":"O1"}}} => O2 O3 / / / 1
rescind O1 => M3 => O2 O3 / / / 1
offer {"type":"OFFERS","offers":{"offers":[{"id":{"value":"O1"},"framework_id":{"value":"F1"},"agent_id":{"value":"A1"},"hostname":"h"}]}} => M2 => O2 O3 / / / 1
1 {"type":"DECLINE","framework_id":{"value":"F1"},"decline":{"offer_ids":[{"value":"O2"}]}} => 202 => O3 / / / 1
offer {"type":"OFFERS","offers":{"offers":[{"id":{"value":"O2"},"framework_id":{"value":"F1"},"agent_id":{"value":"A1"},"hostname":"h"}]}} => M2 => O3 / / / 1
offer {"type":"OFFERS","offers":{}} => {"type":"OFFERS","offers":{}} => O3 / / / 1
1 {"type":"TEARDOWN","framework_id":{"value":"F1"}} => 202 => / / / -
offer {"type":"OFFERS","offers":{"offers":[{"id":{"value":"O9"},"framework_id":{"value":"F1"},"agent_id":{"value":"A1"},"hostname":"h"}]}} => M1 => / / / -
rescind O3 => M1 => / / / -
update {"type":"UPDATE","update":{"status":{"task_id":{"value":"T1"},"state":"TASK_RUNNING","agent_id":{"value":"A1"},"uuid":"AAECAwQFBgcICQoLDA0ODw=="}}} => M1 => / / / -
resend 0 => M1 => / / / -
"#;

/// A status without a UUID, with an empty UUID, or without an agent requires no acknowledgement:
/// the status may be sent again, and `resend` never sends it.
const OWING: &str =
    r#"- {"type":"SUBSCRIBE","subscribe":{"framework_info":{"user":"root","name":"n"}}} => 200 {"type":"SUBSCRIBED","subscribed":{"framework_id":{"value":"F1"},"heartbeat_interval_seconds":15.0}} => / / / 1
update {"type":"UPDATE","update":{"status":{"task_id":{"value":"T1"},"state":"TASK_RUNNING","agent_id":{"value":"A1"}}}} => {"type":"UPDATE","update":{"status":{"task_id":{"value":"T1"},"state":"TASK_RUNNING","agent_id":{"value":"A1"}}}} => / / / 1
update {"type":"UPDATE","update":{"status":{"task_id":{"value":"T1"},"state":"TASK_RUNNING","agent_id":{"value":"A1"}}}} => {"type":"UPDATE","update":{"status":{"task_id":{"value":"T1"},"state":"TASK_RUNNING","agent_id":{"value":"A1"}}}} => / / / 1
update {"type":"UPDATE","update":{"status":{"task_id":{"value":"T1"},"state":"TASK_RUNNING","agent_id":{"value":"A1"},"uuid":""}}} => {"type":"UPDATE","update":{"status":{"task_id":{"value":"T1"},"state":"TASK_RUNNING","agent_id":{"value":"A1"},"uuid":""}}} => / / / 1
update {"type":"UPDATE","update":{"status":{"task_id":{"value":"T1"},"state":"TASK_RUNNING","agent_id":{"value":"A1"},"uuid":""}}} => {"type":"UPDATE","update":{"status":{"task_id":{"value":"T1"},"state":"TASK_RUNNING","agent_id":{"value":"A1"},"uuid":""}}} => / / / 1
update {"type":"UPDATE","update":{"status":{"task_id":{"value":"T1"},"state":"TASK_RUNNING","uuid":"AAECAwQFBgcICQoLDA0ODw=="}}} => {"type":"UPDATE","update":{"status":{"task_id":{"value":"T1"},"state":"TASK_RUNNING","uuid":"AAECAwQFBgcICQoLDA0ODw=="}}} => / / / 1
update {"type":"UPDATE","update":{"status":{"task_id":{"value":"T1"},"state":"TASK_RUNNING","uuid":"AAECAwQFBgcICQoLDA0ODw=="}}} => {"type":"UPDATE","update":{"status":{"task_id":{"value":"T1"},"state":"TASK_RUNNING","uuid":"AAECAwQFBgcICQoLDA0ODw=="}}} => / / / 1
resend 0 => M5 => / / / 1
update {"type":"UPDATE","update":{"status":{"task_id":{"value":"T1"},"state":"TASK_RUNNING","agent_id":{"value":"A1"},"uuid":"AAECAwQFBgcICQoLDA0ODw=="}}} => {"type":"UPDATE","update":{"status":{"task_id":{"value":"T1"},"state":"TASK_RUNNING","agent_id":{"value":"A1"},"uuid":"AAECAwQFBgcICQoLDA0ODw=="}}} => / / / 1
update {"type":"UPDATE","update":{"status":{"task_id":{"value":"T1"},"state":"TASK_FINISHED","agent_id":{"value":"A1"},"uuid":"AAECAwQFBgcICQoLDA0ODw=="}}} => M4 => / / / 1
update {"type":"UPDATE","update":{"status":{"task_id":{"value":"T1"},"state":"TASK_RUNNING","agent_id":{"value":"A2"},"uuid":"AAECAwQFBgcICQoLDA0ODw=="}}} => {"type":"UPDATE","update":{"status":{"task_id":{"value":"T1"},"state":"TASK_RUNNING","agent_id":{"value":"A2"},"uuid":"AAECAwQFBgcICQoLDA0ODw=="}}} => / / / 1
update {"type":"UPDATE","update":{"status":{"task_id":{"value":"T2"},"state":"TASK_RUNNING","agent_id":{"value":"A1"},"uuid":"AAECAwQFBgcICQoLDA0ODw=="}}} => {"type":"UPDATE","update":{"status":{"task_id":{"value":"T2"},"state":"TASK_RUNNING","agent_id":{"value":"A1"},"uuid":"AAECAwQFBgcICQoLDA0ODw=="}}} => / / / 1
resend 0 => {"type":"UPDATE","update":{"status":{"task_id":{"value":"T1"},"state":"TASK_RUNNING","agent_id":{"value":"A1"},"uuid":"AAECAwQFBgcICQoLDA0ODw=="}}} => / / / 1
resend 1 => {"type":"UPDATE","update":{"status":{"task_id":{"value":"T1"},"state":"TASK_RUNNING","agent_id":{"value":"A2"},"uuid":"AAECAwQFBgcICQoLDA0ODw=="}}} => / / / 1
resend 2 => {"type":"UPDATE","update":{"status":{"task_id":{"value":"T2"},"state":"TASK_RUNNING","agent_id":{"value":"A1"},"uuid":"AAECAwQFBgcICQoLDA0ODw=="}}} => / / / 1
resend 3 => M5 => / / / 1
1 {"type":"RECONCILE","framework_id":{"value":"F1"},"reconcile":{}} => 202 {"type":"UPDATE","update":{"status":{"task_id":{"value":"T1"},"state":"TASK_RUNNING","reason":"REASON_RECONCILIATION","agent_id":{"value":"A2"}}}} {"type":"UPDATE","update":{"status":{"task_id":{"value":"T2"},"state":"TASK_RUNNING","reason":"REASON_RECONCILIATION","agent_id":{"value":"A1"}}}} => / / / 1
"#;

#[test]
fn a_master_sends_what_it_may_and_refuses_the_rest(rt: HostRuntime) -> Result<(), Fail> {
    for rows in [REFUSED, OWING] {
        expect_run(&rt, rows)?;
    }
    Ok(())
}
