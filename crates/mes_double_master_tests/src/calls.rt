//! Tests of a master with sequences of calls.

use crate::support::expect_run;
use std::test::Fail;

/// An offer is accepted, and the ACCEPT is repeated; a second SUBSCRIBE makes the first stream id
/// stale.
const EXAMPLE: &str =
    r#"- {"type":"SUBSCRIBE","subscribe":{"framework_info":{"user":"root","name":"n"}}} => 200 {"type":"SUBSCRIBED","subscribed":{"framework_id":{"value":"F1"},"heartbeat_interval_seconds":15.0}} => / / / 1
offer {"type":"OFFERS","offers":{"offers":[{"id":{"value":"O1"},"framework_id":{"value":"F1"},"agent_id":{"value":"A1"},"hostname":"h"}]}} => {"type":"OFFERS","offers":{"offers":[{"id":{"value":"O1"},"framework_id":{"value":"F1"},"agent_id":{"value":"A1"},"hostname":"h"}]}} => O1 / / / 1
1 {"type":"ACCEPT","framework_id":{"value":"F1"},"accept":{"offer_ids":[{"value":"O1"}],"operations":[{"type":"LAUNCH","launch":{"task_infos":[{"name":"n","task_id":{"value":"T1"},"agent_id":{"value":"A1"}}]}}]}} => 202 => / T1 / / 1
1 {"type":"ACCEPT","framework_id":{"value":"F1"},"accept":{"offer_ids":[{"value":"O1"}],"operations":[{"type":"LAUNCH","launch":{"task_infos":[{"name":"n","task_id":{"value":"T1"},"agent_id":{"value":"A1"}}]}}]}} => 202 => / T1 / / 1
- {"type":"SUBSCRIBE","subscribe":{"framework_info":{"user":"root","name":"n"}}} => 200 {"type":"SUBSCRIBED","subscribed":{"framework_id":{"value":"F1"},"heartbeat_interval_seconds":15.0}} => / T1 / / 2
1 {"type":"ACCEPT","framework_id":{"value":"F1"},"accept":{"offer_ids":[{"value":"O1"}],"operations":[{"type":"LAUNCH","launch":{"task_infos":[{"name":"n","task_id":{"value":"T1"},"agent_id":{"value":"A1"}}]}}]}} => 400 => / T1 / / 2
rescind O1 => M3 => / T1 / / 2
resend 0 => M5 => / T1 / / 2
update {"type":"UPDATE","update":{"status":{"task_id":{"value":"T1"},"state":"TASK_RUNNING","agent_id":{"value":"A1"},"uuid":"AAECAwQFBgcICQoLDA0ODw=="}}} => {"type":"UPDATE","update":{"status":{"task_id":{"value":"T1"},"state":"TASK_RUNNING","agent_id":{"value":"A1"},"uuid":"AAECAwQFBgcICQoLDA0ODw=="}}} => / T1 / / 2
update {"type":"UPDATE","update":{"status":{"task_id":{"value":"T1"},"state":"TASK_RUNNING","agent_id":{"value":"A1"},"uuid":"AAECAwQFBgcICQoLDA0ODw=="}}} => M4 => / T1 / / 2
resend 0 => {"type":"UPDATE","update":{"status":{"task_id":{"value":"T1"},"state":"TASK_RUNNING","agent_id":{"value":"A1"},"uuid":"AAECAwQFBgcICQoLDA0ODw=="}}} => / T1 / / 2
"#;

/// An ACCEPT launches its tasks, each identifier once, if it names at least one offer and all named
/// offers are outstanding. The named offers are removed in any case.
const LAUNCHES: &str =
    r#"- {"type":"SUBSCRIBE","subscribe":{"framework_info":{"user":"root","name":"n"}}} => 200 {"type":"SUBSCRIBED","subscribed":{"framework_id":{"value":"F1"},"heartbeat_interval_seconds":15.0}} => / / / 1
offer {"type":"OFFERS","offers":{"offers":[{"id":{"value":"O1"},"framework_id":{"value":"F1"},"agent_id":{"value":"A1"},"hostname":"h"},{"id":{"value":"O2"},"framework_id":{"value":"F1"},"agent_id":{"value":"A1"},"hostname":"h"},{"id":{"value":"O3"},"framework_id":{"value":"F1"},"agent_id":{"value":"A1"},"hostname":"h"},{"id":{"value":"O4"},"framework_id":{"value":"F1"},"agent_id":{"value":"A1"},"hostname":"h"}]}} => {"type":"OFFERS","offers":{"offers":[{"id":{"value":"O1"},"framework_id":{"value":"F1"},"agent_id":{"value":"A1"},"hostname":"h"},{"id":{"value":"O2"},"framework_id":{"value":"F1"},"agent_id":{"value":"A1"},"hostname":"h"},{"id":{"value":"O3"},"framework_id":{"value":"F1"},"agent_id":{"value":"A1"},"hostname":"h"},{"id":{"value":"O4"},"framework_id":{"value":"F1"},"agent_id":{"value":"A1"},"hostname":"h"}]}} => O1 O2 O3 O4 / / / 1
1 {"type":"ACCEPT","framework_id":{"value":"F1"},"accept":{"operations":[{"type":"LAUNCH","launch":{"task_infos":[{"name":"n","task_id":{"value":"T1"},"agent_id":{"value":"A1"}}]}}]}} => 202 => O1 O2 O3 O4 / / / 1
1 {"type":"ACCEPT","framework_id":{"value":"F1"},"accept":{"offer_ids":[{"value":"O9"}],"operations":[{"type":"LAUNCH","launch":{"task_infos":[{"name":"n","task_id":{"value":"T1"},"agent_id":{"value":"A1"}}]}}]}} => 202 => O1 O2 O3 O4 / / / 1
1 {"type":"ACCEPT","framework_id":{"value":"F1"},"accept":{"offer_ids":[{"value":"O9"},{"value":"O2"}],"operations":[{"type":"LAUNCH","launch":{"task_infos":[{"name":"n","task_id":{"value":"T1"},"agent_id":{"value":"A1"}}]}}]}} => 202 => O1 O3 O4 / / / 1
1 {"type":"ACCEPT","framework_id":{"value":"F1"},"accept":{"offer_ids":[{"value":"O1"},{"value":"O3"}],"operations":[{"type":"LAUNCH","launch":{"task_infos":[{"name":"n","task_id":{"value":"T2"},"agent_id":{"value":"A1"}},{"name":"n","task_id":{"value":"T1"},"agent_id":{"value":"A1"}}]}},{"type":"LAUNCH","launch":{"task_infos":[{"name":"n","task_id":{"value":"T3"},"agent_id":{"value":"A1"}},{"name":"n","task_id":{"value":"T2"},"agent_id":{"value":"A1"}}]}}]}} => 202 => O4 / T2 T1 T3 / / 1
1 {"type":"ACCEPT","framework_id":{"value":"F1"},"accept":{"offer_ids":[{"value":"O4"}],"operations":[{"type":"LAUNCH","launch":{"task_infos":[{"name":"n","task_id":{"value":"T1"},"agent_id":{"value":"A1"}},{"name":"n","task_id":{"value":"T4"},"agent_id":{"value":"A1"}}]}}]}} => 202 => / T2 T1 T3 T4 / / 1
offer {"type":"OFFERS","offers":{"offers":[{"id":{"value":"O5"},"framework_id":{"value":"F1"},"agent_id":{"value":"A1"},"hostname":"h"},{"id":{"value":"O6"},"framework_id":{"value":"F1"},"agent_id":{"value":"A1"},"hostname":"h"},{"id":{"value":"O7"},"framework_id":{"value":"F1"},"agent_id":{"value":"A1"},"hostname":"h"}]}} => {"type":"OFFERS","offers":{"offers":[{"id":{"value":"O5"},"framework_id":{"value":"F1"},"agent_id":{"value":"A1"},"hostname":"h"},{"id":{"value":"O6"},"framework_id":{"value":"F1"},"agent_id":{"value":"A1"},"hostname":"h"},{"id":{"value":"O7"},"framework_id":{"value":"F1"},"agent_id":{"value":"A1"},"hostname":"h"}]}} => O5 O6 O7 / T2 T1 T3 T4 / / 1
1 {"type":"ACCEPT","framework_id":{"value":"F1"},"accept":{"offer_ids":[{"value":"O6"}]}} => 202 => O5 O7 / T2 T1 T3 T4 / / 1
1 {"type":"DECLINE","framework_id":{"value":"F1"},"decline":{"offer_ids":[{"value":"O7"},{"value":"O9"}]}} => 202 => O5 / T2 T1 T3 T4 / / 1
rescind O5 => {"type":"RESCIND","rescind":{"offer_id":{"value":"O5"}}} => / T2 T1 T3 T4 / / 1
1 {"type":"ACCEPT","framework_id":{"value":"F1"},"accept":{"offer_ids":[{"value":"O5"}],"operations":[{"type":"LAUNCH","launch":{"task_infos":[{"name":"n","task_id":{"value":"T5"},"agent_id":{"value":"A1"}}]}}]}} => 202 => / T2 T1 T3 T4 / / 1
offer {"type":"OFFERS","offers":{"offers":[{"id":{"value":"O8"},"framework_id":{"value":"F1"},"agent_id":{"value":"A1"},"hostname":"h"}]}} => {"type":"OFFERS","offers":{"offers":[{"id":{"value":"O8"},"framework_id":{"value":"F1"},"agent_id":{"value":"A1"},"hostname":"h"}]}} => O8 / T2 T1 T3 T4 / / 1
1 {"type":"ACCEPT","framework_id":{"value":"F1"},"accept":{"offer_ids":[{"value":"O8"},{"value":"O8"}],"operations":[{"type":"LAUNCH","launch":{"task_infos":[{"name":"n","task_id":{"value":"T5"},"agent_id":{"value":"A1"}}]}}]}} => 202 => / T2 T1 T3 T4 T5 / / 1
"#;

/// Offers end with their stream; the rest of the state stays. No stream opens if no id is left, or
/// after a TEARDOWN.
const STREAMS: &str =
    r#"9 {"type":"SUBSCRIBE","framework_id":{"value":"F1"},"subscribe":{"framework_info":{"user":"root","name":"n"}}} => 200 {"type":"SUBSCRIBED","subscribed":{"framework_id":{"value":"F1"},"heartbeat_interval_seconds":15.0}} => / / / 1
offer {"type":"OFFERS","offers":{"offers":[{"id":{"value":"O1"},"framework_id":{"value":"F1"},"agent_id":{"value":"A1"},"hostname":"h"}]}} => {"type":"OFFERS","offers":{"offers":[{"id":{"value":"O1"},"framework_id":{"value":"F1"},"agent_id":{"value":"A1"},"hostname":"h"}]}} => O1 / / / 1
1 {"type":"SUBSCRIBE","framework_id":{"value":"F2"},"subscribe":{"framework_info":{"user":"root","name":"n"}}} => 403 => O1 / / / 1
1 {"type":"SUBSCRIBE","subscribe":{"framework_info":{"user":"root","name":"n"}}} => 200 {"type":"SUBSCRIBED","subscribed":{"framework_id":{"value":"F1"},"heartbeat_interval_seconds":15.0}} => / / / 2
offer {"type":"OFFERS","offers":{"offers":[{"id":{"value":"O1"},"framework_id":{"value":"F1"},"agent_id":{"value":"A1"},"hostname":"h"}]}} => M2 => / / / 2
2 {"type":"SUBSCRIBE","subscribe":{"framework_info":{"user":"root","name":"n"}}} => 200 {"type":"SUBSCRIBED","subscribed":{"framework_id":{"value":"F1"},"heartbeat_interval_seconds":15.0}} => / / / 3
offer {"type":"OFFERS","offers":{"offers":[{"id":{"value":"O2"},"framework_id":{"value":"F1"},"agent_id":{"value":"A1"},"hostname":"h"}]}} => {"type":"OFFERS","offers":{"offers":[{"id":{"value":"O2"},"framework_id":{"value":"F1"},"agent_id":{"value":"A1"},"hostname":"h"}]}} => O2 / / / 3
3 {"type":"SUBSCRIBE","subscribe":{"framework_info":{"user":"root","name":"n"}}} => 403 => O2 / / / 3
3 {"type":"REVIVE","framework_id":{"value":"F1"}} => 202 => O2 / / / 3
3 {"type":"TEARDOWN","framework_id":{"value":"F2"}} => 403 => O2 / / / 3
2 {"type":"TEARDOWN","framework_id":{"value":"F2"}} => 403 => O2 / / / 3
2 {"type":"TEARDOWN","framework_id":{"value":"F1"}} => 400 => O2 / / / 3
3 {"type":"TEARDOWN","framework_id":{"value":"F1"}} => 202 => / / / -
3 {"type":"TEARDOWN","framework_id":{"value":"F1"}} => 403 => / / / -
- {"type":"SUBSCRIBE","subscribe":{"framework_info":{"user":"root","name":"n"}}} => 403 => / / / -
offer {"type":"OFFERS","offers":{"offers":[{"id":{"value":"O3"},"framework_id":{"value":"F1"},"agent_id":{"value":"A1"},"hostname":"h"}]}} => M1 => / / / -
"#;

/// A TEARDOWN ends the stream although ids are left.
const TORN: &str =
    r#"- {"type":"SUBSCRIBE","subscribe":{"framework_info":{"user":"root","name":"n"}}} => 200 {"type":"SUBSCRIBED","subscribed":{"framework_id":{"value":"F1"},"heartbeat_interval_seconds":15.0}} => / / / 1
1 {"type":"TEARDOWN","framework_id":{"value":"F1"}} => 202 => / / / -
- {"type":"SUBSCRIBE","subscribe":{"framework_info":{"user":"root","name":"n"}}} => 403 => / / / -
"#;

/// An ACKNOWLEDGE is recorded once, and only for an update that was sent.
const ACKNOWLEDGED: &str =
    r#"- {"type":"SUBSCRIBE","subscribe":{"framework_info":{"user":"root","name":"n"}}} => 200 {"type":"SUBSCRIBED","subscribed":{"framework_id":{"value":"F1"},"heartbeat_interval_seconds":15.0}} => / / / 1
1 {"type":"ACKNOWLEDGE","framework_id":{"value":"F1"},"acknowledge":{"agent_id":{"value":"A1"},"task_id":{"value":"T1"},"uuid":"AAECAwQFBgcICQoLDA0ODw=="}} => 202 => / / / 1
update {"type":"UPDATE","update":{"status":{"task_id":{"value":"T1"},"state":"TASK_STAGING","agent_id":{"value":"A1"},"uuid":"AAECAwQFBgcICQoLDA0ODw=="}}} => {"type":"UPDATE","update":{"status":{"task_id":{"value":"T1"},"state":"TASK_STAGING","agent_id":{"value":"A1"},"uuid":"AAECAwQFBgcICQoLDA0ODw=="}}} => / / / 1
update {"type":"UPDATE","update":{"status":{"task_id":{"value":"T2"},"state":"TASK_STAGING","agent_id":{"value":"A1"},"uuid":"AAECAwQFBgcICQoLDA0ODw=="}}} => {"type":"UPDATE","update":{"status":{"task_id":{"value":"T2"},"state":"TASK_STAGING","agent_id":{"value":"A1"},"uuid":"AAECAwQFBgcICQoLDA0ODw=="}}} => / / / 1
update {"type":"UPDATE","update":{"status":{"task_id":{"value":"T1"},"state":"TASK_RUNNING","agent_id":{"value":"A1"},"uuid":"AQECAwQFBgcICQoLDA0ODw=="}}} => {"type":"UPDATE","update":{"status":{"task_id":{"value":"T1"},"state":"TASK_RUNNING","agent_id":{"value":"A1"},"uuid":"AQECAwQFBgcICQoLDA0ODw=="}}} => / / / 1
1 {"type":"ACKNOWLEDGE","framework_id":{"value":"F1"},"acknowledge":{"agent_id":{"value":"A1"},"task_id":{"value":"T1"},"uuid":"AgECAwQFBgcICQoLDA0ODw=="}} => 202 => / / / 1
1 {"type":"ACKNOWLEDGE","framework_id":{"value":"F1"},"acknowledge":{"agent_id":{"value":"A2"},"task_id":{"value":"T1"},"uuid":"AAECAwQFBgcICQoLDA0ODw=="}} => 202 => / / / 1
1 {"type":"ACKNOWLEDGE","framework_id":{"value":"F1"},"acknowledge":{"agent_id":{"value":"A1"},"task_id":{"value":"T2"},"uuid":"AAECAwQFBgcICQoLDA0ODw=="}} => 202 => / / T2 / 1
1 {"type":"ACKNOWLEDGE","framework_id":{"value":"F1"},"acknowledge":{"agent_id":{"value":"A1"},"task_id":{"value":"T2"},"uuid":"AAECAwQFBgcICQoLDA0ODw=="}} => 202 => / / T2 / 1
resend 1 => {"type":"UPDATE","update":{"status":{"task_id":{"value":"T1"},"state":"TASK_RUNNING","agent_id":{"value":"A1"},"uuid":"AQECAwQFBgcICQoLDA0ODw=="}}} => / / T2 / 1
resend 2 => M5 => / / T2 / 1
update {"type":"UPDATE","update":{"status":{"task_id":{"value":"T2"},"state":"TASK_STAGING","agent_id":{"value":"A1"},"uuid":"AAECAwQFBgcICQoLDA0ODw=="}}} => M4 => / / T2 / 1
- {"type":"SUBSCRIBE","subscribe":{"framework_info":{"user":"root","name":"n"}}} => 200 {"type":"SUBSCRIBED","subscribed":{"framework_id":{"value":"F1"},"heartbeat_interval_seconds":15.0}} => / / T2 / 2
1 {"type":"ACKNOWLEDGE","framework_id":{"value":"F1"},"acknowledge":{"agent_id":{"value":"A1"},"task_id":{"value":"T1"},"uuid":"AAECAwQFBgcICQoLDA0ODw=="}} => 400 => / / T2 / 2
2 {"type":"ACKNOWLEDGE","framework_id":{"value":"F1"},"acknowledge":{"agent_id":{"value":"A1"},"task_id":{"value":"T1"},"uuid":"AAECAwQFBgcICQoLDA0ODw=="}} => 202 => / / T2 T1 / 2
resend 0 => {"type":"UPDATE","update":{"status":{"task_id":{"value":"T1"},"state":"TASK_RUNNING","agent_id":{"value":"A1"},"uuid":"AQECAwQFBgcICQoLDA0ODw=="}}} => / / T2 T1 / 2
2 {"type":"ACKNOWLEDGE","framework_id":{"value":"F1"},"acknowledge":{"agent_id":{"value":"A1"},"task_id":{"value":"T1"},"uuid":"AQECAwQFBgcICQoLDA0ODw=="}} => 202 => / / T2 T1 T1 / 2
resend 0 => M5 => / / T2 T1 T1 / 2
"#;

/// The response to a RECONCILE has the last statuses: in the order of the named tasks, or of their
/// first updates.
const RECONCILED: &str =
    r#"- {"type":"SUBSCRIBE","subscribe":{"framework_info":{"user":"root","name":"n"}}} => 200 {"type":"SUBSCRIBED","subscribed":{"framework_id":{"value":"F1"},"heartbeat_interval_seconds":15.0}} => / / / 1
1 {"type":"RECONCILE","framework_id":{"value":"F1"},"reconcile":{}} => 202 => / / / 1
1 {"type":"RECONCILE","framework_id":{"value":"F1"},"reconcile":{"tasks":[{"task_id":{"value":"T1"}}]}} => 202 => / / / 1
update {"type":"UPDATE","update":{"status":{"task_id":{"value":"T2"},"state":"TASK_STAGING","agent_id":{"value":"A1"},"uuid":"AAECAwQFBgcICQoLDA0ODw=="}}} => {"type":"UPDATE","update":{"status":{"task_id":{"value":"T2"},"state":"TASK_STAGING","agent_id":{"value":"A1"},"uuid":"AAECAwQFBgcICQoLDA0ODw=="}}} => / / / 1
update {"type":"UPDATE","update":{"status":{"task_id":{"value":"T1"},"state":"TASK_STAGING","message":"m","reason":"REASON_OLD"}}} => {"type":"UPDATE","update":{"status":{"task_id":{"value":"T1"},"state":"TASK_STAGING","message":"m","reason":"REASON_OLD"}}} => / / / 1
update {"type":"UPDATE","update":{"status":{"task_id":{"value":"T2"},"state":"TASK_RUNNING","agent_id":{"value":"A1"},"uuid":"AQECAwQFBgcICQoLDA0ODw=="}}} => {"type":"UPDATE","update":{"status":{"task_id":{"value":"T2"},"state":"TASK_RUNNING","agent_id":{"value":"A1"},"uuid":"AQECAwQFBgcICQoLDA0ODw=="}}} => / / / 1
1 {"type":"RECONCILE","framework_id":{"value":"F1"},"reconcile":{}} => 202 {"type":"UPDATE","update":{"status":{"task_id":{"value":"T2"},"state":"TASK_RUNNING","reason":"REASON_RECONCILIATION","agent_id":{"value":"A1"}}}} {"type":"UPDATE","update":{"status":{"task_id":{"value":"T1"},"state":"TASK_STAGING","message":"m","reason":"REASON_RECONCILIATION"}}} => / / / 1
1 {"type":"RECONCILE","framework_id":{"value":"F1"},"reconcile":{"tasks":[{"task_id":{"value":"T1"}},{"task_id":{"value":"T9"}},{"task_id":{"value":"T2"}},{"task_id":{"value":"T1"}}]}} => 202 {"type":"UPDATE","update":{"status":{"task_id":{"value":"T1"},"state":"TASK_STAGING","message":"m","reason":"REASON_RECONCILIATION"}}} {"type":"UPDATE","update":{"status":{"task_id":{"value":"T2"},"state":"TASK_RUNNING","reason":"REASON_RECONCILIATION","agent_id":{"value":"A1"}}}} {"type":"UPDATE","update":{"status":{"task_id":{"value":"T1"},"state":"TASK_STAGING","message":"m","reason":"REASON_RECONCILIATION"}}} => / / / 1
resend 0 => {"type":"UPDATE","update":{"status":{"task_id":{"value":"T2"},"state":"TASK_STAGING","agent_id":{"value":"A1"},"uuid":"AAECAwQFBgcICQoLDA0ODw=="}}} => / / / 1
1 {"type":"ACKNOWLEDGE","framework_id":{"value":"F1"},"acknowledge":{"agent_id":{"value":"A1"},"task_id":{"value":"T2"},"uuid":"AQECAwQFBgcICQoLDA0ODw=="}} => 202 => / / T2 / 1
1 {"type":"RECONCILE","framework_id":{"value":"F1"},"reconcile":{"tasks":[{"task_id":{"value":"T2"}}]}} => 202 {"type":"UPDATE","update":{"status":{"task_id":{"value":"T2"},"state":"TASK_RUNNING","reason":"REASON_RECONCILIATION","agent_id":{"value":"A1"}}}} => / / T2 / 1
- {"type":"SUBSCRIBE","subscribe":{"framework_info":{"user":"root","name":"n"}}} => 200 {"type":"SUBSCRIBED","subscribed":{"framework_id":{"value":"F1"},"heartbeat_interval_seconds":15.0}} => / / T2 / 2
2 {"type":"RECONCILE","framework_id":{"value":"F1"},"reconcile":{"tasks":[{"task_id":{"value":"T2"}}]}} => 202 {"type":"UPDATE","update":{"status":{"task_id":{"value":"T2"},"state":"TASK_RUNNING","reason":"REASON_RECONCILIATION","agent_id":{"value":"A1"}}}} => / / T2 / 2
"#;

#[test]
fn calls_change_the_master_one_after_the_other(rt: HostRuntime) -> Result<(), Fail> {
    for &rows in &[EXAMPLE, LAUNCHES, STREAMS, TORN, ACKNOWLEDGED, RECONCILED] {
        expect_run(&rt, rows)?;
    }
    Ok(())
}
