//! Refused calls, applied with `said` or made by the session. Each reason occurs in a call that
//! passes all earlier checks, and does not change the state.

use crate::support::expect_script;
use std::test::Fail;

/// The first reason that applies is returned, whatever other reasons apply.
const REASONS: &str =
    r#"E {"type":"SUBSCRIBED","subscribed":{"framework_id":{"value":"F1"}}} => ok | F1 on ;
E {"type":"OFFERS","offers":{"offers":[{"id":{"value":"O1"},"framework_id":{"value":"F1"},"agent_id":{"value":"A1"},"hostname":"h","resources":[{"name":"cpus","type":"SCALAR","scalar":{"value":1}}]},{"id":{"value":"O2"},"framework_id":{"value":"F1"},"agent_id":{"value":"A2"},"hostname":"g"},{"id":{"value":"O3"},"framework_id":{"value":"F1"},"agent_id":{"value":"A1"},"hostname":"k"}]}} => ok | F1 on O1=h O2=g O3=k ;
E {"type":"UPDATE","update":{"status":{"task_id":{"value":"T1"},"state":"TASK_RUNNING","agent_id":{"value":"A1"},"uuid":"AAECAwQFBgcICQoLDA0ODw=="}}} => ok | F1 on O1=h O2=g O3=k ; A1/T1/000102030405060708090a0b0c0d0e0f
C {"type":"REVIVE","framework_id":{"value":"F2"}} => S1 | F1 on O1=h O2=g O3=k ; A1/T1/000102030405060708090a0b0c0d0e0f
C {"type":"ACCEPT","framework_id":{"value":"F1"},"accept":{"offer_ids":[{"value":"O1"},{"value":"O1"}]}} => S2 | F1 on O1=h O2=g O3=k ; A1/T1/000102030405060708090a0b0c0d0e0f
M {"type":"ACCEPT","framework_id":{"value":"F1"},"accept":{"offer_ids":[{"value":"O1"},{"value":"O1"}]}} => S2 | F1 on O1=h O2=g O3=k ; A1/T1/000102030405060708090a0b0c0d0e0f
C {"type":"ACCEPT","framework_id":{"value":"F1"},"accept":{"offer_ids":[{"value":"O9"},{"value":"O9"}],"operations":[{"type":"LAUNCH","launch":{"task_infos":[{"name":"t","task_id":{"value":"T1"},"agent_id":{"value":"A2"}}]}}]}} => S2 | F1 on O1=h O2=g O3=k ; A1/T1/000102030405060708090a0b0c0d0e0f
M {"type":"ACCEPT","framework_id":{"value":"F1"},"accept":{"offer_ids":[{"value":"O9"},{"value":"O9"}],"operations":[{"type":"LAUNCH","launch":{"task_infos":[{"name":"t","task_id":{"value":"T1"},"agent_id":{"value":"A2"}}]}}]}} => S2 | F1 on O1=h O2=g O3=k ; A1/T1/000102030405060708090a0b0c0d0e0f
C {"type":"ACCEPT","framework_id":{"value":"F1"},"accept":{"offer_ids":[{"value":"O1"}],"operations":[{"type":"LAUNCH","launch":{"task_infos":[{"name":"t","task_id":{"value":"T1"},"agent_id":{"value":"A1"}},{"name":"t","task_id":{"value":"T1"},"agent_id":{"value":"A1"}}]}}]}} => S2 | F1 on O1=h O2=g O3=k ; A1/T1/000102030405060708090a0b0c0d0e0f
M {"type":"ACCEPT","framework_id":{"value":"F1"},"accept":{"offer_ids":[{"value":"O1"}],"operations":[{"type":"LAUNCH","launch":{"task_infos":[{"name":"t","task_id":{"value":"T1"},"agent_id":{"value":"A1"}},{"name":"t","task_id":{"value":"T1"},"agent_id":{"value":"A1"}}]}}]}} => S2 | F1 on O1=h O2=g O3=k ; A1/T1/000102030405060708090a0b0c0d0e0f
C {"type":"DECLINE","framework_id":{"value":"F1"},"decline":{"offer_ids":[{"value":"O1"},{"value":"O9"},{"value":"O1"}]}} => S2 | F1 on O1=h O2=g O3=k ; A1/T1/000102030405060708090a0b0c0d0e0f
M {"type":"DECLINE","framework_id":{"value":"F1"},"decline":{"offer_ids":[{"value":"O1"},{"value":"O9"},{"value":"O1"}]}} => S2 | F1 on O1=h O2=g O3=k ; A1/T1/000102030405060708090a0b0c0d0e0f
C {"type":"ACCEPT","framework_id":{"value":"F1"},"accept":{"offer_ids":[{"value":"O1"},{"value":"O9"}]}} => S3 1 | F1 on O1=h O2=g O3=k ; A1/T1/000102030405060708090a0b0c0d0e0f
M {"type":"ACCEPT","framework_id":{"value":"F1"},"accept":{"offer_ids":[{"value":"O1"},{"value":"O9"}]}} => S3 1 | F1 on O1=h O2=g O3=k ; A1/T1/000102030405060708090a0b0c0d0e0f
C {"type":"ACCEPT","framework_id":{"value":"F1"},"accept":{"offer_ids":[{"value":"O8"},{"value":"O9"},{"value":"O1"},{"value":"O2"}],"operations":[{"type":"LAUNCH","launch":{"task_infos":[{"name":"t","task_id":{"value":"T1"},"agent_id":{"value":"A3"}}]}}]}} => S3 0 | F1 on O1=h O2=g O3=k ; A1/T1/000102030405060708090a0b0c0d0e0f
M {"type":"ACCEPT","framework_id":{"value":"F1"},"accept":{"offer_ids":[{"value":"O8"},{"value":"O9"},{"value":"O1"},{"value":"O2"}],"operations":[{"type":"LAUNCH","launch":{"task_infos":[{"name":"t","task_id":{"value":"T1"},"agent_id":{"value":"A3"}}]}}]}} => S3 0 | F1 on O1=h O2=g O3=k ; A1/T1/000102030405060708090a0b0c0d0e0f
C {"type":"DECLINE","framework_id":{"value":"F1"},"decline":{"offer_ids":[{"value":"O1"},{"value":"O2"},{"value":"O9"}]}} => S3 2 | F1 on O1=h O2=g O3=k ; A1/T1/000102030405060708090a0b0c0d0e0f
M {"type":"DECLINE","framework_id":{"value":"F1"},"decline":{"offer_ids":[{"value":"O1"},{"value":"O2"},{"value":"O9"}]}} => S3 2 | F1 on O1=h O2=g O3=k ; A1/T1/000102030405060708090a0b0c0d0e0f
C {"type":"ACCEPT","framework_id":{"value":"F1"},"accept":{"offer_ids":[{"value":"O1"},{"value":"O2"}]}} => S4 | F1 on O1=h O2=g O3=k ; A1/T1/000102030405060708090a0b0c0d0e0f
M {"type":"ACCEPT","framework_id":{"value":"F1"},"accept":{"offer_ids":[{"value":"O1"},{"value":"O2"}]}} => S4 | F1 on O1=h O2=g O3=k ; A1/T1/000102030405060708090a0b0c0d0e0f
C {"type":"ACCEPT","framework_id":{"value":"F1"},"accept":{"offer_ids":[{"value":"O1"},{"value":"O3"},{"value":"O2"}],"operations":[{"type":"LAUNCH","launch":{"task_infos":[{"name":"t","task_id":{"value":"T1"},"agent_id":{"value":"A3"}}]}}]}} => S4 | F1 on O1=h O2=g O3=k ; A1/T1/000102030405060708090a0b0c0d0e0f
M {"type":"ACCEPT","framework_id":{"value":"F1"},"accept":{"offer_ids":[{"value":"O1"},{"value":"O3"},{"value":"O2"}],"operations":[{"type":"LAUNCH","launch":{"task_infos":[{"name":"t","task_id":{"value":"T1"},"agent_id":{"value":"A3"}}]}}]}} => S4 | F1 on O1=h O2=g O3=k ; A1/T1/000102030405060708090a0b0c0d0e0f
C {"type":"ACCEPT","framework_id":{"value":"F1"},"accept":{"offer_ids":[{"value":"O1"}],"operations":[{"type":"LAUNCH","launch":{"task_infos":[{"name":"t","task_id":{"value":"T1"},"agent_id":{"value":"A2"}}]}}]}} => S5 0 | F1 on O1=h O2=g O3=k ; A1/T1/000102030405060708090a0b0c0d0e0f
M {"type":"ACCEPT","framework_id":{"value":"F1"},"accept":{"offer_ids":[{"value":"O1"}],"operations":[{"type":"LAUNCH","launch":{"task_infos":[{"name":"t","task_id":{"value":"T1"},"agent_id":{"value":"A2"}}]}}]}} => S5 0 | F1 on O1=h O2=g O3=k ; A1/T1/000102030405060708090a0b0c0d0e0f
C {"type":"ACCEPT","framework_id":{"value":"F1"},"accept":{"operations":[{"type":"LAUNCH","launch":{"task_infos":[{"name":"t","task_id":{"value":"T1"},"agent_id":{"value":"A1"}}]}}]}} => S5 0 | F1 on O1=h O2=g O3=k ; A1/T1/000102030405060708090a0b0c0d0e0f
M {"type":"ACCEPT","framework_id":{"value":"F1"},"accept":{"operations":[{"type":"LAUNCH","launch":{"task_infos":[{"name":"t","task_id":{"value":"T1"},"agent_id":{"value":"A1"}}]}}]}} => S5 0 | F1 on O1=h O2=g O3=k ; A1/T1/000102030405060708090a0b0c0d0e0f
C {"type":"ACCEPT","framework_id":{"value":"F1"},"accept":{"offer_ids":[{"value":"O1"},{"value":"O3"}],"operations":[{"type":"LAUNCH","launch":{"task_infos":[{"name":"t","task_id":{"value":"T1"},"agent_id":{"value":"A1"},"resources":[{"name":"cpus","type":"SCALAR","scalar":{"value":9}}]},{"name":"t","task_id":{"value":"T2"},"agent_id":{"value":"A2"}}]}}]}} => S5 1 | F1 on O1=h O2=g O3=k ; A1/T1/000102030405060708090a0b0c0d0e0f
M {"type":"ACCEPT","framework_id":{"value":"F1"},"accept":{"offer_ids":[{"value":"O1"},{"value":"O3"}],"operations":[{"type":"LAUNCH","launch":{"task_infos":[{"name":"t","task_id":{"value":"T1"},"agent_id":{"value":"A1"},"resources":[{"name":"cpus","type":"SCALAR","scalar":{"value":9}}]},{"name":"t","task_id":{"value":"T2"},"agent_id":{"value":"A2"}}]}}]}} => S5 1 | F1 on O1=h O2=g O3=k ; A1/T1/000102030405060708090a0b0c0d0e0f
C {"type":"ACCEPT","framework_id":{"value":"F1"},"accept":{"offer_ids":[{"value":"O1"},{"value":"O3"}],"operations":[{"type":"LAUNCH","launch":{"task_infos":[{"name":"t","task_id":{"value":"T1"},"agent_id":{"value":"A1"},"resources":[{"name":"cpus","type":"SCALAR","scalar":{"value":0.5}}]},{"name":"t","task_id":{"value":"T2"},"agent_id":{"value":"A1"},"resources":[{"name":"cpus","type":"SCALAR","scalar":{"value":0.5}},{"name":"ports","type":"RANGES","ranges":{"range":[{"begin":1,"end":2}]}}]}]}}]}} => S6 1 1 | F1 on O1=h O2=g O3=k ; A1/T1/000102030405060708090a0b0c0d0e0f
M {"type":"ACCEPT","framework_id":{"value":"F1"},"accept":{"offer_ids":[{"value":"O1"},{"value":"O3"}],"operations":[{"type":"LAUNCH","launch":{"task_infos":[{"name":"t","task_id":{"value":"T1"},"agent_id":{"value":"A1"},"resources":[{"name":"cpus","type":"SCALAR","scalar":{"value":0.5}}]},{"name":"t","task_id":{"value":"T2"},"agent_id":{"value":"A1"},"resources":[{"name":"cpus","type":"SCALAR","scalar":{"value":0.5}},{"name":"ports","type":"RANGES","ranges":{"range":[{"begin":1,"end":2}]}}]}]}}]}} => S6 1 1 | F1 on O1=h O2=g O3=k ; A1/T1/000102030405060708090a0b0c0d0e0f
C {"type":"ACKNOWLEDGE","framework_id":{"value":"F1"},"acknowledge":{"agent_id":{"value":"A1"},"task_id":{"value":"T2"},"uuid":"AAECAwQFBgcICQoLDA0ODw=="}} => S7 | F1 on O1=h O2=g O3=k ; A1/T1/000102030405060708090a0b0c0d0e0f
M {"type":"ACKNOWLEDGE","framework_id":{"value":"F1"},"acknowledge":{"agent_id":{"value":"A1"},"task_id":{"value":"T2"},"uuid":"AAECAwQFBgcICQoLDA0ODw=="}} => S7 | F1 on O1=h O2=g O3=k ; A1/T1/000102030405060708090a0b0c0d0e0f
C {"type":"ACKNOWLEDGE","framework_id":{"value":"F1"},"acknowledge":{"agent_id":{"value":"A2"},"task_id":{"value":"T1"},"uuid":"AAECAwQFBgcICQoLDA0ODw=="}} => S7 | F1 on O1=h O2=g O3=k ; A1/T1/000102030405060708090a0b0c0d0e0f
M {"type":"ACKNOWLEDGE","framework_id":{"value":"F1"},"acknowledge":{"agent_id":{"value":"A2"},"task_id":{"value":"T1"},"uuid":"AAECAwQFBgcICQoLDA0ODw=="}} => S7 | F1 on O1=h O2=g O3=k ; A1/T1/000102030405060708090a0b0c0d0e0f
C {"type":"ACKNOWLEDGE","framework_id":{"value":"F1"},"acknowledge":{"agent_id":{"value":"A1"},"task_id":{"value":"T1"},"uuid":"AAE="}} => S7 | F1 on O1=h O2=g O3=k ; A1/T1/000102030405060708090a0b0c0d0e0f
M {"type":"ACKNOWLEDGE","framework_id":{"value":"F1"},"acknowledge":{"agent_id":{"value":"A1"},"task_id":{"value":"T1"},"uuid":"AAE="}} => S7 | F1 on O1=h O2=g O3=k ; A1/T1/000102030405060708090a0b0c0d0e0f
"#;

/// A disconnect removes the offers; the framework and the unacknowledged updates stay. Calls except
/// SUBSCRIBE are refused until the next SUBSCRIBED.
const BROKEN: &str =
    r#"E {"type":"SUBSCRIBED","subscribed":{"framework_id":{"value":"F1"}}} => ok | F1 on ;
E {"type":"OFFERS","offers":{"offers":[{"id":{"value":"O1"},"framework_id":{"value":"F1"},"agent_id":{"value":"A1"},"hostname":"h"}]}} => ok | F1 on O1=h ;
E {"type":"UPDATE","update":{"status":{"task_id":{"value":"T1"},"state":"TASK_RUNNING","agent_id":{"value":"A1"},"uuid":"AAECAwQFBgcICQoLDA0ODw=="}}} => ok | F1 on O1=h ; A1/T1/000102030405060708090a0b0c0d0e0f
B => ok | F1 off ; A1/T1/000102030405060708090a0b0c0d0e0f
C {"type":"REVIVE","framework_id":{"value":"F1"}} => S1 | F1 off ; A1/T1/000102030405060708090a0b0c0d0e0f
M {"type":"REVIVE","framework_id":{"value":"F1"}} => S1 | F1 off ; A1/T1/000102030405060708090a0b0c0d0e0f
C {"type":"DECLINE","framework_id":{"value":"F1"},"decline":{"offer_ids":[{"value":"O1"}]}} => S1 | F1 off ; A1/T1/000102030405060708090a0b0c0d0e0f
M {"type":"DECLINE","framework_id":{"value":"F1"},"decline":{"offer_ids":[{"value":"O1"}]}} => S1 | F1 off ; A1/T1/000102030405060708090a0b0c0d0e0f
C {"type":"ACCEPT","framework_id":{"value":"F1"},"accept":{"offer_ids":[{"value":"O1"}]}} => S1 | F1 off ; A1/T1/000102030405060708090a0b0c0d0e0f
M {"type":"ACCEPT","framework_id":{"value":"F1"},"accept":{"offer_ids":[{"value":"O1"}]}} => S1 | F1 off ; A1/T1/000102030405060708090a0b0c0d0e0f
C {"type":"KILL","framework_id":{"value":"F1"},"kill":{"task_id":{"value":"T1"}}} => S1 | F1 off ; A1/T1/000102030405060708090a0b0c0d0e0f
M {"type":"KILL","framework_id":{"value":"F1"},"kill":{"task_id":{"value":"T1"}}} => S1 | F1 off ; A1/T1/000102030405060708090a0b0c0d0e0f
C {"type":"ACKNOWLEDGE","framework_id":{"value":"F1"},"acknowledge":{"agent_id":{"value":"A1"},"task_id":{"value":"T1"},"uuid":"AAECAwQFBgcICQoLDA0ODw=="}} => S1 | F1 off ; A1/T1/000102030405060708090a0b0c0d0e0f
M {"type":"ACKNOWLEDGE","framework_id":{"value":"F1"},"acknowledge":{"agent_id":{"value":"A1"},"task_id":{"value":"T1"},"uuid":"AAECAwQFBgcICQoLDA0ODw=="}} => S1 | F1 off ; A1/T1/000102030405060708090a0b0c0d0e0f
C {"type":"RECONCILE","framework_id":{"value":"F1"},"reconcile":{}} => S1 | F1 off ; A1/T1/000102030405060708090a0b0c0d0e0f
M {"type":"RECONCILE","framework_id":{"value":"F1"},"reconcile":{}} => S1 | F1 off ; A1/T1/000102030405060708090a0b0c0d0e0f
C {"type":"TEARDOWN","framework_id":{"value":"F1"}} => S1 | F1 off ; A1/T1/000102030405060708090a0b0c0d0e0f
M {"type":"TEARDOWN","framework_id":{"value":"F1"}} => S1 | F1 off ; A1/T1/000102030405060708090a0b0c0d0e0f
C {"type":"SUPPRESS","framework_id":{"value":"F1"}} => S1 | F1 off ; A1/T1/000102030405060708090a0b0c0d0e0f
M {"type":"SUPPRESS","framework_id":{"value":"F1"}} => S1 | F1 off ; A1/T1/000102030405060708090a0b0c0d0e0f
C {"type":"SHUTDOWN","framework_id":{"value":"F1"},"shutdown":{"executor_id":{"value":"E1"},"agent_id":{"value":"A1"}}} => S1 | F1 off ; A1/T1/000102030405060708090a0b0c0d0e0f
M {"type":"SHUTDOWN","framework_id":{"value":"F1"},"shutdown":{"executor_id":{"value":"E1"},"agent_id":{"value":"A1"}}} => S1 | F1 off ; A1/T1/000102030405060708090a0b0c0d0e0f
C {"type":"MESSAGE","framework_id":{"value":"F1"},"message":{"agent_id":{"value":"A1"},"executor_id":{"value":"E1"},"data":"AAE="}} => S1 | F1 off ; A1/T1/000102030405060708090a0b0c0d0e0f
M {"type":"MESSAGE","framework_id":{"value":"F1"},"message":{"agent_id":{"value":"A1"},"executor_id":{"value":"E1"},"data":"AAE="}} => S1 | F1 off ; A1/T1/000102030405060708090a0b0c0d0e0f
C {"type":"SUBSCRIBE","framework_id":{"value":"F9"},"subscribe":{"framework_info":{"user":"root","name":"n","id":{"value":"F9"}}}} => S1 | F1 off ; A1/T1/000102030405060708090a0b0c0d0e0f
M {"type":"SUBSCRIBE","subscribe":{"framework_info":{"user":"root","name":"n"}}} => {"type":"SUBSCRIBE","framework_id":{"value":"F1"},"subscribe":{"framework_info":{"user":"root","name":"n","id":{"value":"F1"}}}} | F1 off ; A1/T1/000102030405060708090a0b0c0d0e0f
C {"type":"SUBSCRIBE","framework_id":{"value":"F1"},"subscribe":{"framework_info":{"user":"root","name":"n","id":{"value":"F1"}}}} => ok | F1 off ; A1/T1/000102030405060708090a0b0c0d0e0f
E {"type":"SUBSCRIBED","subscribed":{"framework_id":{"value":"F1"}}} => ok | F1 on ; A1/T1/000102030405060708090a0b0c0d0e0f
M {"type":"ACKNOWLEDGE","framework_id":{"value":"F1"},"acknowledge":{"agent_id":{"value":"A1"},"task_id":{"value":"T1"},"uuid":"AAECAwQFBgcICQoLDA0ODw=="}} => same | F1 on ;
"#;

#[test]
fn the_first_reason_refuses_a_call(rt: HostRuntime) -> Result<(), Fail> {
    for script in [REASONS, BROKEN] {
        expect_script(&rt, script)?;
    }
    Ok(())
}
