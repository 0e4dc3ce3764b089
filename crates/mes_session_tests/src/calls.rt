//! Calls that a session makes, as canonical texts, and the same calls applied with `said`.

use crate::support::expect_script;
use std::test::Fail;

/// Before a SUBSCRIBED only SUBSCRIBE is allowed.
const BEFORE: &str = r#"C {"type":"REVIVE","framework_id":{"value":"F1"}} => S1 | - off ;
M {"type":"REVIVE","framework_id":{"value":"F1"}} => S1 | - off ;
C {"type":"DECLINE","framework_id":{"value":"F1"},"decline":{"offer_ids":[{"value":"O1"}]}} => S1 | - off ;
M {"type":"DECLINE","framework_id":{"value":"F1"},"decline":{"offer_ids":[{"value":"O1"}]}} => S1 | - off ;
C {"type":"ACCEPT","framework_id":{"value":"F1"},"accept":{"offer_ids":[{"value":"O1"}]}} => S1 | - off ;
M {"type":"ACCEPT","framework_id":{"value":"F1"},"accept":{"offer_ids":[{"value":"O1"}]}} => S1 | - off ;
C {"type":"KILL","framework_id":{"value":"F1"},"kill":{"task_id":{"value":"T1"}}} => S1 | - off ;
M {"type":"KILL","framework_id":{"value":"F1"},"kill":{"task_id":{"value":"T1"}}} => S1 | - off ;
C {"type":"ACKNOWLEDGE","framework_id":{"value":"F1"},"acknowledge":{"agent_id":{"value":"A1"},"task_id":{"value":"T1"},"uuid":"AAECAwQFBgcICQoLDA0ODw=="}} => S1 | - off ;
M {"type":"ACKNOWLEDGE","framework_id":{"value":"F1"},"acknowledge":{"agent_id":{"value":"A1"},"task_id":{"value":"T1"},"uuid":"AAECAwQFBgcICQoLDA0ODw=="}} => S1 | - off ;
C {"type":"RECONCILE","framework_id":{"value":"F1"},"reconcile":{}} => S1 | - off ;
M {"type":"RECONCILE","framework_id":{"value":"F1"},"reconcile":{}} => S1 | - off ;
C {"type":"TEARDOWN","framework_id":{"value":"F1"}} => S1 | - off ;
M {"type":"TEARDOWN","framework_id":{"value":"F1"}} => S1 | - off ;
C {"type":"SUPPRESS","framework_id":{"value":"F1"}} => S1 | - off ;
M {"type":"SUPPRESS","framework_id":{"value":"F1"}} => S1 | - off ;
C {"type":"SHUTDOWN","framework_id":{"value":"F1"},"shutdown":{"executor_id":{"value":"E1"},"agent_id":{"value":"A1"}}} => S1 | - off ;
M {"type":"SHUTDOWN","framework_id":{"value":"F1"},"shutdown":{"executor_id":{"value":"E1"},"agent_id":{"value":"A1"}}} => S1 | - off ;
C {"type":"MESSAGE","framework_id":{"value":"F1"},"message":{"agent_id":{"value":"A1"},"executor_id":{"value":"E1"},"data":"AAE="}} => S1 | - off ;
M {"type":"MESSAGE","framework_id":{"value":"F1"},"message":{"agent_id":{"value":"A1"},"executor_id":{"value":"E1"},"data":"AAE="}} => S1 | - off ;
M {"type":"SUBSCRIBE","subscribe":{"framework_info":{"user":"root","name":"n"}}} => same | - off ;
C {"type":"SUBSCRIBE","subscribe":{"framework_info":{"user":"root","name":"n"}}} => ok | - off ;
M {"type":"SUBSCRIBE","framework_id":{"value":"F9"},"subscribe":{"framework_info":{"user":"root","name":"n","id":{"value":"F9"}}}} => same | - off ;
C {"type":"SUBSCRIBE","framework_id":{"value":"F9"},"subscribe":{"framework_info":{"user":"root","name":"n","id":{"value":"F9"}}}} => ok | - off ;
"#;

/// Calls of the known framework. A SUBSCRIBE that the session makes names the known framework; a
/// SUBSCRIBE that names another is refused.
const PLAIN: &str =
    r#"E {"type":"SUBSCRIBED","subscribed":{"framework_id":{"value":"F1"}}} => ok | F1 on ;
E {"type":"OFFERS","offers":{"offers":[{"id":{"value":"O1"},"framework_id":{"value":"F1"},"agent_id":{"value":"A1"},"hostname":"h"}]}} => ok | F1 on O1=h ;
M {"type":"REVIVE","framework_id":{"value":"F1"}} => same | F1 on O1=h ;
C {"type":"REVIVE","framework_id":{"value":"F1"}} => ok | F1 on O1=h ;
M {"type":"KILL","framework_id":{"value":"F1"},"kill":{"task_id":{"value":"T1"}}} => same | F1 on O1=h ;
C {"type":"KILL","framework_id":{"value":"F1"},"kill":{"task_id":{"value":"T1"}}} => ok | F1 on O1=h ;
M {"type":"RECONCILE","framework_id":{"value":"F1"},"reconcile":{}} => same | F1 on O1=h ;
C {"type":"RECONCILE","framework_id":{"value":"F1"},"reconcile":{}} => ok | F1 on O1=h ;
M {"type":"TEARDOWN","framework_id":{"value":"F1"}} => same | F1 on O1=h ;
C {"type":"TEARDOWN","framework_id":{"value":"F1"}} => ok | F1 on O1=h ;
M {"type":"SUPPRESS","framework_id":{"value":"F1"}} => same | F1 on O1=h ;
C {"type":"SUPPRESS","framework_id":{"value":"F1"}} => ok | F1 on O1=h ;
M {"type":"SHUTDOWN","framework_id":{"value":"F1"},"shutdown":{"executor_id":{"value":"E1"},"agent_id":{"value":"A1"}}} => same | F1 on O1=h ;
C {"type":"SHUTDOWN","framework_id":{"value":"F1"},"shutdown":{"executor_id":{"value":"E1"},"agent_id":{"value":"A1"}}} => ok | F1 on O1=h ;
M {"type":"MESSAGE","framework_id":{"value":"F1"},"message":{"agent_id":{"value":"A1"},"executor_id":{"value":"E1"},"data":"AAE="}} => same | F1 on O1=h ;
C {"type":"MESSAGE","framework_id":{"value":"F1"},"message":{"agent_id":{"value":"A1"},"executor_id":{"value":"E1"},"data":"AAE="}} => ok | F1 on O1=h ;
M {"type":"KILL","framework_id":{"value":"F1"},"kill":{"task_id":{"value":"T1"},"agent_id":{"value":"A1"}}} => same | F1 on O1=h ;
M {"type":"RECONCILE","framework_id":{"value":"F1"},"reconcile":{"tasks":[{"task_id":{"value":"T1"}},{"task_id":{"value":"T1"},"agent_id":{"value":"A1"}}]}} => same | F1 on O1=h ;
M {"type":"SUBSCRIBE","subscribe":{"framework_info":{"user":"root","name":"n"}}} => {"type":"SUBSCRIBE","framework_id":{"value":"F1"},"subscribe":{"framework_info":{"user":"root","name":"n","id":{"value":"F1"}}}} | F1 on O1=h ;
M {"type":"SUBSCRIBE","framework_id":{"value":"F9"},"subscribe":{"framework_info":{"user":"root","name":"n","id":{"value":"F9"}}}} => {"type":"SUBSCRIBE","framework_id":{"value":"F1"},"subscribe":{"framework_info":{"user":"root","name":"n","id":{"value":"F1"}}}} | F1 on O1=h ;
C {"type":"SUBSCRIBE","subscribe":{"framework_info":{"user":"root","name":"n"}}} => ok | F1 on O1=h ;
C {"type":"SUBSCRIBE","framework_id":{"value":"F9"},"subscribe":{"framework_info":{"user":"root","name":"n","id":{"value":"F9"}}}} => S1 | F1 on O1=h ;
C {"type":"SUBSCRIBE","framework_id":{"value":"F1"},"subscribe":{"framework_info":{"user":"root","name":"n","id":{"value":"F1"}}}} => ok | F1 on O1=h ;
M {"type":"DECLINE","framework_id":{"value":"F1"},"decline":{"offer_ids":[{"value":"O1"}]}} => same | F1 on ;
E {"type":"OFFERS","offers":{"offers":[{"id":{"value":"O1"},"framework_id":{"value":"F1"},"agent_id":{"value":"A1"},"hostname":"h"}]}} => ok | F1 on O1=h ;
C {"type":"DECLINE","framework_id":{"value":"F1"},"decline":{"offer_ids":[{"value":"O1"}]}} => ok | F1 on ;
"#;

/// Tasks launched on offers: they take no more cpus than offered, and no two tasks take the same
/// port.
const LAUNCHES: &str =
    r#"E {"type":"SUBSCRIBED","subscribed":{"framework_id":{"value":"F1"}}} => ok | F1 on ;
E {"type":"OFFERS","offers":{"offers":[{"id":{"value":"O1"},"framework_id":{"value":"F1"},"agent_id":{"value":"A1"},"hostname":"h","resources":[{"name":"cpus","type":"SCALAR","scalar":{"value":1.1}}]}]}} => ok | F1 on O1=h ;
C {"type":"ACCEPT","framework_id":{"value":"F1"},"accept":{"offer_ids":[{"value":"O1"}],"operations":[{"type":"LAUNCH","launch":{"task_infos":[{"name":"t","task_id":{"value":"T1"},"agent_id":{"value":"A1"},"resources":[{"name":"cpus","type":"SCALAR","scalar":{"value":0.6}}]},{"name":"t","task_id":{"value":"T2"},"agent_id":{"value":"A1"},"resources":[{"name":"cpus","type":"SCALAR","scalar":{"value":0.501}}]}]}}]}} => S6 0 0 | F1 on O1=h ;
M {"type":"ACCEPT","framework_id":{"value":"F1"},"accept":{"offer_ids":[{"value":"O1"}],"operations":[{"type":"LAUNCH","launch":{"task_infos":[{"name":"t","task_id":{"value":"T1"},"agent_id":{"value":"A1"},"resources":[{"name":"cpus","type":"SCALAR","scalar":{"value":0.6}}]},{"name":"t","task_id":{"value":"T2"},"agent_id":{"value":"A1"},"resources":[{"name":"cpus","type":"SCALAR","scalar":{"value":0.501}}]}]}}]}} => S6 0 0 | F1 on O1=h ;
M {"type":"ACCEPT","framework_id":{"value":"F1"},"accept":{"offer_ids":[{"value":"O1"}],"operations":[{"type":"LAUNCH","launch":{"task_infos":[{"name":"t","task_id":{"value":"T1"},"agent_id":{"value":"A1"},"resources":[{"name":"cpus","type":"SCALAR","scalar":{"value":0.6}}]},{"name":"t","task_id":{"value":"T2"},"agent_id":{"value":"A1"},"resources":[{"name":"cpus","type":"SCALAR","scalar":{"value":0.5}}]}]}}]}} => same | F1 on ;
E {"type":"OFFERS","offers":{"offers":[{"id":{"value":"O1"},"framework_id":{"value":"F1"},"agent_id":{"value":"A1"},"hostname":"h","resources":[{"name":"ports","type":"RANGES","ranges":{"range":[{"begin":31000,"end":32000}]}}]}]}} => ok | F1 on O1=h ;
C {"type":"ACCEPT","framework_id":{"value":"F1"},"accept":{"offer_ids":[{"value":"O1"}],"operations":[{"type":"LAUNCH","launch":{"task_infos":[{"name":"t","task_id":{"value":"T1"},"agent_id":{"value":"A1"},"resources":[{"name":"ports","type":"RANGES","ranges":{"range":[{"begin":31000,"end":31001}]}}]},{"name":"t","task_id":{"value":"T2"},"agent_id":{"value":"A1"},"resources":[{"name":"ports","type":"RANGES","ranges":{"range":[{"begin":31001,"end":31002}]}}]}]}}]}} => S6 0 0 | F1 on O1=h ;
M {"type":"ACCEPT","framework_id":{"value":"F1"},"accept":{"offer_ids":[{"value":"O1"}],"operations":[{"type":"LAUNCH","launch":{"task_infos":[{"name":"t","task_id":{"value":"T1"},"agent_id":{"value":"A1"},"resources":[{"name":"ports","type":"RANGES","ranges":{"range":[{"begin":31000,"end":31001}]}}]},{"name":"t","task_id":{"value":"T2"},"agent_id":{"value":"A1"},"resources":[{"name":"ports","type":"RANGES","ranges":{"range":[{"begin":31001,"end":31002}]}}]}]}}]}} => S6 0 0 | F1 on O1=h ;
C {"type":"ACCEPT","framework_id":{"value":"F1"},"accept":{"offer_ids":[{"value":"O1"}],"operations":[{"type":"LAUNCH","launch":{"task_infos":[{"name":"t","task_id":{"value":"T1"},"agent_id":{"value":"A1"},"resources":[{"name":"ports","type":"RANGES","ranges":{"range":[{"begin":31000,"end":31001}]}}]},{"name":"t","task_id":{"value":"T2"},"agent_id":{"value":"A1"},"resources":[{"name":"ports","type":"RANGES","ranges":{"range":[{"begin":31002,"end":31002}]}}]}]}}]}} => ok | F1 on ;
E {"type":"OFFERS","offers":{"offers":[{"id":{"value":"O1"},"framework_id":{"value":"F1"},"agent_id":{"value":"A1"},"hostname":"h"},{"id":{"value":"O2"},"framework_id":{"value":"F1"},"agent_id":{"value":"A2"},"hostname":"g"}]}} => ok | F1 on O1=h O2=g ;
M {"type":"ACCEPT","framework_id":{"value":"F1"},"accept":{"offer_ids":[{"value":"O2"}]}} => same | F1 on O1=h ;
M {"type":"ACCEPT","framework_id":{"value":"F1"},"accept":{}} => same | F1 on O1=h ;
"#;

/// Tasks are numbered, and their resources added up, over both operations of one ACCEPT. The calls
/// that the session makes have their `filters` member.
const OPERATIONS: &str =
    r#"E {"type":"SUBSCRIBED","subscribed":{"framework_id":{"value":"F1"}}} => ok | F1 on ;
E {"type":"OFFERS","offers":{"offers":[{"id":{"value":"O1"},"framework_id":{"value":"F1"},"agent_id":{"value":"A1"},"hostname":"h","resources":[{"name":"cpus","type":"SCALAR","scalar":{"value":1.0}}]},{"id":{"value":"O2"},"framework_id":{"value":"F1"},"agent_id":{"value":"A1"},"hostname":"h","resources":[{"name":"cpus","type":"SCALAR","scalar":{"value":0.5}}]}]}} => ok | F1 on O1=h O2=h ;
C {"type":"ACCEPT","framework_id":{"value":"F1"},"accept":{"offer_ids":[{"value":"O1"}],"operations":[{"type":"LAUNCH","launch":{"task_infos":[{"name":"t","task_id":{"value":"T1"},"agent_id":{"value":"A1"}}]}},{"type":"LAUNCH","launch":{"task_infos":[{"name":"t","task_id":{"value":"T2"},"agent_id":{"value":"A2"}}]}}]}} => S5 1 | F1 on O1=h O2=h ;
C {"type":"ACCEPT","framework_id":{"value":"F1"},"accept":{"offer_ids":[{"value":"O1"}],"operations":[{"type":"LAUNCH","launch":{"task_infos":[{"name":"t","task_id":{"value":"T1"},"agent_id":{"value":"A1"}},{"name":"t","task_id":{"value":"T2"},"agent_id":{"value":"A1"}}]}},{"type":"LAUNCH","launch":{"task_infos":[{"name":"t","task_id":{"value":"T3"},"agent_id":{"value":"A1"}},{"name":"t","task_id":{"value":"T4"},"agent_id":{"value":"A2"}}]}}]}} => S5 3 | F1 on O1=h O2=h ;
C {"type":"ACCEPT","framework_id":{"value":"F1"},"accept":{"offer_ids":[{"value":"O1"}],"operations":[{"type":"LAUNCH","launch":{"task_infos":[{"name":"t","task_id":{"value":"T1"},"agent_id":{"value":"A1"},"resources":[{"name":"cpus","type":"SCALAR","scalar":{"value":0.5}}]}]}},{"type":"LAUNCH","launch":{"task_infos":[{"name":"t","task_id":{"value":"T2"},"agent_id":{"value":"A1"},"resources":[{"name":"cpus","type":"SCALAR","scalar":{"value":0.6}}]}]}}]}} => S6 0 0 | F1 on O1=h O2=h ;
C {"type":"ACCEPT","framework_id":{"value":"F1"},"accept":{"offer_ids":[{"value":"O1"}],"operations":[{"type":"LAUNCH","launch":{"task_infos":[{"name":"t","task_id":{"value":"T1"},"agent_id":{"value":"A1"}}]}},{"type":"LAUNCH","launch":{"task_infos":[{"name":"t","task_id":{"value":"T2"},"agent_id":{"value":"A1"},"resources":[{"name":"cpus","type":"SCALAR","scalar":{"value":1.5}}]}]}}]}} => S6 1 0 | F1 on O1=h O2=h ;
C {"type":"ACCEPT","framework_id":{"value":"F1"},"accept":{"offer_ids":[{"value":"O1"}],"operations":[{"type":"LAUNCH","launch":{"task_infos":[{"name":"t","task_id":{"value":"T1"},"agent_id":{"value":"A1"}}]}},{"type":"LAUNCH","launch":{"task_infos":[{"name":"t","task_id":{"value":"T1"},"agent_id":{"value":"A1"}}]}}]}} => S2 | F1 on O1=h O2=h ;
C {"type":"ACCEPT","framework_id":{"value":"F1"},"accept":{"offer_ids":[{"value":"O1"},{"value":"O2"}],"operations":[{"type":"LAUNCH","launch":{"task_infos":[{"name":"t","task_id":{"value":"T1"},"agent_id":{"value":"A1"},"resources":[{"name":"cpus","type":"SCALAR","scalar":{"value":1.0}}]}]}},{"type":"LAUNCH","launch":{"task_infos":[{"name":"t","task_id":{"value":"T2"},"agent_id":{"value":"A1"},"resources":[{"name":"cpus","type":"SCALAR","scalar":{"value":0.5}}]}]}}]}} => ok | F1 on ;
E {"type":"OFFERS","offers":{"offers":[{"id":{"value":"O1"},"framework_id":{"value":"F1"},"agent_id":{"value":"A1"},"hostname":"h","resources":[{"name":"cpus","type":"SCALAR","scalar":{"value":1.0}}]},{"id":{"value":"O2"},"framework_id":{"value":"F1"},"agent_id":{"value":"A1"},"hostname":"h","resources":[{"name":"cpus","type":"SCALAR","scalar":{"value":0.5}}]}]}} => ok | F1 on O1=h O2=h ;
M {"type":"ACCEPT","framework_id":{"value":"F1"},"accept":{"offer_ids":[{"value":"O1"}],"operations":[{"type":"LAUNCH","launch":{"task_infos":[{"name":"t","task_id":{"value":"T3"},"agent_id":{"value":"A1"}}]}}],"filters":{"refuse_seconds":7.5}}} => same | F1 on O2=h ;
M {"type":"DECLINE","framework_id":{"value":"F1"},"decline":{"offer_ids":[{"value":"O2"}],"filters":{"refuse_seconds":0.25}}} => same | F1 on ;
"#;

/// A DECLINE may name offers of several agents.
const TWO_AGENTS: &str =
    r#"E {"type":"SUBSCRIBED","subscribed":{"framework_id":{"value":"F1"}}} => ok | F1 on ;
E {"type":"OFFERS","offers":{"offers":[{"id":{"value":"O1"},"framework_id":{"value":"F1"},"agent_id":{"value":"A1"},"hostname":"h"},{"id":{"value":"O2"},"framework_id":{"value":"F1"},"agent_id":{"value":"A2"},"hostname":"g"}]}} => ok | F1 on O1=h O2=g ;
M {"type":"DECLINE","framework_id":{"value":"F1"},"decline":{"offer_ids":[{"value":"O2"},{"value":"O1"}]}} => same | F1 on ;
"#;

/// An update is unacknowledged until its ACKNOWLEDGE, and again if the update is resent. An update
/// without a UUID never is.
const ACKNOWLEDGED: &str =
    r#"E {"type":"SUBSCRIBED","subscribed":{"framework_id":{"value":"F1"}}} => ok | F1 on ;
E {"type":"UPDATE","update":{"status":{"task_id":{"value":"T1"},"state":"TASK_RUNNING","agent_id":{"value":"A1"},"uuid":"AAECAwQFBgcICQoLDA0ODw=="}}} => ok | F1 on ; A1/T1/000102030405060708090a0b0c0d0e0f
M {"type":"ACKNOWLEDGE","framework_id":{"value":"F1"},"acknowledge":{"agent_id":{"value":"A1"},"task_id":{"value":"T1"},"uuid":"AAECAwQFBgcICQoLDA0ODw=="}} => same | F1 on ;
C {"type":"ACKNOWLEDGE","framework_id":{"value":"F1"},"acknowledge":{"agent_id":{"value":"A1"},"task_id":{"value":"T1"},"uuid":"AAECAwQFBgcICQoLDA0ODw=="}} => S7 | F1 on ;
M {"type":"ACKNOWLEDGE","framework_id":{"value":"F1"},"acknowledge":{"agent_id":{"value":"A1"},"task_id":{"value":"T1"},"uuid":"AAECAwQFBgcICQoLDA0ODw=="}} => S7 | F1 on ;
E {"type":"UPDATE","update":{"status":{"task_id":{"value":"T1"},"state":"TASK_RUNNING","agent_id":{"value":"A1"},"uuid":"AAECAwQFBgcICQoLDA0ODw=="}}} => ok | F1 on ; A1/T1/000102030405060708090a0b0c0d0e0f
C {"type":"ACKNOWLEDGE","framework_id":{"value":"F1"},"acknowledge":{"agent_id":{"value":"A1"},"task_id":{"value":"T1"},"uuid":"AAECAwQFBgcICQoLDA0ODw=="}} => ok | F1 on ;
E {"type":"UPDATE","update":{"status":{"task_id":{"value":"T1"},"state":"TASK_RUNNING","agent_id":{"value":"A1"}}}} => ok | F1 on ;
E {"type":"UPDATE","update":{"status":{"task_id":{"value":"T1"},"state":"TASK_RUNNING","agent_id":{"value":"A1"},"uuid":""}}} => ok | F1 on ;
"#;

#[test]
fn a_made_call_may_be_sent(rt: HostRuntime) -> Result<(), Fail> {
    for &script in &[
        BEFORE,
        PLAIN,
        LAUNCHES,
        OPERATIONS,
        TWO_AGENTS,
        ACKNOWLEDGED,
    ] {
        expect_script(&rt, script)?;
    }
    Ok(())
}
