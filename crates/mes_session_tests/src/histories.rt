//! Histories: the state after each entry, and after a replay.

use crate::support::{expect_replay, expect_script};
use std::test::Fail;

/// An offer with the identifier of an outstanding offer replaces that offer in its place. An offer
/// that comes again after its removal is the last.
const HAND: &str =
    r#"E {"type":"SUBSCRIBED","subscribed":{"framework_id":{"value":"F1"}}} => ok | F1 on ;
E {"type":"OFFERS","offers":{"offers":[{"id":{"value":"O1"},"framework_id":{"value":"F1"},"agent_id":{"value":"A1"},"hostname":"a"},{"id":{"value":"O2"},"framework_id":{"value":"F1"},"agent_id":{"value":"A1"},"hostname":"b"},{"id":{"value":"O1"},"framework_id":{"value":"F1"},"agent_id":{"value":"A1"},"hostname":"c"}]}} => ok | F1 on O1=c O2=b ;
E {"type":"OFFERS","offers":{"offers":[{"id":{"value":"O3"},"framework_id":{"value":"F1"},"agent_id":{"value":"A1"},"hostname":"d"},{"id":{"value":"O1"},"framework_id":{"value":"F1"},"agent_id":{"value":"A2"},"hostname":"e"}]}} => ok | F1 on O1=e O2=b O3=d ;
E {"type":"RESCIND","rescind":{"offer_id":{"value":"O1"}}} => ok | F1 on O2=b O3=d ;
E {"type":"RESCIND","rescind":{"offer_id":{"value":"O1"}}} => ok | F1 on O2=b O3=d ;
E {"type":"OFFERS","offers":{"offers":[{"id":{"value":"O1"},"framework_id":{"value":"F1"},"agent_id":{"value":"A1"},"hostname":"f"}]}} => ok | F1 on O2=b O3=d O1=f ;
E {"type":"HEARTBEAT"} => ok | F1 on O2=b O3=d O1=f ;
E {"type":"INVERSE_OFFERS"} => ok | F1 on O2=b O3=d O1=f ;
E {"type":"FAILURE","failure":{}} => ok | F1 on O2=b O3=d O1=f ;
E {"type":"ERROR","error":{"message":"m"}} => ok | F1 on O2=b O3=d O1=f ;
E {"type":"MESSAGE","message":{"agent_id":{"value":"A1"},"executor_id":{"value":"E1"},"data":"AAE="}} => ok | F1 on O2=b O3=d O1=f ;
E {"type":"SUBSCRIBED","subscribed":{"framework_id":{"value":"F2"}}} => ok | F2 on ;
E {"type":"OFFERS","offers":{"offers":[]}} => ok | F2 on ;
"#;

/// Unacknowledged updates survive a SUBSCRIBED and a disconnect, in the order of arrival.
const OWED: &str =
    r#"E {"type":"SUBSCRIBED","subscribed":{"framework_id":{"value":"F1"}}} => ok | F1 on ;
E {"type":"UPDATE","update":{"status":{"task_id":{"value":"T1"},"state":"TASK_RUNNING","agent_id":{"value":"A1"},"uuid":"AAECAwQFBgcICQoLDA0ODw=="}}} => ok | F1 on ; A1/T1/000102030405060708090a0b0c0d0e0f
E {"type":"UPDATE","update":{"status":{"task_id":{"value":"T2"},"state":"TASK_RUNNING","agent_id":{"value":"A1"},"uuid":"AAECAwQFBgcICQoLDA0ODw=="}}} => ok | F1 on ; A1/T1/000102030405060708090a0b0c0d0e0f A1/T2/000102030405060708090a0b0c0d0e0f
E {"type":"UPDATE","update":{"status":{"task_id":{"value":"T1"},"state":"TASK_RUNNING","agent_id":{"value":"A1"},"uuid":"AAECAwQFBgcICQoLDA0ODw=="}}} => ok | F1 on ; A1/T1/000102030405060708090a0b0c0d0e0f A1/T2/000102030405060708090a0b0c0d0e0f
E {"type":"SUBSCRIBED","subscribed":{"framework_id":{"value":"F1"}}} => ok | F1 on ; A1/T1/000102030405060708090a0b0c0d0e0f A1/T2/000102030405060708090a0b0c0d0e0f
B => ok | F1 off ; A1/T1/000102030405060708090a0b0c0d0e0f A1/T2/000102030405060708090a0b0c0d0e0f
E {"type":"SUBSCRIBED","subscribed":{"framework_id":{"value":"F1"}}} => ok | F1 on ; A1/T1/000102030405060708090a0b0c0d0e0f A1/T2/000102030405060708090a0b0c0d0e0f
C {"type":"ACKNOWLEDGE","framework_id":{"value":"F1"},"acknowledge":{"agent_id":{"value":"A1"},"task_id":{"value":"T1"},"uuid":"AAECAwQFBgcICQoLDA0ODw=="}} => ok | F1 on ; A1/T2/000102030405060708090a0b0c0d0e0f
E {"type":"UPDATE","update":{"status":{"task_id":{"value":"T1"},"state":"TASK_RUNNING","agent_id":{"value":"A1"},"uuid":"AAECAwQFBgcICQoLDA0ODw=="}}} => ok | F1 on ; A1/T2/000102030405060708090a0b0c0d0e0f A1/T1/000102030405060708090a0b0c0d0e0f
E {"type":"UPDATE","update":{"status":{"task_id":{"value":"T1"},"state":"TASK_RUNNING","agent_id":{"value":"A2"},"uuid":"AAECAwQFBgcICQoLDA0ODw=="}}} => ok | F1 on ; A1/T2/000102030405060708090a0b0c0d0e0f A1/T1/000102030405060708090a0b0c0d0e0f A2/T1/000102030405060708090a0b0c0d0e0f
E {"type":"UPDATE","update":{"status":{"task_id":{"value":"T1"},"state":"TASK_RUNNING","agent_id":{"value":"A1"},"uuid":"/wA="}}} => ok | F1 on ; A1/T2/000102030405060708090a0b0c0d0e0f A1/T1/000102030405060708090a0b0c0d0e0f A2/T1/000102030405060708090a0b0c0d0e0f A1/T1/ff00
M {"type":"ACKNOWLEDGE","framework_id":{"value":"F1"},"acknowledge":{"agent_id":{"value":"A1"},"task_id":{"value":"T1"},"uuid":"AAECAwQFBgcICQoLDA0ODw=="}} => same | F1 on ; A1/T2/000102030405060708090a0b0c0d0e0f A2/T1/000102030405060708090a0b0c0d0e0f A1/T1/ff00
C {"type":"ACKNOWLEDGE","framework_id":{"value":"F1"},"acknowledge":{"agent_id":{"value":"A2"},"task_id":{"value":"T1"},"uuid":"AAECAwQFBgcICQoLDA0ODw=="}} => ok | F1 on ; A1/T2/000102030405060708090a0b0c0d0e0f A1/T1/ff00
"#;

/// A history without a refused call.
const LEGAL: &str = r#"E {"type":"SUBSCRIBED","subscribed":{"framework_id":{"value":"F1"}}}
E {"type":"OFFERS","offers":{"offers":[{"id":{"value":"O1"},"framework_id":{"value":"F1"},"agent_id":{"value":"A1"},"hostname":"h"},{"id":{"value":"O2"},"framework_id":{"value":"F1"},"agent_id":{"value":"A1"},"hostname":"g"}]}}
E {"type":"UPDATE","update":{"status":{"task_id":{"value":"T1"},"state":"TASK_RUNNING","agent_id":{"value":"A1"},"uuid":"AAECAwQFBgcICQoLDA0ODw=="}}}
C {"type":"DECLINE","framework_id":{"value":"F1"},"decline":{"offer_ids":[{"value":"O1"}]}}
C {"type":"REVIVE","framework_id":{"value":"F1"}}
"#;

/// The history [`LEGAL`], followed by two refused calls.
const REFUSED: &str = r#"E {"type":"SUBSCRIBED","subscribed":{"framework_id":{"value":"F1"}}}
E {"type":"OFFERS","offers":{"offers":[{"id":{"value":"O1"},"framework_id":{"value":"F1"},"agent_id":{"value":"A1"},"hostname":"h"},{"id":{"value":"O2"},"framework_id":{"value":"F1"},"agent_id":{"value":"A1"},"hostname":"g"}]}}
E {"type":"UPDATE","update":{"status":{"task_id":{"value":"T1"},"state":"TASK_RUNNING","agent_id":{"value":"A1"},"uuid":"AAECAwQFBgcICQoLDA0ODw=="}}}
C {"type":"DECLINE","framework_id":{"value":"F1"},"decline":{"offer_ids":[{"value":"O1"}]}}
C {"type":"REVIVE","framework_id":{"value":"F1"}}
C {"type":"ACCEPT","framework_id":{"value":"F1"},"accept":{"offer_ids":[{"value":"O2"},{"value":"O1"}]}}
C {"type":"DECLINE","framework_id":{"value":"F1"},"decline":{"offer_ids":[{"value":"O9"}]}}
"#;

/// A call after a disconnect.
const LOST: &str = r#"E {"type":"SUBSCRIBED","subscribed":{"framework_id":{"value":"F1"}}}
B
C {"type":"REVIVE","framework_id":{"value":"F1"}}
"#;

#[test]
fn histories_are_replayed(rt: HostRuntime) -> Result<(), Fail> {
    for &(history, expected) in &[
        ("", "- off ;"),
        ("B", "- off ;"),
        (LEGAL, "F1 on O2=g ; A1/T1/000102030405060708090a0b0c0d0e0f"),
        (REFUSED, "5 S3 1"),
        (LOST, "2 S1"),
    ] {
        expect_replay(&rt, history, expected)?;
    }
    Ok(())
}

#[test]
fn a_session_follows_its_history_entry_by_entry(rt: HostRuntime) -> Result<(), Fail> {
    for script in [HAND, OWED] {
        expect_script(&rt, script)?;
    }
    Ok(())
}
