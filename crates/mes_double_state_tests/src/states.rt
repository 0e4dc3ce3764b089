//! Tests of the state of a new live test master, and of one with a task.

use crate::support::{call, expect_state, new_live, pass, tell};
use mes_double_live::Live;
use std::alloc::Global;
use std::process::Abort;
use std::test::Fail;

const NEW: &str =
    r#"{"framework":"F1","stream":null,"time":0,"calls":0,"events":0,"faults":0,"suppressed":false,"offers":[],"tasks":[],"launched":[],"unacknowledged":[],"log":[]}"#;

const OFFERS: &str =
    r#"{"type":"OFFERS","offers":{"offers":[{"id":{"value":"O1"},"framework_id":{"value":"F1"},"agent_id":{"value":"A1"},"hostname":"h"},{"id":{"value":"O2"},"framework_id":{"value":"F1"},"agent_id":{"value":"A2"},"hostname":"h"},{"id":{"value":"O3"},"framework_id":{"value":"F1"},"agent_id":{"value":"A3"},"hostname":"h"},{"id":{"value":"O4"},"framework_id":{"value":"F1"},"agent_id":{"value":"A4"},"hostname":"h"}]}}"#;

const SUBSCRIBE: &str =
    r#"{"type":"SUBSCRIBE","subscribe":{"framework_info":{"user":"root","name":"n"}}}"#;

const ACCEPT: &str =
    r#"{"type":"ACCEPT","framework_id":{"value":"F1"},"accept":{"offer_ids":[{"value":"O1"}],"operations":[{"type":"LAUNCH","launch":{"task_infos":[{"name":"n","task_id":{"value":"T1"},"agent_id":{"value":"A1"}}]}}]}}"#;

const DECLINE: &str =
    r#"{"type":"DECLINE","framework_id":{"value":"F1"},"decline":{"offer_ids":[{"value":"O2"}]}}"#;

const RESCIND: &str = r#"{"type":"RESCIND","rescind":{"offer_id":{"value":"O3"}}}"#;

/// The update of T1 is sent at the ACCEPT, and the DECLINE is for 5 seconds.
const LATER: &str =
    r#"{"framework":"F1","stream":"00000000-0000-0000-0000-000000000001","time":2500,"calls":3,"events":4,"faults":0,"suppressed":false,"offers":[{"state":"USED","from":null,"tasks":1,"offer":{"id":{"value":"O1"},"framework_id":{"value":"F1"},"agent_id":{"value":"A1"},"hostname":"h"}},{"state":"FREE","from":6000,"tasks":0,"offer":{"id":{"value":"O2"},"framework_id":{"value":"F1"},"agent_id":{"value":"A2"},"hostname":"h"}},{"state":"WITHDRAWN","from":null,"tasks":0,"offer":{"id":{"value":"O3"},"framework_id":{"value":"F1"},"agent_id":{"value":"A3"},"hostname":"h"}},{"state":"OUTSTANDING","from":null,"tasks":0,"offer":{"id":{"value":"O4"},"framework_id":{"value":"F1"},"agent_id":{"value":"A4"},"hostname":"h"}}],"tasks":[{"task_id":"T1","agent_id":"A1","state":"TASK_STARTING","acknowledged":false,"killed":false}],"launched":["T1"],"unacknowledged":[{"agent_id":"A1","task_id":"T1","uuid":"AAAAAAAAQACgAAAAAAAAAA==","sent":1000}],"log":[{"event":"SUBSCRIBED"},{"event":"OFFERS"},{"call":"SUBSCRIBE","status":200},{"event":"UPDATE"},{"call":"ACCEPT","status":202},{"call":"DECLINE","status":202},{"event":"RESCIND"}]}"#;

#[test]
fn the_state_has_offers_tasks_and_a_log(rt: HostRuntime) -> Result<(), Fail> {
    let mut live = new_live(rt.alloc())?;
    follow(&rt, rt.alloc(), &mut live)
}

/// The test master is only lent, since each exit of its owner has to drop it, which takes long to
/// prove.
fn follow(rt: &impl Abort, alloc: Global, live: &mut Live) -> Result<(), Fail> {
    expect_state(rt, alloc, live, NEW)?;
    tell(alloc, live, OFFERS)?;
    call(alloc, live, SUBSCRIBE)?;
    pass(live, 1000)?;
    call(alloc, live, ACCEPT)?;
    call(alloc, live, DECLINE)?;
    tell(alloc, live, RESCIND)?;
    pass(live, 2500)?;
    expect_state(rt, alloc, live, LATER)
}
