//! Tests of the heartbeat interval that SUBSCRIBED announces.

use crate::support::{called, master_with};
use mes_fixed::Micros;
use std::alloc::Global;
use std::test::Fail;

/// A SUBSCRIBE.
const SUBSCRIBE: &str =
    r#"{"type":"SUBSCRIBE","subscribe":{"framework_info":{"user":"root","name":"n"}}}"#;

/// The response of a master to a SUBSCRIBE, with an interval of half a second and with none.
const HALF: &str =
    r#"200 {"type":"SUBSCRIBED","subscribed":{"framework_id":{"value":"F1"},"heartbeat_interval_seconds":0.5}}"#;

const NONE: &str = r#"200 {"type":"SUBSCRIBED","subscribed":{"framework_id":{"value":"F1"}}}"#;

fn subscribed(alloc: Global, interval: Option<Micros>) -> Result<String, Fail> {
    let mut master = master_with(alloc, interval)?;
    let reported = called(alloc, &mut master, "-", SUBSCRIBE);
    drop(master);
    reported
}

#[test]
fn the_given_interval_is_announced(rt: HostRuntime) -> Result<(), Fail> {
    let half = subscribed(rt.alloc(), Micros::of_units(500_000))?;
    assert_eq!(rt; half.as_str(), HALF);
    let none = subscribed(rt.alloc(), None)?;
    assert_eq!(rt; none.as_str(), NONE);
    Ok(())
}
