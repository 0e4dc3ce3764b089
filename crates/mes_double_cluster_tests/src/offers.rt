//! Tests of when an offer may be made, and under which identifier.

use crate::support::expect_run;
use std::test::Fail;

/// An offer that comes back has a new identifier. An outstanding offer comes back when its stream
/// ends.
const NAMES: &str = "stock O1 O2 => 0
offer 0 0 => O1
offer 1 0 => O2
offer 2 0 => -
offer 0 9 => -
broken 7 => 0
due => 7
offer 0 6 => -
offer 0 7 => O1-2
broken 8 => 0
offer 0 8 => O1-3
offer 1 8 => O2-2
due => -
";

/// A declined offer comes back at its time. A call that names an earlier identifier, or an offer
/// that is not outstanding, changes nothing.
const DECLINED: &str = "stock O1 O2 => 0
offer 0 0 => O1
decline 5000 O1 O2 => 0
due => 0
offer 1 0 => O2
due => 5000
offer 0 4999 => -
offer 0 5000 => O1-2
decline 9000 O1 => 0
due => -
decline 9000 O2 O1-2 => 0
offer 0 8999 => -
offer 1 9000 => O2-2
offer 0 9000 => O1-3
";

/// A REVIVE ends all waits; from a SUPPRESS to a REVIVE no offer is made.
const REVIVED: &str = "stock O1 O2 => 0
offer 0 0 => O1
decline 5000 O1 => 0
revive => 0
due => 0
offer 0 0 => O1-2
suppress => 0
due => -
offer 1 0 => -
decline 5000 O1-2 => 0
offer 1 0 => -
revive => 0
offer 1 0 => O2
offer 0 0 => O1-3
";

/// A rescinded offer is never made again; a RESCIND of an offer that is free changes nothing.
const RESCINDED: &str = "stock O1 O2 => 0
offer 0 0 => O1
rescind O2 => 0
rescind O1 => 0
broken 3 => 0
revive => 0
offer 0 3 => -
offer 1 3 => O2
";

/// The offers of an ACCEPT come back when all of its tasks have ended; without tasks, at its time.
const USED: &str = "stock O1 O2 O3 => 0
offer 0 0 => O1
offer 1 0 => O2
offer 2 0 => O3
accept 5000 O1 O2 / T1 T2 => 2
accept 6000 O3 / => 2
broken 1 => 2
revive => 2
told T1 TASK_FAILED 20 => 1
offer 0 20 => -
offer 2 20 => O3-2
told T2 TASK_RUNNING 30 => 1
told T2 TASK_LOST 40 => 0
offer 0 39 => -
offer 0 40 => O1-2
offer 1 40 => O2-2
";

#[test]
fn an_offer_that_comes_back_has_a_new_identifier(rt: HostRuntime) -> Result<(), Fail> {
    expect_run(&rt, NAMES)
}

#[test]
fn a_declined_offer_comes_back_at_its_time(rt: HostRuntime) -> Result<(), Fail> {
    expect_run(&rt, DECLINED)
}

#[test]
fn a_revive_ends_waits_and_suppression(rt: HostRuntime) -> Result<(), Fail> {
    expect_run(&rt, REVIVED)
}

#[test]
fn a_rescinded_offer_is_never_made_again(rt: HostRuntime) -> Result<(), Fail> {
    expect_run(&rt, RESCINDED)
}

#[test]
fn used_offers_come_back_after_the_last_task(rt: HostRuntime) -> Result<(), Fail> {
    expect_run(&rt, USED)
}
