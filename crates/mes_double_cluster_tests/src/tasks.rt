//! Tests of the states that are reported of tasks.

use crate::support::expect_run;
use std::test::Fail;

/// A task is reported as STARTING, RUNNING and FINISHED, each after the acknowledgement of the one
/// before: of the same agent, task and update. FINISHED comes when the task ran for its time.
const COURSE: &str = "stock O1 => 0
offer 0 0 => O1
accept 5000 O1 / T1 => 1
due => 0
report 0 10 => TASK_STARTING
report 0 10 => -
due => -
ack A1 T2 0 => 1
ack A1 T1 1 => 1
ack A2 T1 0 => 1
report 0 10 => -
ack A1 T1 0 => 1
report 0 20 => TASK_RUNNING
report 0 9000 => -
ack A1 T1 0 => 1
report 0 9000 => -
ack A1 T1 1 => 1
due => 1020
report 0 1019 => -
report 0 1020 => TASK_FINISHED
offer 0 1020 => O1-2
report 0 1020 => -
ack A1 T1 2 => 0
";

/// A KILL ends a task once it runs. A task that has ended is there until its last update is
/// acknowledged.
const KILLED: &str = "stock O1 => 0
offer 0 0 => O1
accept 5000 O1 / T1 T2 => 2
kill T3 => false
kill T1 => true
report 0 0 => TASK_STARTING
report 1 0 => TASK_STARTING
ack A1 T1 0 => 2
report 0 5 => TASK_RUNNING
ack A1 T1 2 => 2
ack A1 T2 1 => 2
report 0 5 => TASK_KILLED
report 1 5 => TASK_RUNNING
kill T1 => true
ack A1 T1 3 => 1
kill T1 => false
ack A1 T2 4 => 1
kill T2 => true
offer 0 6 => -
report 0 6 => TASK_KILLED
offer 0 6 => O1-2
ack A1 T2 5 => 0
";

/// A task that others reported in a last state is forgotten; another state changes nothing.
const OVERTAKEN: &str = "stock O1 => 0
offer 0 0 => O1
accept 5000 O1 / T1 T2 => 2
report 0 0 => TASK_STARTING
told T1 TASK_UNREACHABLE 1 => 2
told T3 TASK_LOST 1 => 2
ack A1 T1 0 => 2
report 0 1 => TASK_RUNNING
ack A1 T1 1 => 2
told T2 TASK_GONE 2 => 1
offer 0 2 => -
report 0 1001 => TASK_FINISHED
told T1 TASK_FAILED 1002 => 0
offer 0 1002 => O1-2
";

#[test]
fn a_task_goes_on_after_each_acknowledgement(rt: HostRuntime) -> Result<(), Fail> {
    expect_run(&rt, COURSE)
}

#[test]
fn a_killed_task_ends_once_it_runs(rt: HostRuntime) -> Result<(), Fail> {
    expect_run(&rt, KILLED)
}

#[test]
fn a_task_that_others_ended_is_forgotten(rt: HostRuntime) -> Result<(), Fail> {
    expect_run(&rt, OVERTAKEN)
}
