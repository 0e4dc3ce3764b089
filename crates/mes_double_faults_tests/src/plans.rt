//! The faults of a run.

use mes_double_faults::{CallFault, EventFault, Fault, FaultPlan, RandomFaults};
use std::alloc::{AllocError, Global};

/// Returns a plan of two faults for event 2, two for call 2, and two for the chunks.
fn plan(alloc: Global, random: Option<RandomFaults>) -> Result<FaultPlan, AllocError> {
    let mut faults = Vec::new(alloc);
    faults.push(Fault::Call(2, CallFault::Gone))?;
    faults.push(Fault::Chunk(64))?;
    faults.push(Fault::Event(2, EventFault::Muted))?;
    faults.push(Fault::Event(2, EventFault::Lost))?;
    faults.push(Fault::Call(2, CallFault::Busy))?;
    faults.push(Fault::Event(7, EventFault::Cut(100)))?;
    faults.push(Fault::Chunk(1))?;
    Ok(FaultPlan::new(faults, random))
}

#[test]
fn the_first_fault_for_a_number_happens(rt: HostRuntime) -> Result<(), AllocError> {
    let plan = plan(rt.alloc(), None)?;
    assert_eq!(rt; plan.of_event(2), Some(EventFault::Muted));
    assert_eq!(rt; plan.of_event(7), Some(EventFault::Cut(100)));
    assert_eq!(rt; plan.of_event(1), None);
    assert_eq!(rt; plan.of_event(4_294_967_298), None);
    assert_eq!(rt; plan.of_call(2), Some(CallFault::Gone));
    assert_eq!(rt; plan.of_call(7), None);
    assert_eq!(rt; plan.chunk(), Some(64));
    Ok(())
}

#[test]
fn a_plan_without_faults_has_none(rt: HostRuntime) {
    let plan = FaultPlan::none(rt.alloc());
    assert_eq!(rt; plan.of_event(2), None);
    assert_eq!(rt; plan.of_call(2), None);
    assert_eq!(rt; plan.chunk(), None);
}

#[test]
fn faults_at_random_are_for_the_other_numbers(rt: HostRuntime) -> Result<(), AllocError> {
    let random = RandomFaults {
        seed: 7,
        rate: 1_000,
    };
    let plan = plan(rt.alloc(), Some(random))?;
    assert_eq!(rt; plan.of_event(2), Some(EventFault::Muted));
    assert_eq!(rt; plan.of_event(3), Some(EventFault::Cut(100)));
    assert_eq!(rt; plan.of_call(2), Some(CallFault::Gone));
    assert_eq!(rt; plan.of_call(4), Some(CallFault::Slow(1)));
    Ok(())
}

#[test]
fn a_copy_has_the_same_faults(rt: HostRuntime) -> Result<(), AllocError> {
    let random = RandomFaults {
        seed: 7,
        rate: 1_000,
    };
    let copy = plan(rt.alloc(), Some(random))?.copy(rt.alloc())?;
    assert_eq!(rt; copy.of_event(7), Some(EventFault::Cut(100)));
    assert_eq!(rt; copy.of_event(3), Some(EventFault::Cut(100)));
    assert_eq!(rt; copy.of_call(2), Some(CallFault::Gone));
    assert_eq!(rt; copy.chunk(), Some(64));
    Ok(())
}
