//! The faults of a run.
ghost use Rattle.std.specs.Prelude.{◌≡◌, [], None as none, IfOk};
ghost use Rattle.mes_double_faults.specs.Plans.{Plan, event_fault, call_fault, chunk_size, planned_event, planned_call, planned_chunk};

use crate::fault::{CallFault, EventFault, Fault};
use crate::random::RandomFaults;
use std::alloc::{AllocError, Global};
use std::marker::Model;

/// The faults of a run. In contracts its value is `Plan`.
#[derive(Drop)]
pub struct FaultPlan {
    faults: Vec<Fault>,
    random: Option<RandomFaults>,
}

impl Model for FaultPlan {
    ghost use Rattle.mes_double_faults.specs.Plans.{Plan};

    ghost Value = { Plan };

    ghost view = { λ plan. record { faults = plan.faults.items; random = plan.random } };
}

impl FaultPlan {
    /// Returns a plan without faults. Does not allocate.
    pub fn none(alloc: Global) -> FaultPlan
        ensures { result ≡ record { faults = []; random = none } }
    {
        FaultPlan {
            faults: Vec::new(alloc),
            random: None,
        }
    }

    /// Returns the plan of these faults, and of faults at random for all events and calls that they
    /// do not concern.
    pub fn new(faults: Vec<Fault>, random: Option<RandomFaults>) -> FaultPlan
        ensures { result ≡ record { faults = faults.items; random = random } }
    {
        FaultPlan { faults, random }
    }

    /// Returns a copy. Errors: an allocation failed.
    pub fn copy(&self, alloc: Global) -> Result<FaultPlan, AllocError>
        ensures { IfOk result (λ made. made ≡ self.now) }
    {
        let mut faults = Vec::new(alloc);
        faults.extend_from_slice(self.faults.as_slice())?;
        Ok(FaultPlan {
            faults,
            random: self.random,
        })
    }

    /// Returns what happens to the event of this number: the first fault for it, or one at random.
    pub fn of_event(&self, number: u64) -> Option<EventFault>
        ensures { result ≡ event_fault self.now number }
    {
        match self.planned_event(number) {
            Some(fault) => Some(fault),
            None => match &self.random {
                Some(random) => random.of_event(number),
                None => None,
            },
        }
    }

    fn planned_event(&self, number: u64) -> Option<EventFault>
        ensures { result ≡ planned_event self.now.faults number }
    {
        for fault in &self.faults {
            if let Fault::Event(place, happens) = fault
                && u64::from(*place) == number
            {
                return Some(*happens);
            }
        }
        None
    }

    /// Returns what happens to the call of this number: the first fault for it, or one at random.
    pub fn of_call(&self, number: u64) -> Option<CallFault>
        ensures { result ≡ call_fault self.now number }
    {
        match self.planned_call(number) {
            Some(fault) => Some(fault),
            None => match &self.random {
                Some(random) => random.of_call(number),
                None => None,
            },
        }
    }

    fn planned_call(&self, number: u64) -> Option<CallFault>
        ensures { result ≡ planned_call self.now.faults number }
    {
        for fault in &self.faults {
            if let Fault::Call(place, happens) = fault
                && u64::from(*place) == number
            {
                return Some(*happens);
            }
        }
        None
    }

    /// Returns the largest chunk of a stream in bytes, if a fault sets it: that of the first one.
    pub fn chunk(&self) -> Option<u32>
        ensures { result ≡ chunk_size self.now }
    {
        for fault in &self.faults {
            if let Fault::Chunk(most) = fault {
                return Some(*most);
            }
        }
        None
    }
}
