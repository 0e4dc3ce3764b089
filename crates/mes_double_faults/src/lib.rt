#![tactic(auto)]
//! The faults of a live test master: their texts, and what happens to each event and each call.
//!
//! - `fault`: a fault, and its text such as `lose:3`.
//! - `plan`: the faults of a run, and which of them concerns an event or a call.
//! - `random`: faults at random, each given by a seed and the number of the event or call.
//!
//!     let fault = Fault::parse("cut:4:100")?;
//!     let plan = FaultPlan::new(faults, None);
//!     let happens = plan.of_event(4);
//!
//! Events and calls are counted from 1 since the start of the test master.

mod fault;
mod number;
mod plan;
mod random;

pub use fault::{CallFault, EventFault, Fault, MAX_FAULT_TEXT};
pub use number::{MAX_NUMBER, MAX_SECONDS};
pub use plan::FaultPlan;
pub use random::RandomFaults;
