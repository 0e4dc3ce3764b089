#![tactic(auto)]
//! The parts of a test master's state, and the events that it sends.
//!
//! - `ids`: the identifiers of the offers made and of the tasks launched.
//! - `updates`: the last status of each task, and the updates that require an acknowledgement.
//! - `events`: SUBSCRIBED, OFFERS and UPDATE.
//!
//!     let event = events::offers(alloc, &offers)?;
//!
//! The crate `mes_double_master` has the master. The tests are in `mes_double_master_tests`.

pub mod events;
pub mod ids;
pub mod updates;
