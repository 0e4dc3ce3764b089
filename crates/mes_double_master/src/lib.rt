#![tactic(auto)]
//! A test master, against which a scheduler can be tried. It handles calls and makes the events to
//! send; connections and HTTP are not part of it.
//!
//!     let mut master = Master::new(alloc, framework, ids);
//!     let answer = master.handle(&call, Some(&stream))?;
//!     let event = master.offer(&offers)?;
//!
//! The contracts state the master's response to each call, and the master's state after the call.
//! `master_laws` proves that no task is launched twice and no offer is taken twice. The parts of
//! the master's state are in the crate `mes_double_master_state`, the HTTP heads in
//! `mes_double_http`. Programs use `mes_double`, which re-exports these crates. The tests are in
//! `mes_double_master_tests`.

mod answer;
mod master;
mod names;
mod refusal;
mod theorems;

pub use answer::Answer;
pub use master::Master;
pub use names::{call_name, event_name};
pub use refusal::MasterRefusal;
pub use theorems::master_laws;
