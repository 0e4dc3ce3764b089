#![tactic(auto)]
//! The calls of the Apache Mesos v1 scheduler API in JSON.
//!
//! A call is read from the bytes of a record or from a JSON tree, copied, and written as canonical
//! JSON.
//!
//!     let call = Call::read_record(alloc, body)?;
//!     let text = call.canon(alloc, Limit::USUAL)?;
//!
//! The bodies are in the crate `mes_msg_call_body`, the events in `mes_msg_event`. Programs use
//! `mes_msg`, which re-exports both. The tests are in `mes_msg_tests`.

mod call;
mod call_text;
pub mod first_fault;

pub use call::Call;
