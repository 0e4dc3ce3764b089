#![tactic(auto)]
//! The events of the Apache Mesos v1 scheduler API in JSON.
//!
//! An event is read from the bytes of a record or from a JSON tree, copied, written as canonical
//! JSON and printed as lines.
//!
//!     let event = Event::read_record(alloc, br#"{"type":"HEARTBEAT"}"#)?;
//!     let lines = event.show_lines(alloc, 1)?;
//!
//! The bodies are in the crate `mes_msg_event_body`, the calls in `mes_msg_call`. Programs use
//! `mes_msg`, which re-exports both. The tests are in `mes_msg_tests`.

mod event;
pub mod first_fault;
mod line_fields;
mod record;
mod show;

pub use event::Event;
pub use line_fields::{put_id, put_number, put_uuid, put_word};
