#![tactic(auto)]
//! The events and calls of the Apache Mesos v1 scheduler API in JSON.
//!
//! An event or a call is read from the bytes of a record or from a JSON tree, copied, and written
//! as canonical JSON. Reading returns the one event or call of the bytes, or their first fault. The
//! canonical text is read back as the same event or call.
//!
//!     let event = Event::read_record(rt.alloc(), br#"{"type":"HEARTBEAT"}"#)?;
//!     let text = event.canon(rt.alloc(), Limit::USUAL)?;
//!
//! Events are in the crate `mes_msg_event`, calls in `mes_msg_call`, and the code that both use in
//! `mes_msg_record`. This crate has the entries of a session log and the faults of sending. The
//! tests are in the crate `mes_msg_tests`.

mod entry;
mod send_fault;
mod theorems;

pub use entry::Entry;
pub use mes_frame::Limit;
pub use mes_msg_call::Call;
pub use mes_msg_call_body::{
    Accept, Acknowledge, Decline, Kill, Operation, Reconcile, Shutdown, Subscribe,
};
pub use mes_msg_event::Event;
pub use mes_msg_event_body::{ErrorBody, Failure, OtherName, Rescind, Subscribed, Update};
pub use mes_msg_record::{EncodeFault, Message, RecordFault};
pub use send_fault::{EncodeFaultKind, SendFault};
pub use theorems::message_reading_is_unique;
