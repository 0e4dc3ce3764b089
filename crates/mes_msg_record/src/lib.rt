#![tactic(auto)]
//! The code that the events and the calls of the Apache Mesos v1 scheduler API share.
//!
//! - `record`: reads an event or a call from the bytes of a record.
//! - `canon`: writes the canonical text of an event or a call, or returns the reason for which it
//!   has none.
//! - `message`: the body of MESSAGE, which is both an event and a call.
//!
//!     let event: Event = read_bytes(alloc, bytes)?;
//!     let text = canonical_bytes(&event, alloc, Limit::USUAL)?;
//!
//! Programs use the crate `mes_msg`, which re-exports this one. The tests are in `mes_msg_tests`.

mod canon;
mod message;
mod record;

pub use canon::{EncodeFault, canonical_bytes, canonical_into};
pub use message::Message;
pub use record::{RecordFault, read_bytes};
