#![tactic(auto)]
//! The session log of a framework: the events received, the calls sent and the disconnects, in
//! order.
//!
//! A log is plain RecordIO. The data of a record are a letter and, for an event or a call, its JSON
//! text. The letters are in the crate `mes_session_log_entry`. A log of version 2 begins with a
//! header.
//!
//!     let report = read_log(alloc, &mut source, Limit::USUAL, max_reads, &mut entries)?;
//!     write_log(alloc, &mut sink, entries.as_slice(), Limit::USUAL)?;
//!
//! The contracts promise the entries of a log or its first fault. A written log reads back to its
//! entries. Programs use the crate `mes_session`. The tests are in `mes_session_log_tests`.

mod encode;
mod log_reading;
mod read;
mod theorems;
mod write;

pub use encode::{encode_entry, encode_log};
pub use read::read_log;
pub use theorems::log_reading_is_unique;
pub use write::write_log;
