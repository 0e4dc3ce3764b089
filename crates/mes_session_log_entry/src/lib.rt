#![tactic(auto)]
//! The entries of a session log, as the data of its records. An entry is a letter and, after some
//! letters, the JSON text of an event or a call.
//!
//! - `record_letters`: the letters `E` (event), `C` (call), `B` (disconnect) and `2` (header).
//! - `first_reader`: reads the first record, which determines the version of the log.
//! - `entry_reader`: reads the entries of a version.
//! - `lettered_text`: the incremental reader of a letter and a text, which both readers use.
//!
//!     let mut reader = EntryReader::<2>::new(alloc);
//!
//! The crate `mes_session_log` reads whole logs. The tests are in `mes_session_log_tests`.

mod entry_reader;
mod first_reader;
mod lettered_text;
mod record_letters;
mod theorems;

pub use entry_reader::EntryReader;
pub use first_reader::{FirstReader, FirstRecord};
pub use record_letters::{BROKEN, CALL, EVENT, HEADER};
pub use theorems::{entry_reading_is_unique, log_letters};
