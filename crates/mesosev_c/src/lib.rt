#![tactic(auto)]
//! C functions that decode the event stream of the Apache Mesos v1 scheduler API.
//!
//! They decode a whole input ([`mes_c_check`]), a stream piece by piece ([`mes_c_decoder_next`]),
//! or one call ([`mes_c_call`]). Results are numbers ([`EVENT`], [`END`], 1 to 16 for F1 to F16)
//! and texts in canonical JSON. The end of a stream or its first error is final: each later call
//! returns it again.
//!
//! ```ignore
//! let mut decoder = TextDecoder::new(alloc, Framing::Plain, Limit::USUAL, true);
//! let (reported, used) = decoder.next(b"20\n{\"type\":\"HEARTBEAT\"}"); // status EVENT, kind 8
//! ```
//!
//! C programs include `lib/mesosev.h`; `lib/mesosev.c` rejects null pointers before each call. The
//! tests are in `tests/c_library`, the definitions in `specs/`.

mod caller_buffer;
mod calls;
mod event_decoder;
mod event_text;
mod exports;
mod handle;
mod log_exports;
mod option_numbers;
mod rows;
mod session_exports;
mod session_results;
mod statuses;
mod text_decoder;
mod whole;

pub use calls::{ReportedCall, report_call};
pub use event_decoder::{EventDecoder, StreamEnd};
pub use exports::{
    Answer, Answers, Counts, mes_c_call, mes_c_check, mes_c_decoder_finish, mes_c_decoder_free,
    mes_c_decoder_many, mes_c_decoder_new, mes_c_decoder_next,
};
pub use handle::{Handle, SessionHandle, SessionSlot, Slot};
pub use log_exports::{
    mes_c_fits, mes_c_log_broken, mes_c_log_call, mes_c_log_event, mes_c_log_header,
    mes_c_log_replay, mes_c_write_chunk, mes_c_write_event,
};
pub use option_numbers::{BadOption, DecoderOptions, parse_options};
pub use rows::Row;
pub use session_exports::{
    mes_c_session_acknowledge, mes_c_session_broken, mes_c_session_check, mes_c_session_connected,
    mes_c_session_entries, mes_c_session_framework, mes_c_session_free, mes_c_session_heard,
    mes_c_session_new, mes_c_session_offer, mes_c_session_offer_at, mes_c_session_offer_count,
    mes_c_session_owed_at, mes_c_session_owed_count, mes_c_session_said, mes_c_session_subscribe,
};
pub use session_results::refusal_number;
pub use statuses::{
    ABSENT, BAD_FRAMING, BAD_LIMIT, END, EVENT, MORE, NO_MEMORY, NO_ROOM, NO_TEXT, SUCCESS,
    event_number, fault_number,
};
pub use text_decoder::{Batch, Reported, TextDecoder};
pub use whole::{Checked, check_whole};
