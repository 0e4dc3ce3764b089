#![tactic(auto)]
//! The session of a framework, with its events and calls as JSON texts, for programs in other
//! languages.
//!
//! ```ignore
//! let mut session = TextSession::new(alloc);
//! session.heard(event)?;
//! let text = session.said(call, room)?; // the canonical text of the call, ready to be sent
//! ```
//!
//! A text that is no event or no call, a call that the session refuses, and a text that is longer
//! than the caller's room change nothing. The crate also makes the records of a session log and of
//! a stream, and checks without a session whether tasks fit offers. The definitions are in `specs/`.

mod fit_texts;
mod log_records;
mod message_text;
mod stream_records;
mod text_refusal;
mod text_session;
mod text_stop;

pub use fit_texts::check_fit;
pub use log_records::{broken_record, call_record, event_record, header_record, replay_log};
pub use stream_records::{stream_chunk, stream_record};
pub use text_refusal::{TextRefusal, fault_of_text};
pub use text_session::TextSession;
pub use text_stop::TextStop;
