#![tactic(auto)]
//! The session of a framework with its master: its outstanding offers, its unacknowledged updates,
//! and the calls that it may make.
//!
//!     let mut session = Session::new(rt.alloc());
//!     session.heard(&event)?;
//!     let call = session.accept(&[offer_id], &[task], None)?;
//!
//! The contracts promise the state that the history of events and calls leads to, and for each
//! refused call the first reason. The crate `mes_session_state` checks calls, `mes_session_calls`
//! builds them, and `mes_session_log` reads and writes logs; its functions are re-exported here.
//! The tests are in the crate `mes_session_tests`.

mod calls;
mod line;
mod replaying;
mod report;
mod session;
mod theorems;

pub use line::{MAX_REFUSAL_LINE, refusal_line};
pub use mes_msg::Entry;
pub use mes_session_log::{encode_entry, read_log, write_log};
pub use mes_session_state::Refusal;
pub use replaying::replay;
pub use session::Session;
pub use theorems::{session_laws, session_limits};
