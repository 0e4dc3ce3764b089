#![tactic(auto)]
//! The subcommands `replay` and `relog` of `mesosev`, over any devices.
//!
//! [`replay`] prints the session that a session log leads to, [`replay_json`] as JSON. [`relog`] writes the entries of a log
//! again, in version 2. Both read version 1 and version 2. The contracts state the bytes read, the
//! bytes printed and the outcome.
//!
//!     let outcome = replay(alloc, limit, input, out);
//!     let status = finish(outcome, out.is_closed(), err);
//!
//! The crate `mes_session` defines the session. The tests run the program: see `tests/`.

mod relogging;
mod replaying;
mod replaying_json;
mod session_json;

pub use relogging::relog;
pub use replaying::replay;
pub use replaying_json::replay_json;
