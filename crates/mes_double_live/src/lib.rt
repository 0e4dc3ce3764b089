#![tactic(auto)]
//! A live test master: a test master with its cluster, and the bytes of the current stream.
//!
//! [`Live`] has one method for each input: a call of the framework (`call`), an event from outside
//! (`told`), the time (`passed`), a disconnected stream (`broken`), and bytes of the stream that
//! were written (`wrote`). It knows no connection: the caller writes the bytes.
//!
//!     let mut live = Live::new(alloc, master, &settings, plan);
//!     let reply = live.call(stream, &call)?;
//!     let count = write(live.pending())?;
//!     live.wrote(count);
//!
//! The test master changes only by calls and events of `mes_double_master`, and launches only tasks
//! that fit; `live_laws` proves what follows from that. The stream, the tasks and the events that
//! wait change only by steps (`specs/Steps.antt`), from which `stream_laws`, `task_laws` and
//! `waiting_laws` follow. Times are in milliseconds. The crate `mesosev_live` serves it over sockets.

mod fault;
mod live;
mod reply;
mod run_log;
mod settings;
mod stream_body;
mod taken_offers;
mod theorems;

pub use fault::LiveFault;
pub use live::Live;
pub use reply::{EndedStream, Reply};
pub use run_log::{LogEntry, MAX_LOG};
pub use settings::Settings;
pub use theorems::{live_laws, stream_laws, task_laws, waiting_laws};
