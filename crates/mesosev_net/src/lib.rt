#![tactic(auto)]
//! The subcommands `serve`, `subscribe` and `loopback` of `mesosev`, over TCP sockets.
//!
//! [`serve`] is a test master that serves connections one after the other. [`subscribe`] is a
//! scheduler that prints the events of a master. [`loopback`] runs a test master and a scheduler in
//! one process. Each socket is closed when its connection ends.
//!
//!     let outcome = serve(rt, port, count, stream_id, input, out);
//!     let status = finish(outcome, out.is_closed(), err);
//!
//! The crate `mesosev_serve` serves one connection over any devices; its tests are in the crate
//! `mesosev_serve_tests`. The tests of the sockets run the program: see `tests/net.py`.

mod both_ends;
mod exporting;
mod framework;
mod ids;
mod interleaved;
mod lines;
mod pair;
mod serving;
mod subscribing;
mod theorems;

pub use both_ends::{LOOPBACK_STREAM, loopback};
pub use exporting::subscribe_json;
pub use framework::framework_id;
pub use ids::stream_ids;
pub use interleaved::MAX_UNREAD;
pub use lines::BIND_FAILED;
pub use serving::{STREAM_CHUNK, serve};
pub use subscribing::subscribe;
pub use theorems::net_limits;
