#![tactic(auto)]
//! One HTTP connection between a scheduler and a test master, over any devices.
//!
//! [`serve_one`] is the master's end: it reads a call, writes the response, and prints a line.
//! [`subscribe_over`] is the scheduler's end: it sends SUBSCRIBE, and prints the events of the
//! stream. The contracts state the bytes read, written and printed, also if a device fails.
//!
//!     let served = serve_one(alloc, &mut master, &events, chunk_size, reader, writer, out)?;
//!
//! `mesosev_net` has the sockets, `mes_double_master` the test master. Tests are in the crate
//! `mesosev_serve_tests`.

mod connection;
mod exporting;
mod lines;
mod opening_events;
mod outgoing;
mod request;
mod respond;
mod response;
mod response_writer;
mod serve;
mod subscribing;
mod theorems;

pub use connection::Served;
pub use exporting::export_over;
pub use lines::WRITE_FAILED;
pub use mes_double_master::call_name;
pub use serve::serve_one;
pub use subscribing::{report_unsent, send_subscribe, show_answer, subscribe_over};
pub use theorems::serve_laws;
