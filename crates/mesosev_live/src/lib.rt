#![tactic(auto)]
//! The subcommand `master` of `mesosev`: a live test master over TCP sockets, in one thread.
//!
//! [`master`] serves any number of requests on up to 64 connections, keeps the stream of a
//! subscribed scheduler open, and takes events from standard input while it runs. What is sent and
//! answered is decided by a [`Desk`]; `mes_double_live::Live` is one.
//!
//!     let outcome = master(rt, &options, &plan, input, out);
//!     let status = finish(outcome, out.is_closed(), err);
//!
//! - `server`: the loop over ready sockets, and the state that it changes.
//! - `places`, `connection`, `outgoing`, `transfer`: the connections, and their reads and writes.
//! - `lines`, `printing`: the printed lines, and when they are written.
//! - `input`: the events of standard input.
//! - `live_desk`, `live_master`: `Live` as a [`Desk`]; the options, and the beginning and the end
//!   of a run.
//!
//! The contracts promise that the loop changes the test master only by the inputs of a [`Desk`]
//! ([`serve_desk`]), so that a live master launches no task twice and takes no offer twice
//! ([`run_live`]). Each request on a connection has one response, in order ([`connection_laws`],
//! [`turn_laws`]).
//!
//! Only the wait for the next ready socket blocks. Standard input is read only when it is ready.
//! Lines that the reader of standard output does not take are dropped and counted. The tests run
//! the program: see `tests/live.py`.

mod connection;
mod desk;
mod input;
mod limits;
mod lines;
mod live_desk;
mod live_master;
mod outgoing;
mod page;
mod places;
mod printing;
mod server;
mod theorems;
mod time;
mod transfer;

pub use desk::{Answered, Desk};
pub use limits::{MAX_CONNECTIONS, MAX_LINES, MAX_STREAM_UNREAD, MAX_STREAMS};
pub use live_master::{EndedRun, MasterOptions, master, run_live, serve_desk};
pub use theorems::{connection_laws, turn_laws};
