#![tactic(auto)]
//! The bodies of the calls of the Apache Mesos v1 scheduler API in JSON.
//!
//! - `subscribe`, `accept`, `decline`, `kill`, `acknowledge`, `reconcile`, `shutdown`: one body
//!   each. The body of MESSAGE is in the crate `mes_msg_record`.
//! - `operation`: the operations of ACCEPT; LAUNCH is the only one that is supported.
//!
//! Each body is read from a token tape, copied, and written as a JSON tree or as text. The crate
//! `mes_msg_call` reads calls.
//!
//!     let body = Kill::read_from(alloc, &tape.root(), &PathBuilder::new())?;
//!
//! Programs use the crate `mes_msg`. The tests are in `mes_msg_tests`.

mod accept;
mod acknowledge;
mod decline;
mod kill;
mod operation;
mod reconcile;
mod shutdown;
mod subscribe;

pub use accept::Accept;
pub use acknowledge::Acknowledge;
pub use decline::Decline;
pub use kill::Kill;
pub use operation::Operation;
pub use reconcile::Reconcile;
pub use shutdown::Shutdown;
pub use subscribe::Subscribe;
