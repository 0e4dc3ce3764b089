#![tactic(auto)]
//! A test double of the scheduler API: a session and a test master, with lost, late and repeated
//! messages between them.
//!
//!     let moves = [Move::Resubscribe, Move::Hear];
//!     let world = run_world(alloc, framework, ids, &moves)?;
//!
//! The contracts state the world after each list of moves. `world_laws` proves what holds in every
//! world, such as that no task is launched twice. The crates `mes_double_master` (the master) and
//! `mes_double_http` (HTTP heads) are re-exported here. Their tests are in
//! `mes_double_master_tests` and `mes_double_http_tests`; `mes_double_worlds` is a program that
//! runs lists of moves.

mod moves;
mod running;
mod sent;
mod theorems;
mod world;

pub use mes_double_http::{
    HeadFault, MAX_BODY, MAX_FIELDS, MAX_HEAD, MAX_HEAD_FAULT, MAX_HOST, MAX_LENGTH_DIGITS,
    MAX_STREAM_ID, Request, StreamId, read_answer, read_head, read_request, write_call, write_ok,
    write_status,
};
pub use mes_double_master::{Answer, Master, MasterRefusal};
pub use moves::Move;
pub use running::run_world;
pub use sent::Sent;
pub use theorems::world_laws;
pub use world::World;
