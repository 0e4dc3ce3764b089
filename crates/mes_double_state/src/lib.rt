#![tactic(auto)]
//! The state of a live test master as one JSON object.
//!
//!     let text = state_text(alloc, &live)?;
//!
//! - `state`: the members of the object.
//! - `offers`, `tasks`, `updates`, `log`: the items of its arrays.
//! - `json`: arrays, and members of objects.
//!
//! `mes_double_live` has the live test master, and `mesosev_live` serves it.

mod json;
mod log;
mod offers;
mod state;
mod tasks;
mod updates;

pub use state::state_text;
