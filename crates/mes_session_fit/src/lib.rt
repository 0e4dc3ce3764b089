#![tactic(auto)]
//! Decides whether tasks fit the offers that they are launched on (mesos.proto,
//! `Offer.Operation.Launch`).
//!
//!     let breach = first_breach(&offers.as_slice(), operations);
//!
//! Scalar amounts are compared as sums by key. Each point of a range and each item of a set must be
//! offered, and only one task may take it. The contract promises the first resource that does not
//! fit.
//!
//! `fit_check` has the search for that resource, and `supply`, `unoffered_pieces` and `other_tasks`
//! the three checks of a resource. `range_walk`, `shared_pieces` and `batch` are parts of the
//! checks, and `key` compares keys. The crate `mes_session_state` uses this crate for the refusal
//! S6 (`Exceeds`). The tests are in `mes_session_fit_tests`.

mod batch;
mod fit_check;
mod key;
mod offer_list;
mod other_tasks;
mod range_walk;
mod shared_pieces;
mod supply;
mod task_group;
mod theorems;
mod unoffered_pieces;

pub use fit_check::{Breach, first_breach};
pub use offer_list::OfferList;
pub use task_group::TaskGroup;
pub use theorems::fits_laws;
