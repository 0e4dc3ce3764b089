#![tactic(auto)]
//! The state of a framework's session, and the calls that it refuses.
//!
//! - `outstanding_offers`, `update_keys`: the two collections of the state.
//! - `call_check`: checks a call against the state; `refusal` has the reasons for a refusal.
//! - `named_offers`: the offers that a call names; `duplicates`: search for duplicate identifiers;
//!   `slot`: the entries of the map of outstanding offers.
//!
//!     let reason = CallCheck::new(framework, connected, &hand, &owed).refusal(&call);
//!
//! The crate `mes_session_fit` decides S6 (`Exceeds`). Programs use `mes_session`; the tests are in
//! `mes_session_tests`.

mod call_check;
mod duplicates;
mod named_offers;
mod outstanding_offers;
mod refusal;
mod slot;
mod theorems;
mod update_keys;

pub use call_check::CallCheck;
pub use outstanding_offers::OutstandingOffers;
pub use refusal::Refusal;
pub use theorems::refusal_laws;
pub use update_keys::UpdateKeys;
