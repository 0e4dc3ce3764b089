#![tactic(auto)]
//! Functions that build calls from copies of their arguments.
//!
//!     let call = make_accept(alloc, &framework, &[offer_id], &[task], None)?;
//!
//! They do not check whether the call is allowed: the crate `mes_session_state` does that, and
//! `mes_session` uses both. Programs use `mes_session`; the tests are in `mes_session_tests`.

mod calls;
mod copies;

pub use calls::{
    make_accept, make_acknowledge, make_decline, make_kill, make_message, make_reconcile,
    make_revive, make_shutdown, make_subscribe, make_suppress, make_teardown,
};
