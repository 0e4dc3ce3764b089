//! Tests of the crate `mes_session` through its public functions. Scripts of events and calls state
//! the result and the state after each line; `support` has the format.
#![tactic(auto)]

#[cfg(test)]
mod calls;
#[cfg(test)]
mod histories;
#[cfg(test)]
mod refusals;
#[cfg(test)]
mod support;
