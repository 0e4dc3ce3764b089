//! Tests of the crate `mes_session_fit` through its public functions. Each row of a test table has
//! offers, tasks and the expected result, which was derived by hand; `support` has the format.
#![tactic(auto)]

#[cfg(test)]
mod amounts;
#[cfg(test)]
mod keys;
#[cfg(test)]
mod order;
#[cfg(test)]
mod pieces;
#[cfg(test)]
mod slices;
#[cfg(test)]
mod support;
