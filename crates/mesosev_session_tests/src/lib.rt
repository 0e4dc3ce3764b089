//! Tests of the crate `mesosev_session` through its public functions.
#![tactic(auto)]

#[cfg(test)]
mod fits;
#[cfg(test)]
mod logs;
#[cfg(test)]
mod sessions;
#[cfg(test)]
mod support;
