//! Tests of the crate `mes_session_log` through its public functions: worked examples, and logs
//! that are cut, end early or fail.
#![tactic(auto)]

#[cfg(test)]
mod devices;
#[cfg(test)]
mod reading;
#[cfg(test)]
mod support;
#[cfg(test)]
mod writing;
