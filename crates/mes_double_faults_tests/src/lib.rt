//! Tests of the crate `mes_double_faults` through its public functions.
#![tactic(auto)]

#[cfg(test)]
mod draws;
#[cfg(test)]
mod plans;
#[cfg(test)]
mod texts;
