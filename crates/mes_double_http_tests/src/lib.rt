//! Tests of the crate `mes_double_http` through its public functions: worked examples, incomplete
//! and invalid heads, and request smuggling.
#![tactic(auto)]

#[cfg(test)]
mod limits;
#[cfg(test)]
mod pages;
#[cfg(test)]
mod received;
#[cfg(test)]
mod requests;
#[cfg(test)]
mod responses;
#[cfg(test)]
mod software;
#[cfg(test)]
mod support;
#[cfg(test)]
mod writers;
