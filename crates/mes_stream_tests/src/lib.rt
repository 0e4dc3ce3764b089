//! Tests of the crate `mes_stream` through its public functions: worked examples, and streams that
//! arrive in pieces, end early or fail.
#![tactic(auto)]

#[cfg(test)]
mod calls;
#[cfg(test)]
mod lines;
#[cfg(test)]
mod messages;
#[cfg(test)]
mod stream;
#[cfg(test)]
mod support;
