//! Tests of the crate `mesosev_serve` through its public functions, on devices in memory: tables of
//! requests with the responses and the printed lines, and connections that fail at each byte.
#![tactic(auto)]

#[cfg(test)]
mod answers;
#[cfg(test)]
mod broken;
#[cfg(test)]
mod ends;
#[cfg(test)]
mod requests;
#[cfg(test)]
mod streams;
#[cfg(test)]
mod support;
