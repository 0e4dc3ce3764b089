//! Tests of the public calls of `mes_fixed`, with values from exact arithmetic and from RFC 8259.
#![tactic(auto)]

#[cfg(test)]
mod numbers;
#[cfg(test)]
mod readings;
#[cfg(test)]
mod support;
