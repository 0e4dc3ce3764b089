//! Tests of the public functions of `mes_json`. Expected values come from RFC 8259.
#![tactic(auto)]

#[cfg(test)]
mod cursor;
#[cfg(test)]
mod faults;
#[cfg(test)]
mod lexer;
#[cfg(test)]
mod pieces;
#[cfg(test)]
mod runs;
#[cfg(test)]
mod tape;
#[cfg(test)]
mod texts;
#[cfg(test)]
mod values;
