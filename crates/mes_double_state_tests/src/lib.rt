//! Tests of the crate `mes_double_state`: the text of the state after a sequence of inputs.
#![tactic(auto)]

#[cfg(test)]
mod states;
#[cfg(test)]
mod support;
