//! Tests of the crate `mes_double_cluster` through its public functions. Tables of actions state
//! the result of each action; `support` describes the format.
#![tactic(auto)]

#[cfg(test)]
mod offers;
#[cfg(test)]
mod statuses;
#[cfg(test)]
mod support;
#[cfg(test)]
mod tasks;
#[cfg(test)]
mod updates;
