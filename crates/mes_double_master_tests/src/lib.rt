//! Tests of the crate `mes_double_master` through its public functions. Tables of actions state the
//! result of each action and the master's state after it; `support` describes the format.
#![tactic(auto)]

#[cfg(test)]
mod breaks;
#[cfg(test)]
mod calls;
#[cfg(test)]
mod counts;
#[cfg(test)]
mod intervals;
#[cfg(test)]
mod sends;
#[cfg(test)]
mod statuses;
#[cfg(test)]
mod support;
