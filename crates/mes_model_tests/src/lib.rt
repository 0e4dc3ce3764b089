//! Tests of messages with the public functions of `mes_model` and of the crates that it re-exports.
//! Most tests have a table of JSON texts, each with the expected result.
#![tactic(auto)]

#[cfg(test)]
mod frameworks;
#[cfg(test)]
mod offers;
#[cfg(test)]
mod resources;
#[cfg(test)]
mod schema;
#[cfg(test)]
mod statuses;
#[cfg(test)]
mod support;
#[cfg(test)]
mod tasks;
#[cfg(test)]
mod values;
