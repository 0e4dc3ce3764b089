//! Tests of events and calls with the public functions of `mes_msg`. Most tests have a table of
//! JSON texts, each with the expected result.
#![tactic(auto)]

#[cfg(test)]
mod calls;
#[cfg(test)]
mod encode;
#[cfg(test)]
mod faults;
#[cfg(test)]
mod record;
#[cfg(test)]
mod show;
#[cfg(test)]
mod support;
#[cfg(test)]
mod written;
