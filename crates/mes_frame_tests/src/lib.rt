//! Tests of framing by the public calls of `mes_frame`: records, chunks, devices and writers.
#![tactic(auto)]

#[cfg(test)]
mod chunks;
#[cfg(test)]
mod devices;
#[cfg(test)]
mod memory;
#[cfg(test)]
mod records;
#[cfg(test)]
mod support;
#[cfg(test)]
mod writers;
