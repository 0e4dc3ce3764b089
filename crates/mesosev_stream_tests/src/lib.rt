//! Tests of `check`, `show` and `convert` through the public functions of `mesosev_stream`. The
//! devices are in memory, and read and write a few bytes at a time, or fail.
#![tactic(auto)]

#[cfg(test)]
mod json_lines;
#[cfg(test)]
mod output;
#[cfg(test)]
mod run;
