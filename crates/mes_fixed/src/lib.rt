//! Reads JSON numbers (RFC 8259 section 6) exactly, as fixed-point decimals and as integers.
//!
//! No function allocates or computes with floating point. A fixed-point number is rounded once, to
//! the nearest unit; an integer is never rounded.
//!
//! ```ignore
//! let cpus = Thousandths::read(b"1.5")?; // 1500 units, printed as 1.5
//! let count = read_u64(b"3e2")?;         // 300
//! let fault = read_i32(b"0.5");          // Err(NumFault::Range)
//! ```
//!
//! [`NumFault`] lists the errors. Tests are in the crate `mes_fixed_tests`, definitions in
//! `specs/`.
#![tactic(auto)]

pub mod automaton;
mod decimal;
mod digits;
mod fault;
mod fixed_point;
mod limits;
mod plain;
mod theorems;
mod whole;

pub use automaton::is_number;
pub use fault::NumFault;
pub use fixed_point::{Fixed, Micros, Thousandths};
pub use limits::{MAX_NUMBER_TEXT, MAX_UNITS};
pub use theorems::{automaton_reads_numbers, fixed_text, number_limits};
pub use whole::{read_i32, read_u64};
