//! Compares results of reading numbers with words of the tables.
use mes_fixed::{Fixed, NumFault};
use std::alloc::{AllocError, Global};
use std::fmt::Display;

/// Prints the number, or `L` (too long), `S` (not a number) or `R` (out of range).
fn word_of<T: Display>(alloc: Global, reading: Result<T, NumFault>) -> Result<String, AllocError>
where
    T: Drop,
{
    match reading {
        Ok(number) => format!(in alloc; "{number}"),
        Err(NumFault::TooLong) => format!(in alloc; "L"),
        Err(NumFault::Shape) => format!(in alloc; "S"),
        Err(NumFault::Range) => format!(in alloc; "R"),
    }
}

/// Returns whether the printed number or error is `word`.
pub(crate) fn is_word<T: Display>(
    alloc: Global,
    reading: Result<T, NumFault>,
    word: &str,
) -> Result<bool, AllocError>
where
    T: Drop,
{
    Ok(word_of(alloc, reading)?.as_str() == word)
}

/// Returns the units of a number that was read.
pub(crate) fn units_of<const P: u32>(reading: Result<Fixed<P>, NumFault>) -> Result<u64, NumFault> {
    reading.map(|number| number.units())
}
