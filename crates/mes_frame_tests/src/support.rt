//! Bytes, and the end of a record or of a body, as text.
use std::alloc::{AllocError, Global};
use std::fmt::Debug;

/// Prints the number of bytes consumed and the result that ended the input, or `no end`.
pub(crate) fn end_text<T: Debug + Copy>(
    alloc: Global,
    end: Option<(usize, T)>,
) -> Result<String, AllocError> {
    match end {
        Some((taken, out)) => format!(in alloc; "{taken} {out:?}"),
        None => String::from_str(alloc, "no end"),
    }
}

/// Returns the bytes as text, so that a failed test prints it.
pub(crate) fn as_text(bytes: &[u8]) -> Option<&str> {
    str::from_utf8(bytes).ok()
}
