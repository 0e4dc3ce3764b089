//! Limits of number texts and values.

/// The maximum number of bytes of a number's text.
pub const MAX_NUMBER_TEXT: usize = 64;

/// The maximum number of units of a fixed-point number, 10^18.
pub const MAX_UNITS: u64 = 1_000_000_000_000_000_000;

/// The cap of an exponent's magnitude. In a text of `MAX_NUMBER_TEXT` bytes a larger exponent has
/// the same outcome: the number is out of range, or no digit is left.
pub const MAX_EXPONENT: usize = 100;
