//! The fast path for numbers without a sign and an exponent: digits, perhaps with a point and
//! digits after it. Any other text is left to `Decimal`, which also reports all errors.
ghost use Rattle.std.specs.Prelude.{◌≡◌, ◌≤◌, ◌<◌, ◌^◌, length, slice_index, IsTrue, IfSome};
ghost use Rattle.std.specs.Str.Parse.{AllDigits, digits_value_after};
ghost use Rattle.mes_fixed.specs.declared.limits.TheConstants.{MAX_NUMBER_TEXT, MAX_UNITS};
ghost use Rattle.mes_fixed.specs.Number.{IsInt};
ghost use Rattle.mes_fixed.specs.Value.{GivesUnits, GivesWhole, Reads};

use crate::digits::with_zeros;
use crate::limits::MAX_NUMBER_TEXT;

/// Reads digits, a point and at most `places` digits as units of 10^-`places`. Returns `None` for
/// any other text, and if the units are 2^64 or more.
#[inline(always)]
pub fn plain_units(text: &[u8], places: usize) -> Option<u64>
    requires { places ≤ 6 }
    ensures { IfSome result (λ units. units ≤ MAX_UNITS
        → Reads (GivesUnits places) text.now units) }
{
    if text.len() > MAX_NUMBER_TEXT {
        return None;
    }
    let point = point_in(text)?;
    let (whole, rest) = text.split_at(point);
    let fraction = &rest[1..];
    if !may_be_int(whole) || fraction.is_empty() || fraction.len() > places {
        return None;
    }
    let value = with_digits(with_digits(0, whole)?, fraction)?;
    with_zeros(value, places - fraction.len())
}

/// Reads digits only. Returns `None` for any other text, and if the value is 2^64 or more.
#[inline(always)]
pub fn plain_whole(text: &[u8]) -> Option<u64>
    ensures { IfSome result (λ value. Reads GivesWhole text.now value) }
{
    if text.len() > MAX_NUMBER_TEXT || !may_be_int(text) {
        return None;
    }
    with_digits(0, text)
}

/// Returns the offset of the first decimal point.
#[inline(always)]
fn point_in(text: &[u8]) -> Option<usize>
    ensures { IfSome result (λ at. (at < length text.now) × (slice_index text.now at ≡ 46)) }
{
    for (at, byte) in text.iter().enumerate() {
        if *byte == b'.' {
            return Some(at);
        }
    }
    None
}

/// Returns whether digits are an `int` (RFC 8259 section 6): not empty, no leading zero.
#[inline(always)]
fn may_be_int(digits: &[u8]) -> bool
    ensures { IsTrue result → AllDigits 10 digits.now → IsInt digits.now }
{
    match digits {
        [] => false,
        [b'0', rest @ ..] => rest.is_empty(),
        _ => true,
    }
}

/// Appends digits to the decimal number `value`. Returns `None` if a byte is no digit, and if the
/// value is 2^64 or more.
#[inline(always)]
fn with_digits(value: u64, digits: &[u8]) -> Option<u64>
    ensures digits { IfSome result (λ more. AllDigits 10 digits.now
        × (more ≡ digits_value_after 10 value digits.now)) }
    ensures bound { IfSome result (λ more. more < 2 ^ 64) }
{
    let mut more = value;
    for digit in digits {
        if !digit.is_ascii_digit() {
            return None;
        }
        more = more.checked_mul(10)?.checked_add(u64::from(*digit - b'0'))?;
    }
    Some(more)
}
