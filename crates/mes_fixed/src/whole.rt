//! Integers from JSON numbers: `3`, `3.0` and `3e0` are all 3. Decimal numbers are in
//! `fixed_point`.
ghost use Rattle.std.specs.Prelude.{◌≡◌, ℕ, ℤ, ◌<◌, ◌^◌, SomeIff, Bool, Ok, IfOk, IfErr, FitsSigned};
ghost use Rattle.std.specs.Int.{w32};
ghost use Rattle.mes_fixed.specs.Value.{GivesWhole, LacksWhole, GivesSigned, LacksSigned, Reads, Refuses, signed};

use crate::decimal::Decimal;
use crate::fault::NumFault;
use crate::plain::plain_whole;

/// Reads an unsigned integer of 64 bits from a JSON number (RFC 8259 section 6). `-0` is 0.
pub fn read_u64(text: &[u8]) -> Result<u64, NumFault>
    // On success: the exact value. Every integer in range is read.
    ensures ok { IfOk result (Reads GivesWhole text.now) }
    ensures only { (value : ℕ) → Reads GivesWhole text.now value → result ≡ Ok value }
    // `TooLong`: over MAX_NUMBER_TEXT bytes; else `Shape`: no number; else `Range`: no integer of
    // 64 bits.
    ensures fault { IfErr result (Refuses LacksWhole text.now) }
{
    if let Some(value) = plain_whole(text) {
        return Ok(value);
    }
    let decimal = Decimal::read(text)?;
    if decimal.is_below_zero() {
        return Err(NumFault::Range);
    }
    decimal.whole().ok_or(NumFault::Range)
}

/// Reads a signed integer of 32 bits from a JSON number (RFC 8259 section 6).
pub fn read_i32(text: &[u8]) -> Result<i32, NumFault>
    // On success: the exact value. Every integer in range is read.
    ensures ok { IfOk result (Reads GivesSigned text.now) }
    ensures only { (value : ℤ) → Reads GivesSigned text.now value → result ≡ Ok value }
    // `TooLong`: over MAX_NUMBER_TEXT bytes; else `Shape`: no number; else `Range`: no integer of
    // 32 bits.
    ensures fault { IfErr result (Refuses LacksSigned text.now) }
{
    let decimal = Decimal::read(text)?;
    let Some(size) = decimal.whole() else {
        return Err(NumFault::Range);
    };
    with_sign(decimal.negative, size).ok_or(NumFault::Range)
}

/// Applies the sign to the magnitude `size`. Returns `None` if the result exceeds 32 bits.
fn with_sign(negative: bool, size: u64) -> Option<i32>
    ensures { SomeIff result (FitsSigned w32 (signed negative size)) (signed negative size) }
{
    let size = i64::try_from(size).ok()?;
    i32::try_from(if negative { -size } else { size }).ok()
}
