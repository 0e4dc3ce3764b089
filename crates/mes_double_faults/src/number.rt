//! The numbers in the texts of faults.
ghost use Rattle.std.specs.Prelude.{◌≤◌, IfSome, IsNone, Some};
ghost use Rattle.mes_double_faults.specs.Texts.{Writes, HasNoNumber, ArePair, HasNoPair, IsPlace};

/// The greatest number of an event, of a call, or of bytes.
pub const MAX_NUMBER: u32 = 1_000_000_000;

/// The greatest number of seconds.
pub const MAX_SECONDS: u32 = 1_000_000_000;

/// Returns the number from `least` to `greatest` that the text is in decimal digits.
pub(crate) fn number(text: &str, least: u32, greatest: u32) -> Option<u32>
    ensures some { IfSome result (λ n. Writes text.now n × (least ≤ n) × (n ≤ greatest)) }
    ensures none { IsNone result → HasNoNumber text.now least greatest }
{
    match text.parse::<u32>() {
        Ok(number) if least <= number && number <= greatest => Some(number),
        _ => None,
    }
}

/// Returns the two numbers that the text is, with a colon between them: that of an event or call, and
/// one from `least` to `greatest`.
pub(crate) fn pair(text: &str, least: u32, greatest: u32) -> Option<(u32, u32)>
    ensures some { IfSome result (λ numbers. ArePair text.now numbers.0 numbers.1 × IsPlace numbers.0
        × (least ≤ numbers.1) × (numbers.1 ≤ greatest)) }
    ensures none { IsNone result → HasNoPair text.now least greatest }
{
    let (first, second) = text.split_once(':')?;
    let place = number(first, 1, MAX_NUMBER)?;
    let amount = number(second, least, greatest)?;
    Some((place, amount))
}
