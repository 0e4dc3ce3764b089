//! Decimal ASCII digits and their values.
ghost use Rattle.std.specs.Prelude.{◌≡◌, ℕ, ◌+◌, ◌*◌, ◌^◌, ◌<◌, ◌≤◌, ◌↔◌, length, IsTrue, IfSome, IfNone};
ghost use Rattle.std.specs.Str.Parse.{AllDigits, digits_value};
ghost use Rattle.mes_fixed.specs.Cut.{CutIs};

/// The comparison of a dropped fraction with one half.
#[derive(Clone, Copy, Debug, PartialEq, Eq)]
pub enum Cut {
    Nothing,
    BelowHalf,
    HalfOrMore,
}

/// Returns the value of `digits`, or `None` if it is 2^64 or more.
#[tactic(auto, using(crate::proofs::DigitValues::value_more, crate::proofs::DigitValues::value_more_le, crate::proofs::DigitValues::digit_low))]
pub fn value_of(digits: &[u8]) -> Option<u64>
    requires { AllDigits 10 digits.now }
    ensures some { IfSome result (λ value. value ≡ digits_value 10 digits.now) }
    ensures none { IfNone result (2 ^ 64 ≤ digits_value 10 digits.now) }
{
    let mut value: u64 = 0;
    for digit in digits {
        value = value
            .checked_mul(10)?
            .checked_add(u64::from(*digit - b'0'))?;
    }
    Some(value)
}

/// Returns `number` times 10^`zeros`, or `None` if that is 2^64 or more.
#[tactic(auto, using(crate::proofs::DigitValues::zeros_more, crate::proofs::DigitValues::zeros_more_le))]
pub fn with_zeros(number: u64, zeros: usize) -> Option<u64>
    ensures some { IfSome result (λ value. value ≡ number * 10 ^ zeros) }
    ensures none { IfNone result (2 ^ 64 ≤ number * 10 ^ zeros) }
{
    let mut value = number;
    for _ in 0..zeros {
        value = value.checked_mul(10)?;
    }
    Some(value)
}

/// Returns whether every digit is a zero.
pub fn are_zeros(digits: &[u8]) -> bool
    requires { AllDigits 10 digits.now }
    ensures { IsTrue result ↔ (digits_value 10 digits.now ≡ 0) }
{
    digits.iter().all(|digit| *digit == b'0')
}

/// Compares a fraction of `places` digits with one half. `dropped` are the last digits of the
/// fraction; the others are zeros.
pub fn cut_of(dropped: &[u8], places: usize) -> Cut
    requires digits { AllDigits 10 dropped.now }
    requires some { 0 < places }
    requires short { length dropped.now ≤ places }
    ensures { CutIs result (digits_value 10 dropped.now) (10 ^ places) }
{
    if are_zeros(dropped) {
        Cut::Nothing
    } else if dropped.len() == places && dropped[0] >= b'5' {
        Cut::HalfOrMore
    } else {
        Cut::BelowHalf
    }
}
