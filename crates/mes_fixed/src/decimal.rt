//! Splits the text of a number into its parts, and scales its digits to an integer. Digit
//! arithmetic is in `digits`, the fast path in `plain`.
ghost use Rattle.std.specs.Prelude.{◌≡◌, ℕ, ◌+◌, ◌*◌, ◌^◌, ◌<◌, ◌≤◌, ◌≢◌, ◌↔◌, true, length, IsTrue, IfSome, IfNone, IfOk, IfErr};
ghost use Rattle.std.specs.Str.Parse.{AllDigits};
ghost use Rattle.mes_fixed.specs.declared.limits.TheConstants.{MAX_NUMBER_TEXT, MAX_EXPONENT};

use crate::automaton::{NumberState, may_end, next_state};
use crate::digits::{Cut, are_zeros, cut_of, value_of, with_zeros};
use crate::fault::NumFault;
use crate::limits::{MAX_EXPONENT, MAX_NUMBER_TEXT};
use arrayvec::ArrayVec;

/// The parts of a number's text.
#[derive(Drop)]
pub struct Decimal {
    /// True if the number has a minus sign.
    pub negative: bool,
    /// The digits before and after the point, joined.
    pub digits: ArrayVec<u8, { MAX_NUMBER_TEXT }>,
    /// The number of digits after the point.
    pub fraction_digits: usize,
    /// True if the exponent has a minus sign.
    pub lowers: bool,
    /// The magnitude of the exponent, capped at `MAX_EXPONENT`.
    pub exponent: usize,
    ghost room: { length digits.items ≤ MAX_NUMBER_TEXT },
    ghost within: { fraction_digits ≤ length digits.items },
    ghost capped: { exponent ≤ MAX_EXPONENT },
}

/// A truncated number: the integer, and how the fraction compares with one half.
#[derive(Clone, Copy)]
pub struct Scaled {
    pub whole: u64,
    pub cut: Cut,
}

impl Decimal {
    ghost use Rattle.mes_fixed.specs.Number.{Numeral};
    ghost use Rattle.mes_fixed.specs.Gathering.{blank, gathered, IsExponentDigit, IsBeforePoint};
    ghost use Rattle.mes_fixed.specs.Value.{HalfUp, Reads, Refuses};
    ghost use Rattle.mes_fixed.specs.Decimal.{IsDecimal, value, raised, lowered, multiplied, divisor, IsCut, IsHuge};

    fn new() -> Self
        ensures { IsDecimal blank result }
    {
        Decimal {
            negative: false,
            digits: ArrayVec::new(),
            fraction_digits: 0,
            lowers: false,
            exponent: 0,
        }
    }

    /// Splits a text of at most `MAX_NUMBER_TEXT` bytes. Never returns `Range`.
    #[inline(always)]
    pub fn read(text: &[u8]) -> Result<Self, NumFault>
        ensures ok { IfOk result (Reads IsDecimal text.now) }
        ensures err { IfErr result (Refuses (λ _. ⊥) text.now) }
    {
        if text.len() > MAX_NUMBER_TEXT {
            return Err(NumFault::TooLong);
        }
        let mut decimal = Self::new();
        let mut state = NumberState::AtStart;
        for byte in text {
            let Some(next) = next_state(state, *byte) else {
                return Err(NumFault::Shape);
            };
            decimal.gather(next, *byte);
            state = next;
        }
        if may_end(state) {
            Ok(decimal)
        } else {
            Err(NumFault::Shape)
        }
    }

    /// Adds `byte` to the parts. The byte led to `state`.
    #[inline(always)]
    fn gather(&mut self, state: NumberState, byte: u8)
        requires room { length self.old.digits.items < MAX_NUMBER_TEXT }
        requires digit { IsExponentDigit state byte }
        ensures gathers { (n : Numeral) → IsDecimal n self.old → IsBeforePoint state n
            → IsDecimal (gathered state byte n) self.new }
        ensures room { length self.new.digits.items ≤ length self.old.digits.items + 1 }
    {
        match state {
            NumberState::AfterMinus => self.negative = true,
            NumberState::AfterZero | NumberState::InWhole => self.digits.push(byte),
            NumberState::InFraction => {
                self.digits.push(byte);
                self.fraction_digits += 1;
            }
            NumberState::AfterSign => self.lowers = byte == b'-',
            NumberState::InExponent => {
                let exponent = self.exponent * 10 + usize::from(byte - b'0');
                self.exponent = exponent.min(MAX_EXPONENT);
            }
            NumberState::AtStart | NumberState::AfterPoint | NumberState::AfterExponent => {}
        }
    }

    /// Returns whether the number is negative and not zero.
    pub fn is_below_zero(&self) -> bool
        requires { AllDigits 10 self.now.digits.items }
        ensures { IsTrue result ↔ (self.now.negative ≡ true) × (value self.now ≢ 0) }
    {
        self.negative && !are_zeros(&self.digits)
    }

    /// Returns the exponent of the power of ten that multiplies the digits.
    fn raised(&self, places: usize) -> usize
        requires { places ≤ 6 }
        ensures { result ≡ raised self.now places }
    {
        if self.lowers {
            places
        } else {
            self.exponent + places
        }
    }

    /// Returns the exponent of the power of ten that divides the digits.
    fn lowered(&self) -> usize
        ensures { result ≡ lowered self.now }
    {
        if self.lowers {
            self.fraction_digits + self.exponent
        } else {
            self.fraction_digits
        }
    }

    /// Truncates the magnitude times 10^`places` to an integer. Returns `None` if that is 2^64 or
    /// more.
    fn scaled(&self, places: usize) -> Option<Scaled>
        requires digits { AllDigits 10 self.now.digits.items }
        requires places { places ≤ 6 }
        ensures some { IfSome result (IsCut (multiplied self.now places)
            (divisor self.now places)) }
        ensures none { IfNone result (IsHuge (multiplied self.now places)
            (divisor self.now places)) }
    {
        let raised = self.raised(places);
        let lowered = self.lowered();
        if lowered <= raised {
            let whole = with_zeros(value_of(&self.digits)?, raised - lowered)?;
            return Some(Scaled {
                whole,
                cut: Cut::Nothing,
            });
        }
        let cut_digits = lowered - raised;
        let (kept, dropped) = self
            .digits
            .split_at(self.digits.len().saturating_sub(cut_digits));
        Some(Scaled {
            whole: value_of(kept)?,
            cut: cut_of(dropped, cut_digits),
        })
    }

    /// Rounds the magnitude times 10^`places` to the nearest integer, halves up. Returns `None` if
    /// the rounded integer is 2^64 or more.
    pub fn rounded(&self, places: usize) -> Option<u64>
        requires digits { AllDigits 10 self.now.digits.items }
        requires places { places ≤ 6 }
        ensures some { IfSome result (HalfUp (multiplied self.now places)
            (divisor self.now places)) }
        ensures none { IfNone result
            ((n : ℕ) × HalfUp (multiplied self.now places) (divisor self.now places) n
            × (2 ^ 64 ≤ n)) }
    {
        let scaled = self.scaled(places)?;
        match scaled.cut {
            Cut::HalfOrMore => scaled.whole.checked_add(1),
            Cut::Nothing | Cut::BelowHalf => Some(scaled.whole),
        }
    }

    /// Returns the magnitude, if it is an integer below 2^64.
    pub fn whole(&self) -> Option<u64>
        requires { AllDigits 10 self.now.digits.items }
        ensures some { IfSome result (λ v. multiplied self.now 0 ≡ v * divisor self.now 0) }
        ensures bound { IfSome result (λ v. v < 2 ^ 64) }
        ensures none { IfNone result
            ((v : ℕ) → multiplied self.now 0 ≡ v * divisor self.now 0 → 2 ^ 64 ≤ v) }
    {
        let scaled = self.scaled(0)?;
        match scaled.cut {
            Cut::Nothing => Some(scaled.whole),
            Cut::BelowHalf | Cut::HalfOrMore => None,
        }
    }
}
