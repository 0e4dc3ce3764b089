//! Decimal numbers with a fixed number of places. Integers are in `whole`.
ghost use Rattle.std.specs.Prelude.{◌≡◌, ℕ, ◌+◌, ◌-◌, ◌^◌, ◌<◌, ◌≤◌, ◌++◌, SomeIff, Some, Ok, IfOk, IfErr};
ghost use Rattle.arrayvec.specs.ArrayString.{array_string_len};
ghost use Rattle.mes_fixed.specs.Text.{fraction_text, text_of};
ghost use Rattle.mes_fixed.specs.Value.{GivesUnits, LacksUnits, Reads, Refuses};

use crate::decimal::Decimal;
use crate::fault::NumFault;
use crate::limits::MAX_UNITS;
use crate::plain::plain_units;
use arrayvec::ArrayString;
use itoa::Buffer;
use std::fmt;
use std::marker::Model;

/// A non-negative decimal number with `P` places (1 to 6): a count of units of 10^-`P`, at most
/// `MAX_UNITS`. Ordered by units; printed as [`Fixed::write`] writes it.
#[derive(Clone, Copy, Debug, PartialEq, Eq, PartialOrd, Ord)]
pub struct Fixed<const P: u32> {
    units: u64,
}

impl<const P: u32> Model for Fixed<P> {
    ghost use Rattle.std.specs.Prelude.{ℕ, ◌≤◌};
    ghost use Rattle.mes_fixed.specs.declared.limits.TheConstants.{MAX_UNITS};

    ghost Value = { ℕ };

    ghost view = { λ f. f.units };

    ghost invariant = { λ f. (f.units ≤ MAX_UNITS) × (1 ≤ P) × (P ≤ 6) };

    ghost inverse = { λ n. record { units = n } };
}

/// A number with three decimal places.
pub type Thousandths = Fixed<3>;

/// A number with six decimal places.
pub type Micros = Fixed<6>;

impl<const P: u32> Fixed<P> {
    /// Returns the number with this count of units, or `None` above `MAX_UNITS`.
    pub fn of_units(units: u64) -> Option<Self>
        requires places { (1 ≤ P) × (P ≤ 6) }
        ensures { SomeIff result (units ≤ MAX_UNITS) units }
    {
        if units <= MAX_UNITS {
            Some(Fixed { units })
        } else {
            None
        }
    }

    /// Returns the count of units.
    pub fn units(&self) -> u64
        ensures value { result ≡ self.now }
        ensures bound { result ≤ MAX_UNITS }
    {
        self.units
    }

    /// Returns the sum, or `None` above `MAX_UNITS`.
    pub fn checked_add(self, other: Self) -> Option<Self>
        ensures { SomeIff result (self.entry + other.entry ≤ MAX_UNITS) (self.entry + other.entry) }
    {
        Self::of_units(self.units + other.units)
    }

    /// Returns the difference, or `None` below zero.
    pub fn checked_sub(self, other: Self) -> Option<Self>
        ensures { SomeIff result (other.entry ≤ self.entry) (self.entry - other.entry) }
    {
        let units = self.units.checked_sub(other.units)?;
        Some(Fixed { units })
    }

    /// Reads a JSON number (RFC 8259 section 6) and rounds it to the nearest unit, halves up. `-0`
    /// is 0.
    pub fn read(text: &[u8]) -> Result<Self, NumFault>
        requires places { (1 ≤ P) × (P ≤ 6) }
        // On success: the rounded number. Every number in range is read.
        ensures ok { IfOk result (Reads (GivesUnits P) text.now) }
        ensures only { (units : ℕ) → Reads (GivesUnits P) text.now units → result ≡ Ok units }
        // `TooLong`: over MAX_NUMBER_TEXT bytes; else `Shape`: no number; else `Range`: negative or
        // too large.
        ensures fault { IfErr result (Refuses (LacksUnits P) text.now) }
    {
        if let Some(units) = plain_units(text, P as usize) {
            if let Some(fixed) = Self::of_units(units) {
                return Ok(fixed);
            }
        }
        let decimal = Decimal::read(text)?;
        if decimal.is_below_zero() {
            return Err(NumFault::Range);
        }
        let Some(units) = decimal.rounded(P as usize) else {
            return Err(NumFault::Range);
        };
        Self::of_units(units).ok_or(NumFault::Range)
    }

    /// Replaces `text` with the number: the integer part, a point, and 1 to `P` digits without
    /// needless trailing zeros, such as `1.5` and `2.0`.
    pub fn write(&self, text: &mut ArrayString<24>)
        ensures text { text.new.bytes ≡ text_of P self.now }
        // Reading `text` returns the number again.
        ensures back { Reads (GivesUnits P) text.new.bytes self.now }
    {
        let units = self.units;
        let scale = 10u64.pow(P);
        text.clear();
        text.push_str(Buffer::new().format(units / scale));
        text.push('.');
        push_fraction(text, P, units % scale);
    }
}

/// Appends the fraction of `rest` units of 10^-`places`, without needless trailing zeros.
fn push_fraction(text: &mut ArrayString<24>, places: u32, mut rest: u64)
    requires places { (1 ≤ places) × (places ≤ 6) }
    requires rest { rest < 10 ^ places }
    requires room { array_string_len text.old + places ≤ 24 }
    ensures { text.new.bytes ≡ text.old.bytes ++ fraction_text places rest }
{
    for place in (0..places).rev() {
        let scale = 10u64.pow(place);
        text.push(char::from(b'0' + (rest / scale) as u8));
        rest %= scale;
        if rest == 0 {
            return;
        }
    }
}

impl<const P: u32> fmt::Display for Fixed<P> {
    ghost output = { λ f. Some (text_of P f) };

    fn fmt<W: fmt::Write>(&self, f: &mut fmt::Formatter<W>) -> fmt::Result {
        let mut text = ArrayString::new();
        self.write(&mut text);
        f.write_str(text.as_str())
    }
}

impl Default for Thousandths {
    ghost is_default = { λ f. f ≡ 0 };

    fn default() -> Self {
        Fixed { units: 0 }
    }
}

impl Default for Micros {
    ghost is_default = { λ f. f ≡ 0 };

    fn default() -> Self {
        Fixed { units: 0 }
    }
}
