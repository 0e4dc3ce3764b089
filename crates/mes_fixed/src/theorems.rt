//! Facts about all texts of numbers, stated as contracts of functions that do nothing.
ghost use Rattle.std.specs.Prelude.{◌≡◌, ◌↔◌, ◌^◌, ◌≤◌, ℕ, List};
ghost use Rattle.mes_fixed.specs.Automaton.{Ends};
ghost use Rattle.mes_fixed.specs.FixedText.{WritesUnits};
ghost use Rattle.mes_fixed.specs.Number.{IsNumber};
ghost use Rattle.mes_fixed.specs.Text.{text_of};
ghost use Rattle.mes_fixed.specs.declared.automaton.NumberState.TheVariants.{AtStart};

use crate::limits::{MAX_EXPONENT, MAX_NUMBER_TEXT, MAX_UNITS};

/// Proves that the automaton accepts exactly the numbers of RFC 8259 section 6.
pub fn automaton_reads_numbers()
    ensures { (text : List ℕ) → IsNumber text ↔ Ends AtStart text }
{}

/// Proves that exactly one text writes a number of units without needless zeros, and that
/// [`Fixed::write`](crate::Fixed::write) writes that text.
pub fn fixed_text()
    // For 1 to 6 places and at most MAX_UNITS units: the written text is the only text of the form.
    ensures { (places units : ℕ) → 1 ≤ places → places ≤ 6 → units ≤ MAX_UNITS
        → (text : List ℕ) → (text ≡ text_of places units) ↔ WritesUnits places units text }
{}

/// Proves the limits: 64 bytes of text, 10^18 units, an exponent of 100.
pub fn number_limits()
    ensures text { MAX_NUMBER_TEXT ≡ 64 }
    ensures units { MAX_UNITS ≡ 10 ^ 18 }
    ensures exponent { MAX_EXPONENT ≡ 100 }
{}
