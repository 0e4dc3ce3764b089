//! Scans the digits of numbers.
ghost use Rattle.std.specs.Prelude.{◌≡◌, ◌↔◌, ◌<◌, ◌≤◌, IsTrue, Some, None, length, take, slice_index};
ghost use Rattle.std.specs.List.{AllByRecursion};
ghost use Rattle.mes_fixed.specs.Automaton.{letter_of, number_next};
ghost use Rattle.mes_json.specs.Reader.{IsDigit, KeepsOn, part_after};
ghost use Rattle.mes_fixed.specs.declared.automaton.NumberState.TheVariants.{AtStart};

use mes_fixed::automaton::{NumberState, next_state};

/// Returns whether a digit leaves a number in the state `part` (RFC 8259 section 6).
pub(crate) fn continues_number(part: NumberState) -> bool
    ensures { IsTrue result ↔ KeepsOn part }
{
    match part {
        NumberState::InWhole => true,
        NumberState::InFraction => true,
        NumberState::InExponent => true,
        _ => false,
    }
}

fn is_digit(byte: u8) -> bool
    ensures { IsTrue result ↔ IsDigit byte }
{
    byte >= b'0' && byte <= b'9'
}

/// Returns the number of digits at the front of `bytes`.
pub(crate) fn digit_run(bytes: &[u8]) -> usize
    ensures inside { result ≤ length bytes.now }
    ensures digits { AllByRecursion IsDigit (take result bytes.now) }
    ensures maximal { result < length bytes.now → IsDigit (slice_index bytes.now result) → ⊥ }
{
    for (place, byte) in bytes.iter().enumerate() {
        if !is_digit(*byte) {
            return place;
        }
    }
    bytes.len()
}

/// Returns the length of the longest prefix that some number begins with, and the state of the
/// number after that prefix.
pub(crate) fn number_run(bytes: &[u8]) -> (usize, NumberState)
    ensures inside { result.0 ≤ length bytes.now }
    ensures leads { part_after AtStart (take result.0 bytes.now) ≡ Some result.1 }
    ensures maximal { result.0 < length bytes.now
        → number_next result.1 (letter_of (slice_index bytes.now result.0)) ≡ None }
{
    let mut part = NumberState::AtStart;
    for (place, byte) in bytes.iter().enumerate() {
        if is_digit(*byte) && continues_number(part) {
            continue;
        }
        match next_state(part, *byte) {
            Some(next) => part = next,
            None => return (place, part),
        }
    }
    (bytes.len(), part)
}
