//! The automaton of JSON numbers (RFC 8259 section 6), for readers that take one byte at a time.
//! `decimal` runs the automaton over a text.
ghost use Rattle.std.specs.Prelude.{◌≡◌, ◌↔◌, IsTrue, IfSome};
ghost use Rattle.mes_fixed.specs.Automaton.{letter_of, number_next, is_final};
ghost use Rattle.mes_fixed.specs.Gathering.{IsExponentDigit};
ghost use Rattle.mes_fixed.specs.Number.{IsNumber};

/// The state of the automaton: the part of a number that the last byte belongs to.
#[derive(Clone, Copy, Debug, PartialEq, Eq)]
pub enum NumberState {
    /// No byte has been read.
    AtStart,
    /// The last byte is the minus sign.
    AfterMinus,
    /// The last byte is a zero, which is the whole integer part.
    AfterZero,
    /// The last byte is a digit of an integer part that begins with 1 to 9.
    InWhole,
    /// The last byte is the decimal point.
    AfterPoint,
    /// The last byte is a digit after the decimal point.
    InFraction,
    /// The last byte is the `e` or `E`.
    AfterExponent,
    /// The last byte is the sign of the exponent.
    AfterSign,
    /// The last byte is a digit of the exponent.
    InExponent,
}

/// Returns the state after `byte`, or `None` if no number continues with `byte`.
#[inline(always)]
pub fn next_state(state: NumberState, byte: u8) -> Option<NumberState>
    ensures next { result ≡ number_next state (letter_of byte) }
    ensures digit { IfSome result (λ next. IsExponentDigit next byte) }
{
    match (state, byte) {
        (NumberState::AtStart, b'-') => Some(NumberState::AfterMinus),
        (NumberState::AtStart | NumberState::AfterMinus, b'0') => Some(NumberState::AfterZero),
        (NumberState::AtStart | NumberState::AfterMinus | NumberState::InWhole, b'0'..=b'9') =>
            Some(NumberState::InWhole),
        (NumberState::AfterZero | NumberState::InWhole, b'.') => Some(NumberState::AfterPoint),
        (NumberState::AfterPoint | NumberState::InFraction, b'0'..=b'9') => Some(
            NumberState::InFraction,
        ),
        (NumberState::AfterZero | NumberState::InWhole | NumberState::InFraction, b'e' | b'E') =>
            Some(NumberState::AfterExponent),
        (NumberState::AfterExponent, b'+' | b'-') => Some(NumberState::AfterSign),
        (
            NumberState::AfterExponent | NumberState::AfterSign | NumberState::InExponent,
            b'0'..=b'9',
        ) => Some(NumberState::InExponent),
        _ => None,
    }
}

/// Returns whether a number may end in `state`.
#[inline(always)]
pub fn may_end(state: NumberState) -> bool
    ensures { result ≡ is_final state }
{
    matches!(
        state,
        NumberState::AfterZero
            | NumberState::InWhole
            | NumberState::InFraction
            | NumberState::InExponent
    )
}

/// Returns whether `text` is a JSON number (RFC 8259 section 6) of any length.
pub fn is_number(text: &[u8]) -> bool
    ensures { IsTrue result ↔ IsNumber text.now }
{
    let mut state = NumberState::AtStart;
    for byte in text {
        match next_state(state, *byte) {
            Some(next) => state = next,
            None => return false,
        }
    }
    may_end(state)
}
