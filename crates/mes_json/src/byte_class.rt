//! The classes of bytes outside strings.
ghost use Rattle.std.specs.Prelude.{◌≡◌};
ghost use Rattle.mes_json.specs.Machine.{kind_of};
ghost use Rattle.mes_json.specs.Reader.{kind_view};

use crate::literal::LiteralState;
use mes_fixed::automaton::NumberState;

/// The class of a byte outside a string (RFC 8259 sections 2, 3 and 6).
#[derive(Clone, Copy)]
pub(crate) enum ByteClass {
    Blank,
    Quote,
    Opening,
    Closing,
    OpeningArray,
    ClosingArray,
    Colon,
    Comma,
    /// The first byte of a literal.
    Literal(LiteralState),
    /// The first byte of a number, with the state of the number after that byte.
    Digits(NumberState),
    Other,
}

impl ByteClass {
    #[inline(always)]
    pub(crate) fn of(byte: u8) -> ByteClass
        ensures { kind_view byte result ≡ kind_of byte }
    {
        match byte {
            b'"' => ByteClass::Quote,
            b' ' | b'\t' | b'\n' | b'\r' => ByteClass::Blank,
            b'{' => ByteClass::Opening,
            b'}' => ByteClass::Closing,
            b'[' => ByteClass::OpeningArray,
            b']' => ByteClass::ClosingArray,
            b':' => ByteClass::Colon,
            b',' => ByteClass::Comma,
            b'-' => ByteClass::Digits(NumberState::AfterMinus),
            b'0' => ByteClass::Digits(NumberState::AfterZero),
            b'1'..=b'9' => ByteClass::Digits(NumberState::InWhole),
            b'n' => ByteClass::Literal(LiteralState::N),
            b't' => ByteClass::Literal(LiteralState::T),
            b'f' => ByteClass::Literal(LiteralState::F),
            _ => ByteClass::Other,
        }
    }
}
