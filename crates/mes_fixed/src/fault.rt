//! The errors of reading a number.
ghost use Rattle.std.specs.Prelude.{Some};
ghost use Rattle.mes_fixed.specs.Fault.{message};

use std::fmt;

/// The reason why a text is not read as a number of some type. If several apply, the first in this
/// order is returned.
#[derive(Clone, Copy, Debug, PartialEq, Eq)]
pub enum NumFault {
    /// The text has more than `MAX_NUMBER_TEXT` bytes.
    TooLong,
    /// The text is not a JSON number (RFC 8259 section 6).
    Shape,
    /// The type cannot represent the number.
    Range,
}

impl fmt::Display for NumFault {
    ghost output = { λ fault. Some (message fault) };

    fn fmt<W: fmt::Write>(&self, f: &mut fmt::Formatter<W>) -> fmt::Result {
        f.write_str(match self {
            NumFault::TooLong => "the number's text is too long",
            NumFault::Shape => "the text is no JSON number",
            NumFault::Range => "the number is out of range",
        })
    }
}
