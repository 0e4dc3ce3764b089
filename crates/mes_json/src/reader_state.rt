//! The states of a reader.

use crate::literal::LiteralState;
use crate::utf8::Utf8State;
use mes_fixed::automaton::NumberState;

/// The purpose of a string: a member's name, or a value.
#[derive(Clone, Copy)]
pub(crate) enum Purpose {
    /// A member's name.
    Name,
    Value,
}

/// The part of a text that is expected next.
#[derive(Clone, Copy)]
pub(crate) enum ReaderState {
    Value,
    /// Expected: the first item of an array, or the end of the array.
    FirstItem,
    /// Expected: the first name in an object, or the end of the object.
    FirstName,
    /// Expected: the name after a comma.
    Name,
    Colon,
    /// Expected: the byte after a value.
    After,
    /// Expected: the rest of a string.
    Quoted(Purpose, Utf8State),
    Literal(LiteralState),
    /// Expected: the rest of a number, or the byte after the number.
    Digits(NumberState),
}
