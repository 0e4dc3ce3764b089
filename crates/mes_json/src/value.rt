//! JSON values as trees.

use crate::number_text::NumText;
use crate::text::Text;

/// A JSON value (RFC 8259 section 3).
#[derive(Debug, Drop)]
pub enum Json {
    /// The literal `null`.
    Null,
    /// The literal `false` or `true`.
    Bool(bool),
    /// A number, as written (section 6).
    Num(NumText),
    /// A string, with its escapes decoded (section 7).
    Text(Text),
    /// The items of an array, in order (section 5).
    List(Vec<Json>),
    /// The members of an object, in order, with repeated names (section 4).
    Map(Vec<(Text, Json)>),
}
