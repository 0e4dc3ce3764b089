//! The kinds of JSON values.

/// The kind of a JSON value (RFC 8259 section 3).
#[derive(Clone, Copy, Debug, PartialEq, Eq)]
pub enum ValueKind {
    /// The literal `null`.
    Null,
    /// The literal `false` or `true`.
    Bool,
    /// A number.
    Number,
    /// A string.
    Text,
    /// An array.
    List,
    /// An object.
    Map,
}
