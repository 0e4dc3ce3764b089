//! The reasons for which a JSON value is not the expected message; `path` has the position in the
//! value.

ghost use Rattle.std.specs.Prelude.{◌≡◌, ◌≤◌, length};
ghost use Rattle.mes_model_schema.specs.FieldFaultKinds.{field_fault_kind_name};

use crate::path::Path;

/// The reason for which a JSON value is not the expected message.
#[derive(Clone, Copy, Debug, PartialEq, Eq)]
pub enum FieldFaultKind {
    /// A required member is absent or `null`.
    Missing,
    /// Two or more members have the name of the field.
    Twice,
    /// The value has another JSON type than the field, such as a number instead of a string.
    WrongKind,
    /// The string is none of the names that the field may have.
    UnknownName,
    /// The string is not padded base64 (RFC 4648 section 4).
    BadBase64,
    /// The number is out of the range of the field, or has a fraction and the field is an integer.
    NumberRange,
    /// The field belongs to a part of the protocol that is not supported.
    LeftOut,
}

impl FieldFaultKind {
    /// Returns the printed name of the reason.
    pub fn name(self) -> &'static str
        ensures text { result.now ≡ field_fault_kind_name self }
        ensures bound { length result.now ≤ 11 }
    {
        match self {
            FieldFaultKind::Missing => "Missing",
            FieldFaultKind::Twice => "Twice",
            FieldFaultKind::WrongKind => "WrongKind",
            FieldFaultKind::UnknownName => "UnknownName",
            FieldFaultKind::BadBase64 => "BadBase64",
            FieldFaultKind::NumberRange => "NumberRange",
            FieldFaultKind::LeftOut => "LeftOut",
        }
    }
}

/// The first position at which a JSON value is not the expected message, and the reason.
#[derive(Debug, Drop)]
pub struct FieldFault {
    /// The steps from the root of the JSON value to the position of the fault.
    pub path: Path,
    /// The reason for which the value at that position is not the expected one.
    pub why: FieldFaultKind,
}
