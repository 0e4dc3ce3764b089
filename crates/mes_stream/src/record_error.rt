//! The errors of decoding the data of one record.
ghost use Rattle.std.specs.Prelude.{◌≡◌};

use mes_json::{ReadFault, TextFault};
use mes_model_schema::{BoxedFault, PartFault};

/// The reason for which the data of a record have no value.
#[derive(Debug, Drop)]
pub enum RecordError {
    /// The data are not JSON.
    Text(TextFault),
    /// The data are JSON, but not of a value of this type.
    Field(BoxedFault),
    /// The data are not an entry of the session log. A reader of events never returns this error.
    BadEntry,
    /// An allocation failed.
    NoMemory,
}

impl From<ReadFault> for RecordError {
    ghost use Rattle.std.specs.Prelude.{◌≡◌};
    ghost use Rattle.mes_msg.specs.RecordFaults.{of_read};
    ghost use Rattle.mes_stream.specs.Refusals.{refusal_of};

    ghost from_gives = { λ fault e. e ≡ refusal_of (of_read fault) };

    fn from(fault: ReadFault) -> RecordError {
        match fault {
            ReadFault::Text(fault) => RecordError::Text(fault),
            ReadFault::NoMemory => RecordError::NoMemory,
        }
    }
}

impl From<PartFault> for RecordError {
    ghost use Rattle.std.specs.Prelude.{◌≡◌};
    ghost use Rattle.mes_msg.specs.RecordFaults.{of_part};
    ghost use Rattle.mes_stream.specs.Refusals.{refusal_of};

    ghost from_gives = { λ fault e. e ≡ refusal_of (of_part fault) };

    fn from(fault: PartFault) -> RecordError {
        match fault {
            PartFault::Field(fault) => RecordError::Field(fault),
            PartFault::NoMemory => RecordError::NoMemory,
        }
    }
}
