//! Reads an event or a call from the bytes of a record. `canon.rt` writes one.
ghost use Rattle.std.specs.Prelude.{◌≡◌, ◌≤◌, IfOk, IfErr, MatchResult};
ghost use Rattle.mes_msg_record.specs.Texts.{IsTextOf, IsFaultOf};

use mes_model_schema::json::{ReadFault, TextFault, read_tape};
use mes_model_schema::{BoxedFault, MAX_PATH_STEPS, Part, PartFault, PathBuilder};
use std::alloc::Global;

/// The reason for which the bytes of a record are not an event or not a call.
#[derive(Debug, Drop)]
pub enum RecordFault {
    /// The bytes are not a JSON text (RFC 8259), or nest deeper than `MAX_NESTING`.
    Text(TextFault),
    /// The JSON text is not the expected event or call. The fault has the path and the reason.
    Field(BoxedFault),
    /// An allocation failed.
    NoMemory,
}

impl From<ReadFault> for RecordFault {
    ghost use Rattle.std.specs.Prelude.{◌≡◌};
    ghost use Rattle.mes_msg_record.specs.RecordFaults.{of_read};

    ghost from_gives = { λ fault e. e ≡ of_read fault };

    fn from(fault: ReadFault) -> RecordFault {
        match fault {
            ReadFault::Text(fault) => RecordFault::Text(fault),
            ReadFault::NoMemory => RecordFault::NoMemory,
        }
    }
}

impl From<PartFault> for RecordFault {
    ghost use Rattle.std.specs.Prelude.{◌≡◌};
    ghost use Rattle.mes_msg_record.specs.RecordFaults.{of_part};

    ghost from_gives = { λ fault e. e ≡ of_part fault };

    fn from(fault: PartFault) -> RecordFault {
        match fault {
            PartFault::Field(fault) => RecordFault::Field(fault),
            PartFault::NoMemory => RecordFault::NoMemory,
        }
    }
}

/// Reads the event or the call in the bytes of a record, without building a JSON tree.
pub fn read_bytes<T: Part>(alloc: Global, bytes: &[u8]) -> Result<T, RecordFault>
    requires { T.STEPS ≤ MAX_PATH_STEPS }
    ensures ok { IfOk result (IsTextOf T.kind bytes.now) }
    // If the bytes are a JSON text of value v, the result is v, or an allocation failed.
    ensures only { (v : T) → IsTextOf T.kind bytes.now v
        → MatchResult result (λ r. r ≡ v) (λ e. e ≡ RecordFault.NoMemory) }
    ensures err { IfErr result (IsFaultOf T.kind bytes.now) }
{
    let tape = read_tape(alloc, bytes)?;
    Ok(T::read_from(alloc, &tape.root(), &PathBuilder::new())?)
}
