//! The reasons for which a text is not applied to a session.

ghost use Rattle.std.specs.Prelude.{◌≡◌};
ghost use Rattle.mes_stream.specs.Refusals.{fault_at_record, refusal_of};

use mes_model_schema::FieldFault;
use mes_msg::RecordFault;
use mes_session::Refusal;
use mes_stream::Fault;

/// The reason for which a text was not applied to a session.
#[derive(Debug, Drop)]
pub enum TextRefusal {
    /// The text is no value of the expected kind (F11, F12), or an allocation failed (F13). The
    /// error is that of record 1 of a stream, or of record 2 in the second of two texts.
    Fault(Fault),
    /// The session refused the event or the call (S1 to S8).
    Refused(Refusal),
    /// The canonical text of the call nests too deep, or is too large for any record.
    Unfit,
    /// The canonical text has `size` bytes: more than the caller has room for.
    NoRoom {
        /// The length of the text in bytes.
        size: usize,
    },
    /// The session has no offer or update with this index or identifier.
    Absent,
}

/// Converts the error in a text into an error in the record of a stream with the number `at_record`.
pub fn fault_of_text(fault: RecordFault, at_record: u64) -> Fault
    ensures { result ≡ fault_at_record at_record (refusal_of fault) }
{
    match fault {
        RecordFault::Text(fault) => Fault::Text {
            at_record,
            byte: fault.byte,
            why: fault.why,
        },
        RecordFault::Field(fault) => {
            let FieldFault { path, why } = fault.into_inner();
            Fault::Field {
                at_record,
                path,
                why,
            }
        }
        RecordFault::NoMemory => Fault::NoMemory,
    }
}
