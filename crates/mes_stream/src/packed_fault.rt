//! A compact form of [`Fault`].

ghost use Rattle.std.specs.Prelude.{◌≡◌};
ghost use Rattle.mes_stream.specs.declared.fault.Fault.TheVariants.{Frame, NoMemory, EndsInsideRecord};
ghost use Rattle.mes_stream.specs.Refusals.{fault_at_record};

use crate::fault::Fault;
use crate::record_error::RecordError;
use mes_frame::FrameFault;
use mes_json::TextFaultKind;
use mes_model_schema::{BoxedFault, FieldFault};
use std::marker::Model;

/// An error in compact form: the result of every step has room for an error, so that a path is
/// stored in separate memory. In contracts the value of a compact error is the [`Fault`].
#[derive(Drop)]
pub struct PackedFault {
    kind: Kind,
}

#[derive(Drop)]
enum Kind {
    Frame(FrameFault),
    EndsInsideRecord,
    Text {
        at_record: u64,
        byte: u64,
        why: TextFaultKind,
    },
    Field {
        at_record: u64,
        fault: BoxedFault,
    },
    BadEntry {
        at_record: u64,
    },
    NoMemory,
}

impl Model for PackedFault {
    ghost use Rattle.mes_stream.specs.declared.fault.Fault.{Fault};

    ghost Value = { Fault };

    ghost use Rattle.mes_stream.specs.PackedFaults.{fault_in};

    ghost view = { λ f. fault_in f.kind };
}

impl PackedFault {
    /// Returns an error of the framing: F1 to F5, or F7 to F9.
    pub(crate) fn frame(fault: FrameFault) -> PackedFault
        ensures { result ≡ Frame fault }
    {
        PackedFault {
            kind: Kind::Frame(fault),
        }
    }

    /// Returns F10: the stream ended inside a record.
    pub(crate) fn ends_inside_record() -> PackedFault
        ensures { result ≡ EndsInsideRecord }
    {
        PackedFault {
            kind: Kind::EndsInsideRecord,
        }
    }

    /// Returns F13: an allocation failed.
    pub(crate) fn no_memory() -> PackedFault
        ensures { result ≡ NoMemory }
    {
        PackedFault {
            kind: Kind::NoMemory,
        }
    }

    /// Returns the error of the record with this number: F11, F12, F13 or F16.
    pub(crate) fn of_record(at_record: u64, why: RecordError) -> PackedFault
        ensures { result ≡ fault_at_record at_record why }
    {
        let kind = match why {
            RecordError::Text(fault) => Kind::Text {
                at_record,
                byte: fault.byte,
                why: fault.why,
            },
            RecordError::Field(fault) => Kind::Field { at_record, fault },
            RecordError::BadEntry => Kind::BadEntry { at_record },
            RecordError::NoMemory => Kind::NoMemory,
        };
        PackedFault { kind }
    }

    /// Returns the error in its public form.
    pub fn into_fault(self) -> Fault
        ensures { result ≡ self }
    {
        let PackedFault { kind } = self;
        match kind {
            Kind::Frame(fault) => Fault::Frame(fault),
            Kind::EndsInsideRecord => Fault::EndsInsideRecord,
            Kind::Text {
                at_record,
                byte,
                why,
            } => Fault::Text {
                at_record,
                byte,
                why,
            },
            Kind::Field { at_record, fault } => {
                let FieldFault { path, why } = fault.into_inner();
                Fault::Field {
                    at_record,
                    path,
                    why,
                }
            }
            Kind::BadEntry { at_record } => Fault::BadEntry { at_record },
            Kind::NoMemory => Fault::NoMemory,
        }
    }
}
