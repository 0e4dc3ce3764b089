//! The faults of sending events or calls. `mes_frame::WriteFault` is the fault of the writer.

ghost use Rattle.std.specs.Prelude.{◌≡◌, ◌≤◌, length};
ghost use Rattle.mes_msg.specs.EncodeWhys.{encode_fault_kind_name};

use mes_frame::WriteFault;

/// The reason for which an event or a call has no canonical text within the limit of a record.
#[derive(Clone, Copy, Debug, PartialEq, Eq)]
pub enum EncodeFaultKind {
    /// The canonical text nests deeper than `MAX_NESTING`.
    TooDeep,
    /// The nesting is allowed, but the canonical text has more bytes than the limit.
    TooLarge,
}

impl EncodeFaultKind {
    /// Returns the printed name of the reason.
    pub fn name(self) -> &'static str
        ensures text { result.now ≡ encode_fault_kind_name self }
        ensures bound { length result.now ≤ 8 }
    {
        match self {
            EncodeFaultKind::TooDeep => "TooDeep",
            EncodeFaultKind::TooLarge => "TooLarge",
        }
    }
}

/// The reason for which some of the messages (events or calls) were not sent.
#[derive(Clone, Copy, Debug, PartialEq, Eq)]
pub enum SendFault {
    /// One of the messages has no canonical text within the limit of a record. Nothing was written.
    Encode {
        /// The index of the first such message, from 0.
        index: usize,
        /// The reason for which that message has no canonical text.
        why: EncodeFaultKind,
    },
    /// An allocation failed. Nothing was written.
    NoMemory,
    /// The writer stopped before all bytes were written.
    Write(WriteFault),
}

impl From<WriteFault> for SendFault {
    ghost use Rattle.std.specs.Prelude.{◌≡◌};
    ghost use Rattle.mes_msg.specs.declared.send_fault.SendFault.TheVariants.{Write as write_stopped};

    ghost from_gives = { λ fault e. e ≡ write_stopped fault };

    fn from(fault: WriteFault) -> SendFault {
        SendFault::Write(fault)
    }
}
