//! The errors of decoding an event stream.

ghost use Rattle.std.specs.Prelude.{◌≡◌, ◌≤◌, length};
ghost use Rattle.mes_stream.specs.Lines.{fault_title};

use crate::limits::MAX_REST;
use arrayvec::ArrayVec;
use mes_frame::FrameFault;
use mes_json::TextFaultKind;
use mes_model_schema::{FieldFaultKind, Path};

/// The reason for which decoding stopped before the end of the stream.
#[derive(Debug, Drop)]
pub enum Fault {
    /// F1 to F5: the chunked framing is invalid; F7 to F9: the size line of a record is invalid.
    Frame(FrameFault),
    /// F6: the input ended before the end of the chunked body, or had no bytes.
    EndsInsideChunks,
    /// F10: the stream ended inside a record.
    EndsInsideRecord,
    /// F11: the record is not JSON. Reported at the record's last byte; for a size of 0 that is the
    /// LF of the size line.
    Text {
        /// The number of the record, from 1.
        at_record: u64,
        /// The offset in the record of the first byte that is invalid in a JSON text there.
        byte: u64,
        /// The reason for which the JSON text is invalid at that offset.
        why: TextFaultKind,
    },
    /// F12: the record is JSON, but not an event. Reported at the record's last byte.
    Field {
        /// The number of the record, from 1.
        at_record: u64,
        /// The path of the first invalid value in the record.
        path: Path,
        /// The reason for which the value is invalid.
        why: FieldFaultKind,
    },
    /// F13: an allocation failed.
    NoMemory,
    /// F14: a read failed or was interrupted.
    Read,
    /// F15: all allowed reads were made, and another was needed.
    ReadsSpent,
    /// F16: the record is not an entry of a session log. Reported at the record's last byte; for a
    /// size of 0 that is the LF of the size line. Only the reader of a log returns this error.
    BadEntry {
        /// The number of the record, from 1.
        at_record: u64,
    },
}

impl Fault {
    /// Returns a copy. Does not allocate.
    pub fn copy(&self) -> Fault
        ensures { result ≡ self.now }
    {
        match self {
            Fault::Frame(fault) => Fault::Frame(*fault),
            Fault::EndsInsideChunks => Fault::EndsInsideChunks,
            Fault::EndsInsideRecord => Fault::EndsInsideRecord,
            Fault::Text {
                at_record,
                byte,
                why,
            } => Fault::Text {
                at_record: *at_record,
                byte: *byte,
                why: *why,
            },
            Fault::Field {
                at_record,
                path,
                why,
            } => Fault::Field {
                at_record: *at_record,
                path: path.copy(),
                why: *why,
            },
            Fault::NoMemory => Fault::NoMemory,
            Fault::Read => Fault::Read,
            Fault::ReadsSpent => Fault::ReadsSpent,
            Fault::BadEntry { at_record } => Fault::BadEntry {
                at_record: *at_record,
            },
        }
    }

    /// Returns the printed number and name, for example `F13 NoMemory`.
    pub fn title(&self) -> &'static str
        ensures text { result.now ≡ fault_title self.now }
        ensures bound { length result.now ≤ 20 }
    {
        match self {
            Fault::Frame(FrameFault::BadChunkLine) => "F1 BadChunkLine",
            Fault::Frame(FrameFault::ChunkLineTooLong) => "F2 ChunkLineTooLong",
            Fault::Frame(FrameFault::ChunkTooLarge) => "F3 ChunkTooLarge",
            Fault::Frame(FrameFault::BadChunkEnd) => "F4 BadChunkEnd",
            Fault::Frame(FrameFault::TrailersTooLong) => "F5 TrailersTooLong",
            Fault::EndsInsideChunks => "F6 EndsInsideChunks",
            Fault::Frame(FrameFault::BadSizeLine) => "F7 BadSizeLine",
            Fault::Frame(FrameFault::SizeLineTooLong) => "F8 SizeLineTooLong",
            Fault::Frame(FrameFault::RecordTooLarge) => "F9 RecordTooLarge",
            Fault::EndsInsideRecord => "F10 EndsInsideRecord",
            Fault::Text { .. } => "F11 Text",
            Fault::Field { .. } => "F12 Field",
            Fault::NoMemory => "F13 NoMemory",
            Fault::Read => "F14 Read",
            Fault::ReadsSpent => "F15 ReadsSpent",
            Fault::BadEntry { .. } => "F16 BadEntry",
        }
    }
}

/// The result for a stream that was read to its end.
#[derive(Debug, Drop)]
pub struct Report {
    /// The number of bytes of the stream.
    pub used: u64,
    /// The bytes read after the end of the stream: at most `MAX_REST`.
    pub rest: ArrayVec<u8, MAX_REST>,
}

/// The error at which decoding stopped, and its position.
#[derive(Debug, Drop)]
pub struct Stop {
    /// The error.
    pub fault: Fault,
    /// The number of bytes used, including the byte at which an invalid input was detected.
    pub used: u64,
}
