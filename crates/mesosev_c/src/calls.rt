//! Decoding of a scheduler's call: its canonical text, or its first error.

ghost use Rattle.std.specs.Prelude.{◌≡◌};
ghost use Rattle.mes_msg_call.specs.Calls.{call};
ghost use Rattle.mes_msg_record.specs.Texts.{IsFaultOf, canonical_of};
ghost use Rattle.mes_stream.specs.Refusals.{fault_at_record, refusal_of};
ghost use Rattle.mesosev_c.specs.CallTexts.{IsReportedCall, IsReportedText, PutsCall};

use crate::caller_buffer::put_text;
use crate::session_results::put_fault;
use crate::statuses::{NO_TEXT, SUCCESS};
use mes_frame::Limit;
use mes_msg::{Call, EncodeFault};
use mes_stream::Fault;
use mesosev_session::fault_of_text;
use std::alloc::Global;

/// The outcome of decoding a call.
#[derive(Debug, Drop)]
pub enum ReportedCall {
    /// The call's canonical text.
    Text(Vec<u8>),
    /// The call is valid, but its canonical text nests too deep or is too large.
    Unfit,
    /// The call is valid, but its canonical text could not be allocated.
    Lost,
    /// The first error in the bytes, reported as an error in record 1 of a stream.
    Fault(Fault),
}

/// Decodes a call, and returns its canonical text or the first error.
pub fn report_call(alloc: Global, bytes: &[u8]) -> ReportedCall
    ensures { IsReportedCall bytes.now result }
{
    match Call::read_record(alloc, bytes) {
        Ok(call) => reported_text(alloc, &call),
        Err(fault) => ReportedCall::Fault(fault_of_text(fault, 1)),
    }
}

// Returns the canonical text of the call, or `Unfit` or `Lost`.
fn reported_text(alloc: Global, of: &Call) -> ReportedCall
    ensures { IsReportedText of.now result }
{
    match of.canon(alloc, Limit::LARGEST) {
        Ok(text) => ReportedCall::Text(text),
        Err(EncodeFault::TooDeep) => ReportedCall::Unfit,
        Err(EncodeFault::TooLarge) => ReportedCall::Unfit,
        Err(EncodeFault::NoMemory) => ReportedCall::Lost,
    }
}

impl ReportedCall {
    /// Writes the canonical text, or the error's line with offset `used`, to the front of `room`,
    /// as far as there is space.
    ///
    /// `size` becomes the length of the whole text or line in bytes. Returns `SUCCESS`, `NO_TEXT`
    /// (`size` is then 0), or the number of the error.
    pub fn put(&self, used: u64, size: &mut u64, room: &mut [u8]) -> u32
        ensures { PutsCall self.now used size.new room.old room.new result }
    {
        match self {
            ReportedCall::Text(text) => {
                put_text(text.as_slice(), room);
                *size = text.len() as u64;
                SUCCESS
            }
            ReportedCall::Unfit => {
                *size = 0;
                NO_TEXT
            }
            ReportedCall::Lost => {
                *size = 0;
                NO_TEXT
            }
            ReportedCall::Fault(fault) => put_fault(fault, used, size, room),
        }
    }
}
