//! Events and calls read from texts, and canonical texts for which the caller has room.

ghost use Rattle.std.specs.Prelude.{◌≡◌, ◌<◌, ◌≤◌, IfErr, IfOk, length};
ghost use Rattle.mes_msg.specs.Calls.{call};
ghost use Rattle.mes_msg.specs.Events.{event};
ghost use Rattle.mes_msg.specs.Texts.{IsTextOf};
ghost use Rattle.mesosev_session.specs.Texts.{IsCallText, IsRoomy, IsUnreadable, IsUnreadCall, IsUnwritten};

use crate::text_refusal::{TextRefusal, fault_of_text};
use mes_frame::Limit;
use mes_model_schema::Part;
use mes_msg::{Call, EncodeFault, Event};
use mes_msg_record::canonical_bytes;
use mes_stream::Fault;
use std::alloc::Global;

/// A call and its canonical text.
#[derive(Debug, Drop)]
pub(crate) struct CallText {
    /// The call.
    pub(crate) call: Call,
    /// Its canonical text.
    pub(crate) text: Vec<u8>,
}

/// Reads an event. Errors: `Fault`.
pub(crate) fn read_event(alloc: Global, bytes: &[u8]) -> Result<Event, TextRefusal>
    ensures ok { IfOk result (IsTextOf event bytes.now) }
    ensures err { IfErr result (IsUnreadable event bytes.now) }
{
    match Event::read_record(alloc, bytes) {
        Ok(event) => Ok(event),
        Err(fault) => Err(TextRefusal::Fault(fault_of_text(fault, 1))),
    }
}

/// Reads a call. Errors: `Fault`.
pub(crate) fn read_call(alloc: Global, bytes: &[u8]) -> Result<Call, TextRefusal>
    ensures ok { IfOk result (IsTextOf call bytes.now) }
    ensures err { IfErr result (IsUnreadable call bytes.now) }
{
    match Call::read_record(alloc, bytes) {
        Ok(call) => Ok(call),
        Err(fault) => Err(TextRefusal::Fault(fault_of_text(fault, 1))),
    }
}

/// Reads a call, and makes its canonical text, of at most `most` bytes. Errors: `Fault`, then
/// `Unfit`, then `NoRoom`.
pub(crate) fn read_call_text(
    alloc: Global,
    bytes: &[u8],
    most: usize,
) -> Result<CallText, TextRefusal>
    ensures ok { IfOk result (IsCallText bytes.now most) }
    ensures err { IfErr result (IsUnreadCall bytes.now most) }
{
    let call = read_call(alloc, bytes)?;
    let text = roomy_text(alloc, &call, most)?;
    Ok(CallText { call, text })
}

/// Returns the canonical text of a value, of at most `most` bytes. Errors: `Unfit`, then `NoRoom`;
/// or F13.
pub(crate) fn roomy_text<T: Part>(
    alloc: Global,
    value: &T,
    most: usize,
) -> Result<Vec<u8>, TextRefusal>
    ensures ok { IfOk result (λ text. IsRoomy T.kind value.now most text.items) }
    ensures err { IfErr result (IsUnwritten T.kind value.now most) }
{
    match canonical_bytes(value, alloc, Limit::LARGEST) {
        Ok(text) => within_room(text, most),
        Err(EncodeFault::TooDeep) => Err(TextRefusal::Unfit),
        Err(EncodeFault::TooLarge) => Err(TextRefusal::Unfit),
        Err(EncodeFault::NoMemory) => Err(TextRefusal::Fault(Fault::NoMemory)),
    }
}

/// Returns the text, if it has at most `most` bytes. Errors: `NoRoom`.
pub(crate) fn within_room(text: Vec<u8>, most: usize) -> Result<Vec<u8>, TextRefusal>
    ensures ok { IfOk result (λ kept. (kept ≡ text) × (length text.items ≤ most)) }
    ensures err { IfErr result (λ why. (why ≡ TextRefusal.NoRoom (length text.items))
        × (most < length text.items)) }
{
    if most < text.len() {
        return Err(TextRefusal::NoRoom { size: text.len() });
    }
    Ok(text)
}
