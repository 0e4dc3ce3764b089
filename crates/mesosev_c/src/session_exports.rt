//! Functions that C calls on a session. `lib/mesosev.h` documents them for C, with the caller's
//! obligations.
//!
//! Each returns `SUCCESS` with a text, or without one; or the number of a fault (11 to 13) or of a
//! refusal (201 to 208) with its line; or `NO_TEXT`, `NO_ROOM` or `ABSENT`. `size` becomes the length
//! of the whole text or line in bytes. The text or line is written to the front of `room`; a line
//! that is longer is cut. With any other status than `SUCCESS` the session is unchanged.

ghost use Rattle.std.specs.Prelude.{◌≡◌, length, if◌then◌else◌};
ghost use Rattle.mes_msg.specs.declared.entry.Entry.TheVariants.{Broken};
ghost use Rattle.mesosev_session.specs.Sessions.{Advances};
ghost use Rattle.mesosev_c.specs.SessionExports.{AnswersAcknowledged, AnswersChecked, AnswersHeard, AnswersName, AnswersOffer, AnswersOfferAt, AnswersOwedAt, AnswersSaid, AnswersSubscribed, IsNewSession, IsSessionPlaced};

use crate::caller_buffer::put_text;
use crate::handle::{SessionHandle, SessionSlot};
use crate::session_results::{put_answer, put_refusal};
use crate::statuses::{ABSENT, NO_MEMORY, SUCCESS};
use mesosev_session::{TextRefusal, TextSession};
use std::alloc::Global;

/// Creates a session without a history on the heap, and stores its handle in `slot`. If the
/// allocation fails, leaves `slot` unchanged and returns 13.
#[unsafe(no_mangle)]
pub extern "C" fn mes_c_session_new(alloc: Global, slot: &mut SessionSlot) -> u32
    ensures { IsNewSession slot.old slot.new result }
{
    place_session(alloc, TextSession::new(alloc), slot)
}

/// Frees the session of a handle.
#[unsafe(no_mangle)]
pub extern "C" fn mes_c_session_free(handle: SessionHandle) {
    drop(handle);
}

/// Applies an event received from the master.
#[unsafe(no_mangle)]
pub extern "C" fn mes_c_session_heard(
    handle: &mut SessionHandle,
    bytes: &[u8],
    size: &mut u64,
    room: &mut [u8],
) -> u32
    ensures { AnswersHeard handle.old.held bytes.now handle.new.held size.new room.old room.new
        result }
{
    let session = handle.reach();
    match session.heard(bytes) {
        Ok(()) => {
            *size = 0;
            SUCCESS
        }
        Err(refusal) => put_refusal(&refusal, session.entries(), bytes.len() as u64, size, room),
    }
}

/// Applies a call that is sent to the master. The text is the canonical text of the call.
#[unsafe(no_mangle)]
pub extern "C" fn mes_c_session_said(
    handle: &mut SessionHandle,
    bytes: &[u8],
    size: &mut u64,
    room: &mut [u8],
) -> u32
    ensures { AnswersSaid handle.old.held bytes.now handle.new.held size.new room.old room.new
        result }
{
    let session = handle.reach();
    let before = session.entries();
    let answer = session.said(bytes, room.len());
    put_answer(answer, before, bytes.len() as u64, size, room)
}

/// Like `mes_c_session_said`, but does not apply the call.
#[unsafe(no_mangle)]
pub extern "C" fn mes_c_session_check(
    handle: &mut SessionHandle,
    bytes: &[u8],
    size: &mut u64,
    room: &mut [u8],
) -> u32
    ensures { AnswersChecked handle.old.held bytes.now handle.new.held size.new room.old room.new
        result }
{
    let session = handle.reach();
    let answer = session.check(bytes, room.len());
    put_answer(answer, session.entries(), bytes.len() as u64, size, room)
}

/// Makes the SUBSCRIBE of a framework, whose `FrameworkInfo` is a JSON text. The text is the
/// canonical text of the SUBSCRIBE.
#[unsafe(no_mangle)]
pub extern "C" fn mes_c_session_subscribe(
    handle: &mut SessionHandle,
    bytes: &[u8],
    size: &mut u64,
    room: &mut [u8],
) -> u32
    ensures { AnswersSubscribed handle.old.held bytes.now handle.new.held size.new room.old room.new
        result }
{
    let session = handle.reach();
    let before = session.entries();
    let answer = session.subscribe(bytes, room.len());
    put_answer(answer, before, bytes.len() as u64, size, room)
}

/// Makes and applies the ACKNOWLEDGE of the unacknowledged update at an index, in the order of arrival.
/// The text is the canonical text of the ACKNOWLEDGE.
#[unsafe(no_mangle)]
pub extern "C" fn mes_c_session_acknowledge(
    handle: &mut SessionHandle,
    index: usize,
    size: &mut u64,
    room: &mut [u8],
) -> u32
    ensures { AnswersAcknowledged handle.old.held index handle.new.held size.new room.old room.new
        result }
{
    let session = handle.reach();
    let before = session.entries();
    let answer = session.acknowledge(index, room.len());
    put_answer(answer, before, 0, size, room)
}

/// Records that the stream is disconnected.
#[unsafe(no_mangle)]
pub extern "C" fn mes_c_session_broken(handle: &mut SessionHandle)
    ensures { Advances handle.old.held Broken handle.new.held }
{
    handle.reach().broken();
}

/// Returns 1 if a SUBSCRIBED was received since the stream was last disconnected, and 0 otherwise.
#[unsafe(no_mangle)]
pub extern "C" fn mes_c_session_connected(handle: &mut SessionHandle) -> u32
    ensures value { result ≡ (if handle.old.held.session.connected then 1 else 0) }
    ensures same { handle.new.held ≡ handle.old.held }
{
    if handle.reach().connected() { 1 } else { 0 }
}

/// Returns the number of entries; it saturates at 2^64 - 1.
#[unsafe(no_mangle)]
pub extern "C" fn mes_c_session_entries(handle: &mut SessionHandle) -> u64
    ensures value { result ≡ handle.old.held.entries }
    ensures same { handle.new.held ≡ handle.old.held }
{
    handle.reach().entries()
}

/// Returns the number of outstanding offers.
#[unsafe(no_mangle)]
pub extern "C" fn mes_c_session_offer_count(handle: &mut SessionHandle) -> u64
    ensures value { result ≡ length handle.old.held.session.hand }
    ensures same { handle.new.held ≡ handle.old.held }
{
    handle.reach().offer_count() as u64
}

/// Returns the number of unacknowledged updates.
#[unsafe(no_mangle)]
pub extern "C" fn mes_c_session_owed_count(handle: &mut SessionHandle) -> u64
    ensures value { result ≡ length handle.old.held.session.owed }
    ensures same { handle.new.held ≡ handle.old.held }
{
    handle.reach().owed_count() as u64
}

/// The text is the canonical text of the outstanding offer at an index, in the order of arrival.
#[unsafe(no_mangle)]
pub extern "C" fn mes_c_session_offer_at(
    handle: &mut SessionHandle,
    index: usize,
    size: &mut u64,
    room: &mut [u8],
) -> u32
    ensures { AnswersOfferAt handle.old.held index handle.new.held size.new room.old room.new
        result }
{
    let session = handle.reach();
    let answer = session.offer_at(index, room.len());
    put_answer(answer, session.entries(), 0, size, room)
}

/// Like `mes_c_session_offer_at`, for the outstanding offer with the identifier in `id`. Bytes that
/// are not UTF-8 are no identifier.
#[unsafe(no_mangle)]
pub extern "C" fn mes_c_session_offer(
    handle: &mut SessionHandle,
    id: &[u8],
    size: &mut u64,
    room: &mut [u8],
) -> u32
    ensures { AnswersOffer handle.old.held id.now handle.new.held size.new room.old room.new result }
{
    let session = handle.reach();
    let answer = match str::from_utf8(id) {
        Ok(id) => session.offer(id, room.len()),
        Err(_) => Err(TextRefusal::Absent),
    };
    put_answer(answer, session.entries(), 0, size, room)
}

/// The text is the body of the ACKNOWLEDGE of the unacknowledged update at an index, in the order of
/// arrival: its agent, its task and its uuid.
#[unsafe(no_mangle)]
pub extern "C" fn mes_c_session_owed_at(
    handle: &mut SessionHandle,
    index: usize,
    size: &mut u64,
    room: &mut [u8],
) -> u32
    ensures { AnswersOwedAt handle.old.held index handle.new.held size.new room.old room.new result }
{
    let session = handle.reach();
    let answer = session.owed_at(index, room.len());
    put_answer(answer, session.entries(), 0, size, room)
}

/// The text is the identifier of the framework; a longer one is cut. Returns `ABSENT` if no
/// SUBSCRIBED was received.
#[unsafe(no_mangle)]
pub extern "C" fn mes_c_session_framework(
    handle: &mut SessionHandle,
    size: &mut u64,
    room: &mut [u8],
) -> u32
    ensures { AnswersName handle.old.held handle.new.held size.new room.old room.new result }
{
    match handle.reach().framework() {
        Some(id) => {
            put_text(id.as_bytes(), room);
            *size = id.len() as u64;
            SUCCESS
        }
        None => {
            *size = 0;
            ABSENT
        }
    }
}

/// Stores a handle of the session in `slot`. If the allocation fails, leaves `slot` unchanged.
pub(crate) fn place_session(alloc: Global, session: TextSession, slot: &mut SessionSlot) -> u32
    ensures { IsSessionPlaced session slot.old slot.new result }
{
    match Box::new(alloc, session) {
        Ok(placed) => {
            *slot = SessionSlot::of(placed);
            SUCCESS
        }
        Err(_) => NO_MEMORY,
    }
}
