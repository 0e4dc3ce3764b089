//! Functions that C calls without a session: for the records of a session log and of a stream, and
//! for the fit of tasks. `lib/mesosev.h` documents them for C, with the caller's obligations. Their
//! results are those of `session_exports.rt`.

ghost use Rattle.std.specs.Prelude.{length};
ghost use Rattle.mes_msg.specs.Calls.{call};
ghost use Rattle.mes_msg.specs.Events.{event};
ghost use Rattle.mes_msg.specs.declared.entry.Entry.TheVariants.{Heard, Said, Broken};
ghost use Rattle.mesosev_c.specs.SessionExports.{AnswersFit, AnswersReplay, AnswersText};
ghost use Rattle.mesosev_session.specs.Records.{HasNoHeader, HasNoRecord, HasNoRecordOfText, IsHeader, IsRecordOfEntry, IsRecordOfText};
ghost use Rattle.mesosev_session.specs.StreamRecords.{HasNoChunk, HasNoStreamRecord, IsChunkWithin, IsStreamRecord};

use crate::handle::SessionSlot;
use crate::session_exports::place_session;
use crate::session_results::{put_answer, put_stop};
use crate::statuses::SUCCESS;
use mes_frame::Limit;
use mesosev_session::{
    broken_record, call_record, check_fit, event_record, header_record, replay_log, stream_chunk,
    stream_record,
};
use std::alloc::Global;

/// The text is the header of a log of version 2, its first record.
#[unsafe(no_mangle)]
pub extern "C" fn mes_c_log_header(alloc: Global, size: &mut u64, room: &mut [u8]) -> u32
    ensures { AnswersText (IsHeader (length room.old)) (HasNoHeader (length room.old)) 0 0 size.new
        room.old room.new result }
{
    put_answer(header_record(alloc, room.len()), 0, 0, size, room)
}

/// The text is the record of an event that was received.
#[unsafe(no_mangle)]
pub extern "C" fn mes_c_log_event(
    alloc: Global,
    bytes: &[u8],
    size: &mut u64,
    room: &mut [u8],
) -> u32
    ensures { AnswersText (IsRecordOfText event Heard bytes.now (length room.old)) (HasNoRecordOfText
        event Heard bytes.now (length room.old)) 0 (length bytes.now) size.new room.old room.new
        result }
{
    let answer = event_record(alloc, bytes, room.len());
    put_answer(answer, 0, bytes.len() as u64, size, room)
}

/// The text is the record of a call that was sent.
#[unsafe(no_mangle)]
pub extern "C" fn mes_c_log_call(
    alloc: Global,
    bytes: &[u8],
    size: &mut u64,
    room: &mut [u8],
) -> u32
    ensures { AnswersText (IsRecordOfText call Said bytes.now (length room.old)) (HasNoRecordOfText
        call Said bytes.now (length room.old)) 0 (length bytes.now) size.new room.old room.new
        result }
{
    let answer = call_record(alloc, bytes, room.len());
    put_answer(answer, 0, bytes.len() as u64, size, room)
}

/// The text is the record of a disconnect.
#[unsafe(no_mangle)]
pub extern "C" fn mes_c_log_broken(alloc: Global, size: &mut u64, room: &mut [u8]) -> u32
    ensures { AnswersText (IsRecordOfEntry Broken (length room.old)) (HasNoRecord Broken (length
        room.old)) 0 0 size.new room.old room.new result }
{
    put_answer(broken_record(alloc, room.len()), 0, 0, size, room)
}

/// The text is the record of an event in a stream.
#[unsafe(no_mangle)]
pub extern "C" fn mes_c_write_event(
    alloc: Global,
    bytes: &[u8],
    size: &mut u64,
    room: &mut [u8],
) -> u32
    ensures { AnswersText (IsStreamRecord bytes.now (length room.old)) (HasNoStreamRecord bytes.now
        (length room.old)) 0 (length bytes.now) size.new room.old room.new result }
{
    let answer = stream_record(alloc, bytes, room.len());
    put_answer(answer, 0, bytes.len() as u64, size, room)
}

/// The text is a chunk of a body with the bytes as its data; for no bytes the last chunk.
#[unsafe(no_mangle)]
pub extern "C" fn mes_c_write_chunk(
    alloc: Global,
    bytes: &[u8],
    size: &mut u64,
    room: &mut [u8],
) -> u32
    ensures { AnswersText (IsChunkWithin bytes.now (length room.old)) (HasNoChunk bytes.now (length
        room.old)) 0 0 size.new room.old room.new result }
{
    put_answer(stream_chunk(alloc, bytes, room.len()), 0, 0, size, room)
}

/// Checks whether tasks fit offers, both as JSON arrays. The text is empty.
#[unsafe(no_mangle)]
pub extern "C" fn mes_c_fits(
    alloc: Global,
    offers: &[u8],
    tasks: &[u8],
    size: &mut u64,
    room: &mut [u8],
) -> u32
    ensures { AnswersFit offers.now tasks.now size.new room.old room.new result }
{
    match check_fit(alloc, offers, tasks) {
        Ok(()) => {
            *size = 0;
            SUCCESS
        }
        Err(stop) => put_stop(&stop, size, room),
    }
}

/// Stores a handle of the session to which a log leads in `slot`; the text is empty. On error leaves
/// `slot` unchanged.
#[unsafe(no_mangle)]
pub extern "C" fn mes_c_log_replay(
    alloc: Global,
    bytes: &[u8],
    slot: &mut SessionSlot,
    size: &mut u64,
    room: &mut [u8],
) -> u32
    ensures { AnswersReplay bytes.now slot.old slot.new size.new room.old room.new result }
{
    match replay_log(alloc, bytes, Limit::LARGEST) {
        Ok(session) => {
            *size = 0;
            place_session(alloc, session, slot)
        }
        Err(stop) => put_stop(&stop, size, room),
    }
}
