//! Functions that C calls. `lib/mesosev.h` documents them for C, with the caller's obligations.

ghost use Rattle.std.specs.Prelude.{◌≡◌, length};
ghost use Rattle.mesosev_c.specs.CallTexts.{ReportsCall};
ghost use Rattle.mesosev_c.specs.Exports.{AnswersCheck, AnswersNew, AnswersNext, AnswersMany, AnswersFinish, IsGiven, AreGiven, IsPlaced};
ghost use Rattle.mesosev_c.specs.Inputs.{line_of, status_of, used_of};
ghost use Rattle.mesosev_c.specs.Rooms.{with_text};

use crate::caller_buffer::put_text;
use crate::calls::report_call;
use crate::handle::{Handle, Slot};
use crate::option_numbers::parse_options;
use crate::rows::Row;
use crate::statuses::{NO_MEMORY, SUCCESS};
use crate::text_decoder::{Batch, Reported, TextDecoder};
use crate::whole::{Checked, check_whole};
use arrayvec::ArrayString;
use mes_stream::MAX_FAULT_LINE;
use std::alloc::Global;

/// The counts that `mes_c_check` returns for a whole input.
#[repr(C)]
#[derive(Drop)]
pub struct Counts {
    /// The number of events; it saturates at 2^64 - 1.
    pub events: u64,
    /// The number of bytes of the input that were used.
    pub used: u64,
    /// The length of the line that `mesosev check` prints, in bytes.
    pub line: u64,
}

/// The result of one step of a decoder.
#[repr(C)]
#[derive(Drop)]
pub struct Answer {
    /// The number of bytes of the piece that were used.
    pub used: u64,
    /// The address of the event's text or of the error's line. The address is valid until the next
    /// call on the handle, and may be read only if `size` is not 0.
    pub text: *const u8,
    /// The length of the text at the address `text`, in bytes.
    pub size: u64,
    /// The number of the event's type; 0 if no event was decoded.
    pub kind: u32,
}

/// The result of decoding many events.
#[repr(C)]
#[derive(Drop)]
pub struct Answers {
    /// The number of bytes of the piece that were used.
    pub used: u64,
    /// The number of events.
    pub count: u64,
    /// The address of the events' texts. The address is valid until the next call on the handle,
    /// and may be read only if an event has a text.
    pub texts: *const u8,
}

/// Decodes a whole input. Returns `SUCCESS`, or the number of the first error.
///
/// Sets `counts`, and writes the line that `mesosev check` prints to the front of `room`, as far as
/// there is space. `BAD_LIMIT` and `BAD_FRAMING` leave `counts` and `room` unchanged.
#[unsafe(no_mangle)]
pub extern "C" fn mes_c_check(
    alloc: Global,
    bytes: &[u8],
    limit: u32,
    framing: u32,
    counts: &mut Counts,
    room: &mut [u8],
) -> u32
    ensures { AnswersCheck limit framing bytes.now counts.old counts.new room.old room.new result }
{
    match parse_options(limit, framing) {
        Ok(asked) => {
            let checked = check_whole(alloc, asked.framing, asked.limit, bytes);
            report_checked(&checked, counts, room)
        }
        Err(refused) => refused.status(),
    }
}

/// Writes the outcome of a whole input to `counts` and `room`, and returns its status.
fn report_checked(checked: &Checked, counts: &mut Counts, room: &mut [u8]) -> u32
    ensures events { counts.new.events ≡ checked.now.events }
    ensures used { counts.new.used ≡ used_of checked.now.outcome }
    ensures size { counts.new.line ≡ length (line_of checked.now.events checked.now.outcome) }
    ensures line { room.new ≡ with_text room.old (line_of checked.now.events checked.now.outcome) }
    ensures status { result ≡ status_of checked.now.outcome }
{
    let mut line = ArrayString::<MAX_FAULT_LINE>::new();
    checked.line(&mut line);
    put_text(line.as_str().as_bytes(), room);
    counts.events = checked.events;
    counts.used = checked.used();
    counts.line = line.len() as u64;
    checked.status()
}

/// Decodes a call. Returns `SUCCESS` with its canonical text, the number of the error with its
/// line, or `NO_TEXT`.
///
/// `size` becomes the length of the text or line in bytes. The text or line is written to the front
/// of `room`, as far as there is space.
#[unsafe(no_mangle)]
pub extern "C" fn mes_c_call(alloc: Global, bytes: &[u8], size: &mut u64, room: &mut [u8]) -> u32
    ensures { ReportsCall bytes.now size.new room.old room.new result }
{
    report_call(alloc, bytes).put(bytes.len() as u64, size, room)
}

/// Creates a decoder on the heap, and stores its handle in `slot`. The decoder produces the events'
/// texts, unless `texts` is 0.
///
/// Returns `SUCCESS`. On error leaves `slot` unchanged, and returns 13 if an allocation failed,
/// `BAD_LIMIT` or `BAD_FRAMING`.
#[unsafe(no_mangle)]
pub extern "C" fn mes_c_decoder_new(
    alloc: Global,
    limit: u32,
    framing: u32,
    texts: u32,
    slot: &mut Slot,
) -> u32
    ensures { AnswersNew limit framing texts slot.old slot.new result }
{
    match parse_options(limit, framing) {
        Ok(asked) => {
            let decoder = TextDecoder::new(alloc, asked.framing, asked.limit, texts != 0);
            place_in(alloc, decoder, slot)
        }
        Err(refused) => refused.status(),
    }
}

/// Decodes `bytes` up to the first of these: the end of a record, of the stream or of the bytes, or
/// an error.
#[unsafe(no_mangle)]
pub extern "C" fn mes_c_decoder_next(handle: &mut Handle, bytes: &[u8], answer: &mut Answer) -> u32
    ensures { AnswersNext handle.old.held handle.new.held bytes.now answer.new result }
{
    let decoder = handle.reach();
    let (reported, used) = decoder.next(bytes);
    give(decoder, reported, used as u64, answer)
}

/// Decodes `bytes` as repeated calls of `mes_c_decoder_next` do, and describes each event in a row
/// of `room`.
///
/// Stops once all bytes are used, the stream has ended, or `room` is full. Returns `EVENT` if `room`
/// is full.
#[unsafe(no_mangle)]
pub extern "C" fn mes_c_decoder_many(
    handle: &mut Handle,
    bytes: &[u8],
    room: &mut [Row],
    answers: &mut Answers,
) -> u32
    ensures { AnswersMany handle.old.held handle.new.held bytes.now room.old room.new answers.new
        result }
{
    let decoder = handle.reach();
    let batch = decoder.many(bytes, room);
    give_many(decoder, batch, answers)
}

/// Ends the input: returns `END`, or the number of an error.
#[unsafe(no_mangle)]
pub extern "C" fn mes_c_decoder_finish(handle: &mut Handle, answer: &mut Answer) -> u32
    ensures { AnswersFinish handle.old.held handle.new.held answer.new result }
{
    let decoder = handle.reach();
    let reported = decoder.finish();
    give(decoder, reported, 0, answer)
}

/// Frees the decoder of a handle.
#[unsafe(no_mangle)]
pub extern "C" fn mes_c_decoder_free(handle: Handle) {
    drop(handle);
}

// Stores a handle of the decoder in `slot`. If the allocation fails, leaves `slot` unchanged.
fn place_in(alloc: Global, decoder: TextDecoder, slot: &mut Slot) -> u32
    ensures { IsPlaced decoder slot.old slot.new result }
{
    match Box::new(alloc, decoder) {
        Ok(placed) => {
            *slot = Slot::of(placed);
            SUCCESS
        }
        Err(_) => NO_MEMORY,
    }
}

fn give(decoder: &TextDecoder, reported: Reported, used: u64, answer: &mut Answer) -> u32
    ensures { IsGiven decoder.now reported used answer.new result }
{
    answer.used = used;
    answer.kind = reported.kind;
    answer.text = decoder.text_at();
    answer.size = decoder.text().len() as u64;
    reported.status
}

fn give_many(decoder: &TextDecoder, batch: Batch, answers: &mut Answers) -> u32
    ensures { AreGiven decoder.now batch answers.new result }
{
    answers.used = batch.used as u64;
    answers.count = batch.count as u64;
    answers.texts = decoder.text_at();
    batch.status
}
