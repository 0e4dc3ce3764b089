//! The subcommands `check` and `show`: they read a stream, and print its messages as they arrive.

ghost use Rattle.std.specs.Prelude.{◌≡◌, ◌≤◌, ◌++◌, ℕ, IfErr, IfOk};
ghost use Rattle.mes_frame.specs.Written.{Stops};
ghost use Rattle.mes_stream.specs.Stream.{saturated};
ghost use Rattle.mesosev_stream.specs.Following.{Finishes, HoldsText, PrintsMessages, SendsText, ShowsFrom, ended_of};
ghost use Rattle.mesosev_stream.specs.Messages.{shown_as};
ghost use Rattle.mesosev_stream.specs.Showing.{Follows, lines_from};

use crate::limits::MAX_READS;
use crate::line_buffer::LineBuffer;
use crate::line_number::{LineConsumer, LineCounter, counts_lines};
use crate::message::ShownMessage;
use crate::outcome::RunOutcome;
use crate::print::{out_of_memory, report_outcome};
use mes_frame::{Limit, Sink, Source, WriteFault};
use mes_stream::{Consumer, Framing, MessageReader, Reading, ReadingStop, ReadsEnd, read_device};
use std::alloc::Global;

/// The lines that are printed for each message.
#[derive(Clone, Copy, Debug, PartialEq, Eq)]
pub enum Detail {
    /// None: the messages are only counted.
    Counts,
    /// All lines of the message.
    Lines,
}

/// The reason for which the lines of messages were not printed.
#[derive(Clone, Copy, Debug, PartialEq, Eq)]
pub(crate) enum PrintError {
    /// The output failed.
    Output(WriteFault),
    /// An allocation failed.
    NoMemory,
}

/// How many of the messages were printed.
#[derive(Clone, Copy, Debug, PartialEq, Eq)]
pub(crate) enum PrintProgress {
    /// All messages; the next message has this number.
    All(u64),
    /// The messages before a message for whose lines an allocation failed.
    NoMemory,
}

/// The reason for which a follower stopped.
#[derive(Drop)]
pub(crate) enum FollowStop {
    /// The stream ended, or has an error.
    Reading(ReadingStop),
    /// The lines of a message were not printed.
    PrintError(PrintError),
}

/// Decodes a stream and prints the messages of each read, numbered from 1. Buffers the messages of
/// one read.
#[derive(Drop)]
pub(crate) struct Follower<M> {
    detail: Detail,
    reading: Reading<MessageReader<M>>,
    messages: Vec<M>,
    // The lines of one message. The memory is reused for the next one.
    text: Vec<u8>,
    lines: LineBuffer,
    number: u64,
}

impl<M: ShownMessage> Follower<M> {
    // Prints the message that the end of the input completes, if any: that of a last line without
    // LF. Then prints the summary line or the first error, which is in the given line of JSON Lines.
    fn finish<O: Sink>(
        &mut self,
        end: ReadsEnd<ReadingStop>,
        line: Option<u64>,
        out: &mut O,
    ) -> RunOutcome
        ensures { Finishes (shown_as M.kind M.word M.lines) self.old end line (O.device out.old) (O.device out.new) result }
    {
        let outcome = self.reading.finish(end, &mut self.messages);
        match print_messages(
            self.detail,
            self.messages.as_slice(),
            self.number,
            &mut self.text,
            &mut self.lines,
            out,
        ) {
            Ok(PrintProgress::All(next)) => {
                let count = next.saturating_sub(1);
                let word = M::word();
                report_outcome(out, word, line, count, &outcome).following(self.lines.sent())
            }
            Ok(PrintProgress::NoMemory) => out_of_memory(out).following(self.lines.sent()),
            Err(fault) => RunOutcome::OutputFailed(fault.sent),
        }
    }
}

impl<M: ShownMessage, O: Sink> Consumer<O> for Follower<M> {
    type Stop = FollowStop;

    ghost use Rattle.mesosev_stream.specs.Following.{GoesFrom, StopsFrom};

    ghost goes = { λ first out now printed w. GoesFrom (shown_as M.kind M.word M.lines) first
        (O.device out) now (O.device printed) w };

    ghost stops = { λ first out now printed w piece stop. StopsFrom
        (shown_as M.kind M.word M.lines) first (O.device out) now (O.device printed) w piece
        stop };

    fn consume(&mut self, piece: &[u8], out: &mut O) -> Result<(), FollowStop> {
        let fed = self.reading.feed(piece, &mut self.messages);
        match print_messages(
            self.detail,
            self.messages.as_slice(),
            self.number,
            &mut self.text,
            &mut self.lines,
            out,
        ) {
            Ok(PrintProgress::All(next)) => self.number = next,
            Ok(PrintProgress::NoMemory) => return Err(FollowStop::PrintError(PrintError::NoMemory)),
            Err(fault) => return Err(FollowStop::PrintError(PrintError::Output(fault))),
        }
        self.messages.clear();
        match fed {
            Ok(()) => Ok(()),
            Err(stop) => Err(FollowStop::Reading(stop)),
        }
    }
}

impl<M: ShownMessage, O: Sink> LineConsumer<O> for Follower<M> {
    ghost use Rattle.mesosev_stream.specs.Following.{StartsLines};

    ghost starts = { λ d. StartsLines (shown_as M.kind M.word M.lines) d };

    fn line_feeds(&self) -> u64 {
        self.reading.line_feeds()
    }
}

/// Decodes `input`, and prints the messages of each read, as `detail` states, before the next read.
/// Then prints a summary line or the first error. Reads at most `max_reads` times, and stops
/// reading once a write fails.
///
/// Buffers the messages of one read and at most `MAX_LINE_BUFFER` bytes of output. If that buffer
/// cannot be allocated, the lines are written directly.
pub fn follow<M: ShownMessage, I: Source, O: Sink>(
    alloc: Global,
    detail: Detail,
    framing: Framing,
    limit: Limit,
    max_reads: u64,
    input: &mut I,
    out: &mut O,
) -> RunOutcome
    requires { max_reads ≤ MAX_READS }
    // The bytes read, the lines printed and the outcome.
    ensures { Follows (shown_as M.kind M.word M.lines) detail framing limit max_reads
        (I.device input.old) (I.device input.new) (O.device out.old) (O.device out.new) result }
{
    let follower = Follower {
        detail,
        reading: Reading::new(framing, MessageReader::<M>::new(alloc), limit),
        messages: Vec::new(alloc),
        text: Vec::new(alloc),
        lines: LineBuffer::new(alloc),
        number: 1,
    };
    let mut counter = LineCounter::new(follower, counts_lines(framing));
    let end = read_device(input, max_reads, &mut counter, out);
    let line = counter.line_of(framing, counter.inner.reading.used());
    match ended(end) {
        Ok(end) => counter.inner.finish(end, line, out),
        Err(PrintError::Output(fault)) => RunOutcome::OutputFailed(fault.sent),
        Err(PrintError::NoMemory) => out_of_memory(out).following(counter.inner.lines.sent()),
    }
}

/// Returns how the reads ended; or the error, if the lines of a message were not printed.
fn ended(end: ReadsEnd<FollowStop>) -> Result<ReadsEnd<ReadingStop>, PrintError>
    ensures { result ≡ ended_of end }
{
    match end {
        ReadsEnd::Stopped(FollowStop::Reading(stop)) => Ok(ReadsEnd::Stopped(stop)),
        ReadsEnd::Stopped(FollowStop::PrintError(why)) => Err(why),
        ReadsEnd::AtEnd => Ok(ReadsEnd::AtEnd),
        ReadsEnd::Failed => Ok(ReadsEnd::Failed),
        ReadsEnd::Spent => Ok(ReadsEnd::Spent),
    }
}

/// Prints the messages as `detail` states; the first message has the number `first`.
fn print_messages<M: ShownMessage, O: Sink>(
    detail: Detail,
    messages: &[M],
    first: u64,
    text: &mut Vec<u8>,
    lines: &mut LineBuffer,
    out: &mut O,
) -> Result<PrintProgress, WriteFault>
    ensures { (number : ℕ) → first ≡ saturated number → PrintsMessages (shown_as M.kind M.word M.lines) detail lines.old lines.new
        (O.device out.old) (O.device out.new)
        number messages.now result }
{
    match detail {
        Detail::Counts => Ok(PrintProgress::All(first.saturating_add(messages.len() as u64))),
        Detail::Lines => show_messages(messages, first, text, lines, out),
    }
}

/// Prints the lines of the messages; the first message has the number `first`.
fn show_messages<M: ShownMessage, O: Sink>(
    messages: &[M],
    first: u64,
    text: &mut Vec<u8>,
    lines: &mut LineBuffer,
    out: &mut O,
) -> Result<PrintProgress, WriteFault>
    ensures ok { IfOk result (λ shown. (number : ℕ) → first ≡ saturated number → ShowsFrom
        (shown_as M.kind M.word M.lines) (SendsText lines.old lines.new (O.device out.old)
        (O.device out.new)) number messages.now shown) }
    ensures err { IfErr result (λ fault. (number : ℕ) → first ≡ saturated number
        → Stops (O.device out.old).bytes (O.device out.new).bytes
        (O.device out.old).counts (O.device out.new).counts (lines.old.held.items
        ++ lines_from (shown_as M.kind M.word M.lines) number messages.now) lines.old.sent fault) }
{
    let shown = match hold_messages(messages, first, text, lines, out) {
        Ok(shown) => shown,
        Err(fault) => return Err(fault),
    };
    match lines.flush(out) {
        Ok(()) => Ok(shown),
        Err(fault) => Err(fault),
    }
}

/// Buffers the lines of the messages; the first message has the number `first`.
fn hold_messages<M: ShownMessage, O: Sink>(
    messages: &[M],
    first: u64,
    text: &mut Vec<u8>,
    lines: &mut LineBuffer,
    out: &mut O,
) -> Result<PrintProgress, WriteFault>
    ensures ok { IfOk result (λ shown. (number : ℕ) → first ≡ saturated number → ShowsFrom
        (shown_as M.kind M.word M.lines) (HoldsText lines.old lines.new (O.device out.old)
        (O.device out.new)) number messages.now shown) }
    ensures err { IfErr result (λ fault. (number : ℕ) → first ≡ saturated number
        → Stops (O.device out.old).bytes (O.device out.new).bytes
        (O.device out.old).counts (O.device out.new).counts (lines.old.held.items
        ++ lines_from (shown_as M.kind M.word M.lines) number messages.now) lines.old.sent fault) }
{
    let mut number = first;
    for message in messages {
        text.clear();
        if let Err(_) = message.push_lines(number, text) {
            return Ok(PrintProgress::NoMemory);
        }
        if let Err(fault) = lines.hold(out, text.as_slice()) {
            return Err(fault);
        }
        number = number.saturating_add(1);
    }
    Ok(PrintProgress::All(number))
}
