//! The subcommand `show --json`: reads a stream, and writes its messages as JSON Lines as they
//! arrive.

ghost use Rattle.std.specs.Prelude.{◌≡◌, ◌≤◌, [], ◌∷◌, ◌++◌, ℕ, IfErr, IfOk, length};
ghost use Rattle.mes_frame.specs.Written.{Stops};
ghost use Rattle.mes_msg.specs.EncodeFault.{EncodeFault};
ghost use Rattle.mes_stream.specs.SendLines.{unsent_text};
ghost use Rattle.mes_stream.specs.Sending.{fault_at};
ghost use Rattle.mes_stream.specs.Stream.{saturated};
ghost use Rattle.mesosev_stream.specs.Exporting.{ExportsFrom, ExportsMessages, FinishesExport, read_of};
ghost use Rattle.mesosev_stream.specs.Following.{HoldsText};
ghost use Rattle.mesosev_stream.specs.JsonLines.{Exports, json_lines};
ghost use Rattle.mesosev_stream.specs.Messages.{shown_as};
ghost use Rattle.mesosev_stream.specs.Printing.{Tells, outcome_line, outcome_status};

use crate::exit_status::ExitStatus;
use crate::json_lines::{line_into, refused_at};
use crate::limits::MAX_READS;
use crate::line_buffer::LineBuffer;
use crate::line_number::{LineConsumer, LineCounter, counts_lines};
use crate::message::ShownMessage;
use crate::outcome::RunOutcome;
use crate::print::{print_count, print_stop, print_unsent};
use mes_frame::{Limit, Sink, Source, WriteFault};
use mes_msg::EncodeFault;
use mes_stream::{
    Consumer, Framing, MessageReader, Reading, ReadingStop, ReadsEnd, Report, Stop, read_device,
};
use std::alloc::Global;

/// The reason for which not all lines were written.
#[derive(Drop)]
pub(crate) enum LineFault {
    /// The output failed.
    Output(WriteFault),
    /// The message at this index of the stream, counted from 0, has no line.
    NoLine(u64, EncodeFault),
}

/// How many lines of the messages were written.
#[derive(Drop)]
pub(crate) enum ExportProgress {
    /// All; the stream has had this number of messages.
    All(u64),
    /// The lines before a message that has no line. The message is at this index of the stream.
    Until(u64, EncodeFault),
}

/// The reason for which an exporter stopped.
#[derive(Drop)]
pub(crate) enum ExportStop {
    /// The stream ended, or has an error.
    Reading(ReadingStop),
    /// Not all lines were written.
    Line(LineFault),
}

/// Decodes a stream and writes the lines of the messages of each read. Buffers the messages of one
/// read.
#[derive(Drop)]
pub(crate) struct Exporter<M> {
    alloc: Global,
    limit: Limit,
    reading: Reading<MessageReader<M>>,
    messages: Vec<M>,
    // The line of one message. The memory is reused for the next one.
    text: Vec<u8>,
    lines: LineBuffer,
    // The number of messages so far.
    count: u64,
}

impl<M: ShownMessage> Exporter<M> {
    // Writes the line of the message that the end of the input completes, if any: that of a last
    // line without LF. Then prints the summary line or the first error to `err`.
    fn finish<O: Sink, E: Sink>(
        &mut self,
        end: ReadsEnd<ReadingStop>,
        line: Option<u64>,
        out: &mut O,
        err: &mut E,
    ) -> RunOutcome
        ensures { FinishesExport (shown_as M.kind M.word M.lines) self.old end line (O.device out.old)
            (O.device out.new) (E.device err.old) (E.device err.new) result }
    {
        let outcome = self.reading.finish(end, &mut self.messages);
        match export_messages(
            self.alloc,
            self.limit,
            self.messages.as_slice(),
            self.count,
            &mut self.text,
            &mut self.lines,
            out,
        ) {
            Ok(ExportProgress::All(count)) => tell_outcome(err, M::word(), line, count, &outcome),
            Ok(ExportProgress::Until(index, why)) => tell_refused(err, M::word(), index, why),
            Err(fault) => RunOutcome::OutputFailed(fault.sent),
        }
    }
}

impl<M: ShownMessage, O: Sink> Consumer<O> for Exporter<M> {
    type Stop = ExportStop;

    ghost use Rattle.mesosev_stream.specs.Exporting.{ExportGoes, ExportStops};

    ghost goes = { λ first out now printed w. ExportGoes (shown_as M.kind M.word M.lines) first
        (O.device out) now (O.device printed) w };

    ghost stops = { λ first out now printed w piece stop. ExportStops
        (shown_as M.kind M.word M.lines) first (O.device out) now (O.device printed) w piece
        stop };

    fn consume(&mut self, piece: &[u8], out: &mut O) -> Result<(), ExportStop> {
        let fed = self.reading.feed(piece, &mut self.messages);
        match export_messages(
            self.alloc,
            self.limit,
            self.messages.as_slice(),
            self.count,
            &mut self.text,
            &mut self.lines,
            out,
        ) {
            Ok(ExportProgress::All(count)) => self.count = count,
            Ok(ExportProgress::Until(index, why)) => {
                return Err(ExportStop::Line(LineFault::NoLine(index, why)));
            }
            Err(fault) => return Err(ExportStop::Line(LineFault::Output(fault))),
        }
        self.messages.clear();
        match fed {
            Ok(()) => Ok(()),
            Err(stop) => Err(ExportStop::Reading(stop)),
        }
    }
}

impl<M: ShownMessage, O: Sink> LineConsumer<O> for Exporter<M> {
    ghost use Rattle.mesosev_stream.specs.Exporting.{StartsLines};

    ghost starts = { λ d. StartsLines (shown_as M.kind M.word M.lines) d };

    fn line_feeds(&self) -> u64 {
        self.reading.line_feeds()
    }
}

/// Decodes `input`, and writes the messages of each read to `out` as JSON Lines, before the next
/// read. Then prints a summary line or the first error to `err`. Reads at most `max_reads` times,
/// and stops reading once a write to `out` fails. Errors in writing to `err` are ignored.
///
/// If a message has no canonical JSON of at most `limit` bytes, writes the messages before it,
/// prints that error to `err`, and stops. Buffers the messages of one read and at most
/// `MAX_LINE_BUFFER` bytes of output. If that buffer cannot be allocated, the lines are written
/// directly.
pub fn export<M: ShownMessage, I: Source, O: Sink, E: Sink>(
    alloc: Global,
    framing: Framing,
    limit: Limit,
    max_reads: u64,
    input: &mut I,
    out: &mut O,
    err: &mut E,
) -> RunOutcome
    requires { max_reads ≤ MAX_READS }
    // The bytes read, the lines written, the line printed, and the outcome.
    ensures { Exports (shown_as M.kind M.word M.lines) framing limit max_reads
        (I.device input.old) (I.device input.new) (O.device out.old) (O.device out.new)
        (E.device err.old) (E.device err.new) result }
{
    let exporter = Exporter {
        alloc,
        limit,
        reading: Reading::new(framing, MessageReader::<M>::new(alloc), limit),
        messages: Vec::new(alloc),
        text: Vec::new(alloc),
        lines: LineBuffer::new(alloc),
        count: 0,
    };
    let mut counter = LineCounter::new(exporter, counts_lines(framing));
    let end = read_device(input, max_reads, &mut counter, out);
    let line = counter.line_of(framing, counter.inner.reading.used());
    match ended(end) {
        Ok(end) => counter.inner.finish(end, line, out, err),
        Err(LineFault::NoLine(index, why)) => tell_refused(err, M::word(), index, why),
        Err(LineFault::Output(fault)) => RunOutcome::OutputFailed(fault.sent),
    }
}

/// Returns how the reads ended; or the reason for which not all lines were written.
fn ended(end: ReadsEnd<ExportStop>) -> Result<ReadsEnd<ReadingStop>, LineFault>
    ensures { result ≡ read_of end }
{
    match end {
        ReadsEnd::Stopped(ExportStop::Reading(stop)) => Ok(ReadsEnd::Stopped(stop)),
        ReadsEnd::Stopped(ExportStop::Line(fault)) => Err(fault),
        ReadsEnd::AtEnd => Ok(ReadsEnd::AtEnd),
        ReadsEnd::Failed => Ok(ReadsEnd::Failed),
        ReadsEnd::Spent => Ok(ReadsEnd::Spent),
    }
}

/// Prints the result of reading a stream with this number of messages, whose printed name is
/// `word`. The status is `Success` if the stream was read to its end, and `Fault` otherwise. Errors
/// in writing are ignored.
fn tell_outcome<E: Sink>(
    err: &mut E,
    word: &str,
    line: Option<u64>,
    messages: u64,
    outcome: &Result<Report, Stop>,
) -> RunOutcome
    requires { length word.now ≤ 5 }
    ensures told { Tells (E.device err.old) (E.device err.new)
        (outcome_line word.now line messages outcome.now ++ 10 ∷ []) }
    ensures status { result ≡ RunOutcome.Status (outcome_status outcome.now) }
{
    match outcome {
        Ok(report) => {
            let _ = print_count(err, word, messages, report.used);
            RunOutcome::Status(ExitStatus::Success)
        }
        Err(stop) => {
            let _ = print_stop(err, line, stop);
            RunOutcome::Status(ExitStatus::Fault)
        }
    }
}

/// Prints that the message at this index has no line; `word` is its printed name. The status is
/// `Fault`. Errors in writing are ignored.
fn tell_refused<E: Sink>(err: &mut E, word: &str, index: u64, why: EncodeFault) -> RunOutcome
    requires { length word.now ≤ 5 }
    ensures told { Tells (E.device err.old) (E.device err.new)
        (unsent_text word.now (fault_at index why) ++ 10 ∷ []) }
    ensures status { result ≡ RunOutcome.Status ExitStatus.Fault }
{
    let _ = print_unsent(err, word, &refused_at(index as usize, why));
    RunOutcome::Status(ExitStatus::Fault)
}

/// Writes the lines of the messages. There were `before` other messages before these. If a message
/// has no line, writes the lines before it.
fn export_messages<M: ShownMessage, O: Sink>(
    alloc: Global,
    limit: Limit,
    messages: &[M],
    before: u64,
    text: &mut Vec<u8>,
    lines: &mut LineBuffer,
    out: &mut O,
) -> Result<ExportProgress, WriteFault>
    ensures { (number : ℕ) → before ≡ saturated number → ExportsMessages
        (shown_as M.kind M.word M.lines) limit lines.old lines.new
        (O.device out.old) (O.device out.new)
        number messages.now result }
{
    let progress = match hold_lines(alloc, limit, messages, before, text, lines, out) {
        Ok(progress) => progress,
        Err(fault) => return Err(fault),
    };
    match lines.flush(out) {
        Ok(()) => Ok(progress),
        Err(fault) => Err(fault),
    }
}

/// Buffers the lines of the messages. There were `before` other messages before these. If a message
/// has no line, buffers the lines before it.
fn hold_lines<M: ShownMessage, O: Sink>(
    alloc: Global,
    limit: Limit,
    messages: &[M],
    before: u64,
    text: &mut Vec<u8>,
    lines: &mut LineBuffer,
    out: &mut O,
) -> Result<ExportProgress, WriteFault>
    ensures ok { IfOk result (λ progress. (number : ℕ) → before ≡ saturated number → ExportsFrom
        (shown_as M.kind M.word M.lines) (HoldsText lines.old lines.new (O.device out.old)
        (O.device out.new)) limit number messages.now progress) }
    ensures err { IfErr result (λ fault. Stops (O.device out.old).bytes (O.device out.new).bytes
        (O.device out.old).counts (O.device out.new).counts (lines.old.held.items
        ++ json_lines (shown_as M.kind M.word M.lines) messages.now) lines.old.sent fault) }
{
    let mut count = before;
    for message in messages {
        if let Err(why) = line_into(alloc, message, limit, text) {
            return Ok(ExportProgress::Until(count, why));
        }
        if let Err(fault) = lines.hold(out, text.as_slice()) {
            return Err(fault);
        }
        count = count.saturating_add(1);
    }
    Ok(ExportProgress::All(count))
}
