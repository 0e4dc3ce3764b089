//! The subcommand `convert`. `follower.rt` has `check` and `show`.

ghost use Rattle.std.specs.Prelude.{◌≡◌, OnOk, IfErr, List, ℕ};
ghost use Rattle.mes_stream.specs.Sending.{StopsSending, WroteAll};
ghost use Rattle.mesosev_stream.specs.Converting.{Converts, IsConverted, Sends};
ghost use Rattle.mesosev_stream.specs.JsonLines.{IsLinesOf};
ghost use Rattle.mesosev_stream.specs.Messages.{shown_as};

use crate::chunk_size::ChunkSize;
use crate::exit_status::ExitStatus;
use crate::gatherer::read_all;
use crate::json_lines::encode_lines;
use crate::message::ShownMessage;
use crate::print::{print_stop, print_unsent};
use mes_frame::{Limit, Sink, Source, write_all};
use mes_stream::{Framing, SendFault, write_plain, write_stream};
use std::alloc::Global;

/// The form in which messages are written.
#[derive(Clone, Copy, Debug, PartialEq, Eq)]
pub enum OutputFormat {
    /// Plain RecordIO.
    Plain,
    /// RecordIO in chunks of this size.
    Chunked(ChunkSize),
    /// JSON Lines: each message and LF.
    JsonLines,
}

/// Reads a stream to its end, and writes its messages in canonical JSON, in the given format.
/// Buffers all messages.
///
/// On an error in the stream nothing is written to `out`; the error is printed to `err`, and the
/// status is `Fault`. Errors in writing to `err` are ignored.
pub fn convert<M: ShownMessage, I: Source, O: Sink, E: Sink>(
    alloc: Global,
    framing: Framing,
    limit: Limit,
    format: OutputFormat,
    input: &mut I,
    out: &mut O,
    err: &mut E,
) -> ExitStatus
    // The bytes read, the messages written, the error printed, and the status.
    ensures { Converts (shown_as M.kind M.word M.lines) framing limit format
        (I.device input.old) (I.device input.new)
        (O.device out.old) (O.device out.new)
        (E.device err.old) (E.device err.new)
        result }
{
    let mut messages = Vec::<M>::new(alloc);
    let (outcome, line) = read_all(alloc, framing, limit, input, &mut messages);
    match outcome {
        Ok(_report) => send(alloc, messages.as_slice(), limit, format, out, err),
        Err(stop) => {
            let _ = print_stop(err, line, &stop);
            ExitStatus::Fault
        }
    }
}

/// Writes the messages, or prints the error. Returns the status.
fn send<M: ShownMessage, O: Sink, E: Sink>(
    alloc: Global,
    messages: &[M],
    limit: Limit,
    format: OutputFormat,
    out: &mut O,
    err: &mut E,
) -> ExitStatus
    ensures { Sends (shown_as M.kind M.word M.lines) limit format messages.now
        (O.device out.old) (O.device out.new)
        (E.device err.old) (E.device err.new)
        result }
{
    match write_messages(alloc, messages, limit, format, out) {
        Ok(()) => ExitStatus::Success,
        Err(fault) => {
            let _ = print_unsent(err, M::word(), &fault);
            ExitStatus::Fault
        }
    }
}

/// Writes the messages in the given format.
fn write_messages<M: ShownMessage, O: Sink>(
    alloc: Global,
    messages: &[M],
    limit: Limit,
    format: OutputFormat,
    out: &mut O,
) -> Result<(), SendFault>
    ensures ok { OnOk result ((w : List ℕ)
        × IsConverted (shown_as M.kind M.word M.lines) limit format messages.now w
        × WroteAll O.device out.old out.new w) }
    ensures err { IfErr result (StopsSending M.kind O.device
        (IsConverted (shown_as M.kind M.word M.lines) limit format messages.now)
        limit messages.now out.old out.new) }
{
    match format {
        OutputFormat::Plain => write_plain(alloc, out, messages, limit),
        OutputFormat::Chunked(most) => write_stream(alloc, out, messages, limit, most.get()),
        OutputFormat::JsonLines => write_lines(alloc, messages, limit, out),
    }
}

/// Writes the messages as JSON Lines.
fn write_lines<M: ShownMessage, O: Sink>(
    alloc: Global,
    messages: &[M],
    limit: Limit,
    out: &mut O,
) -> Result<(), SendFault>
    ensures ok { OnOk result ((w : List ℕ)
        × IsLinesOf (shown_as M.kind M.word M.lines) limit messages.now w
        × WroteAll O.device out.old out.new w) }
    ensures err { IfErr result (StopsSending M.kind O.device
        (IsLinesOf (shown_as M.kind M.word M.lines) limit messages.now)
        limit messages.now out.old out.new) }
{
    let lines = encode_lines(alloc, messages, limit)?;
    write_all(out, lines.as_slice())?;
    Ok(())
}
