//! Decodes a stream of messages of any framing from a device.

ghost use Rattle.std.specs.Prelude.{◌≡◌, ◌≢◌, ℕ, List, [], ◌++◌, IfErr};
ghost use Rattle.std.specs.Io.KnownBytes.{Consumes};
ghost use Rattle.mes_stream.specs.Reading.{EndsReading, EndsPlain, EndsStream};
ghost use Rattle.mes_msg.specs.Texts.{IsTextOf};
ghost use Rattle.mes_stream.specs.RecordValues.{IsRefused};
ghost use Rattle.mes_stream.specs.Refusals.{IsMessageRefusal};
ghost use Rattle.mes_msg.specs.Event.{Event as EventValue};

use crate::counted_reader::Reading;
use crate::fault::{Fault, Report, Stop};
use crate::message::StreamMessage;
use crate::message_reader::MessageReader;
use crate::read_loop::read_device;
use crate::record_reader::RecordReader;
use crate::stream_reader::Framing;
use mes_frame::{Limit, Source};
use mes_msg::Event;
use std::alloc::Global;

/// Reads plain RecordIO to the end of the reader, and appends its events to `events`. After an
/// error, `events` has the events before the error. Makes at most `max_reads` reads of at most
/// `MAX_READ` bytes each.
pub fn read_plain<S: Source>(
    alloc: Global,
    reader: &mut S,
    limit: Limit,
    max_reads: u64,
    events: &mut Vec<Event>,
) -> Result<Report, Stop>
    // The bytes `w` were read, their events appended, and `EndsPlain` describes the result.
    ensures reads { (w : List ℕ) × (more : List EventValue)
        × Consumes (S.device reader.old).bytes (S.device reader.new).bytes w
        × (events.new.items ≡ events.old.items ++ more)
        × EndsPlain limit max_reads (S.device reader.old).counts (S.device reader.new).counts (S.device reader.new).bytes
        w more result }
    // F16 never occurs.
    ensures entries { IfErr result (λ stop. (n : ℕ) → stop.fault ≢ Fault.BadEntry n) }
{
    read_messages(alloc, reader, Framing::Plain, limit, max_reads, events)
}

/// Like [`read_plain`], for a chunked stream, up to the end of its body. The report contains the
/// bytes of the last read that follow the end of the body.
pub fn read_stream<S: Source>(
    alloc: Global,
    reader: &mut S,
    limit: Limit,
    max_reads: u64,
    events: &mut Vec<Event>,
) -> Result<Report, Stop>
    // The bytes `w` were read, their events appended, and `EndsStream` describes the result.
    ensures reads { (w : List ℕ) × (more : List EventValue)
        × Consumes (S.device reader.old).bytes (S.device reader.new).bytes w
        × (events.new.items ≡ events.old.items ++ more)
        × EndsStream limit max_reads (S.device reader.old).counts (S.device reader.new).counts (S.device reader.new).bytes
        w more result }
    // F16 never occurs.
    ensures entries { IfErr result (λ stop. (n : ℕ) → stop.fault ≢ Fault.BadEntry n) }
{
    read_messages(alloc, reader, Framing::Chunked, limit, max_reads, events)
}

/// Like [`read_plain`] or [`read_stream`], for the given framing, and for events or calls. The end
/// of JSON Lines ends the last line, like a LF.
pub fn read_messages<M: StreamMessage, S: Source>(
    alloc: Global,
    reader: &mut S,
    framing: Framing,
    limit: Limit,
    max_reads: u64,
    messages: &mut Vec<M>,
) -> Result<Report, Stop>
    // The bytes `w` were read, their messages appended, and `EndsReading` describes the result.
    ensures reads { (w : List ℕ) × (more : List M)
        × Consumes (S.device reader.old).bytes (S.device reader.new).bytes w
        × (messages.new.items ≡ messages.old.items ++ more)
        × EndsReading framing (IsTextOf M.kind) (IsMessageRefusal M.kind) limit max_reads
        (S.device reader.old).counts (S.device reader.new).counts (S.device reader.new).bytes w more
        result }
    // F16 never occurs.
    ensures entries { IfErr result (λ stop. (n : ℕ) → stop.fault ≢ Fault.BadEntry n) }
{
    let records = MessageReader::new(alloc);
    read_records(reader, framing, records, limit, max_reads, messages)
}

// Like `read_messages`, for any reader of records before its first byte.
fn read_records<R: RecordReader, S: Source>(
    reader: &mut S,
    framing: Framing,
    records: R,
    limit: Limit,
    max_reads: u64,
    values: &mut Vec<R::Value>,
) -> Result<Report, Stop>
    requires { R.holds records [] }
    ensures { (w : List ℕ) × (more : List R.Value)
        × Consumes (S.device reader.old).bytes (S.device reader.new).bytes w
        × (values.new.items ≡ values.old.items ++ more)
        × EndsReading framing R.spells (IsRefused R.spells R.breaks) limit max_reads
        (S.device reader.old).counts (S.device reader.new).counts (S.device reader.new).bytes w more result }
{
    let mut reading = Reading::new(framing, records, limit);
    let end = read_device(reader, max_reads, &mut reading, values);
    reading.finish(end, values)
}
