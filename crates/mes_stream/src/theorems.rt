//! Laws of the definitions that the contracts use. Each function does nothing; its contract is the
//! law.

ghost use Rattle.std.specs.Prelude.{◌≡◌, ℕ, List, [], Result};
ghost use Rattle.mes_msg.specs.Events.{Spells};
ghost use Rattle.mes_stream.specs.Refusals.{IsEventRefusal};
ghost use Rattle.mes_msg.specs.Event.{Event as EventValue};
ghost use Rattle.mes_frame.specs.Chunk.{IsChunked};
ghost use Rattle.mes_frame.specs.ChunkFront.{IsOpen};
ghost use Rattle.mes_stream.specs.Answers.{AnswersLines, AnswersStream, AnswersPlain, IsDecidedByBytes, IsSameOutcome, EndsAlike};
ghost use Rattle.mes_stream.specs.Chunked.{IsStream, Live};
ghost use Rattle.mes_stream.specs.Decoders.{DecoderRepresents};
ghost use Rattle.mes_stream.specs.MessageData.{HoldsData};
ghost use Rattle.mes_stream.specs.Pieces.{DecodeOutcome, Decodes, HadMemory, joined};
ghost use Rattle.mes_stream.specs.declared.decoder.RecordDecoder.{RecordDecoder as DecoderValue};
ghost use Rattle.mes_stream.specs.declared.message_reader.MessageReader.{MessageReader as ReaderValue};
ghost use Rattle.mes_stream.specs.declared.step.Decoded.{Decoded as Answer};
ghost use Rattle.mes_stream.specs.declared.fault.Fault.{Fault};
ghost use Rattle.mes_stream.specs.declared.fault.Report.{Report};
ghost use Rattle.mes_stream.specs.declared.fault.Stop.{Stop};
ghost use Rattle.mes_stream.specs.LineReading.{ReadsLines};
ghost use Rattle.mes_stream.specs.PlainReading.{IsDecided, IsExact, PlainReading, ReadsPlain};
ghost use Rattle.mes_stream.specs.StreamReading.{StreamReading, ReadsStream, IsAlike};

use crate::limits::{MAX_COUNT_LINE, MAX_FAULT_LINE, MAX_READ, MAX_REST};
use crate::message_reader::EventReader;
use crate::record_reader::RecordReader;
use mes_msg::{Event, message_reading_is_unique};

/// Proves that any bytes have exactly one reading as plain RecordIO: the bytes are a prefix of a
/// stream, or an error is detected at one of the bytes.
pub fn plain_reading_is_unique<R: RecordReader>()
    // At least one reading, if the data of every record have a value or an error.
    ensures some { IsDecided R.spells R.breaks → (ahead limit : ℕ) (w : List ℕ)
        → (reading : PlainReading R.Value) × ReadsPlain R.spells R.breaks ahead limit w reading }
    // At most one reading, if the data of no record have two values or errors.
    ensures one { IsExact R.spells R.breaks
        → (ahead limit : ℕ) (w : List ℕ) (reading other : PlainReading R.Value)
        → ReadsPlain R.spells R.breaks ahead limit w reading
        → ReadsPlain R.spells R.breaks ahead limit w other → reading ≡ other }
{}

/// Proves that any bytes have exactly one reading as JSON Lines: the bytes are lines, and perhaps a
/// part of one more line, or an error is detected at one of the bytes.
pub fn line_reading_is_unique<R: RecordReader>()
    // At least one reading, if every record has a value or an error.
    ensures some { IsDecided R.spells R.breaks → (ahead limit : ℕ) (w : List ℕ)
        → (reading : PlainReading R.Value) × ReadsLines R.spells R.breaks ahead limit w reading }
    // At most one reading, if no record has two values or errors.
    ensures one { IsExact R.spells R.breaks
        → (ahead limit : ℕ) (w : List ℕ) (reading other : PlainReading R.Value)
        → ReadsLines R.spells R.breaks ahead limit w reading
        → ReadsLines R.spells R.breaks ahead limit w other → reading ≡ other }
{}

/// Proves that any bytes have exactly one reading as a chunked stream: the bytes are a prefix of a
/// stream, the bytes begin with a whole stream, or an error is detected at one of the bytes.
pub fn stream_reading_is_unique<R: RecordReader>()
    // At least one reading, if the data of every record have a value or an error.
    ensures some { IsDecided R.spells R.breaks → (ahead limit : ℕ) (w : List ℕ)
        → (reading : StreamReading R.Value) × ReadsStream R.spells R.breaks ahead limit w reading }
    // At most one reading, if the data of no record have two values or errors.
    ensures one { IsExact R.spells R.breaks
        → (ahead limit : ℕ) (w : List ℕ) (reading other : StreamReading R.Value)
        → ReadsStream R.spells R.breaks ahead limit w reading
        → ReadsStream R.spells R.breaks ahead limit w other → reading ≡ other }
{}

/// Proves that the chunking of a body, or of a prefix of one, changes neither the values nor the
/// error of its records.
pub fn chunking_is_irrelevant<R: RecordReader>()
    // The chunking of a whole stream does not change its values.
    ensures stream { (limit : ℕ) (w v body : List ℕ) (values : List R.Value) → IsChunked w body
        → IsChunked v body → IsStream R.spells limit w values → IsStream R.spells limit v values }
    // The chunking of a prefix of a stream does not change its values.
    ensures live { (limit : ℕ) (w v body : List ℕ) (values : List R.Value) → IsOpen w body
        → IsOpen v body → Live R.spells limit w values → Live R.spells limit v values }
    // Two chunkings of a whole body have the same values, and the same error in a record.
    ensures whole { IsExact R.spells R.breaks
        → (ahead limit : ℕ) (w v body : List ℕ) (reading other : StreamReading R.Value)
        → IsChunked w body → IsChunked v body
        → ReadsStream R.spells R.breaks ahead limit w reading
        → ReadsStream R.spells R.breaks ahead limit v other → IsAlike reading other }
    // Two chunkings of a prefix of a body have the same values, and the same error in a record.
    ensures front { IsExact R.spells R.breaks
        → (ahead limit : ℕ) (w v body : List ℕ) (reading other : StreamReading R.Value)
        → IsOpen w body → IsOpen v body
        → ReadsStream R.spells R.breaks ahead limit w reading
        → ReadsStream R.spells R.breaks ahead limit v other → IsAlike reading other }
{}

/// Proves the values of `MAX_READ` and `MAX_REST` (512 bytes), `MAX_FAULT_LINE` and
/// `MAX_COUNT_LINE`.
pub fn stream_limits()
    ensures reads { (MAX_READ ≡ 512) × (MAX_REST ≡ 512) }
    ensures lines { (MAX_FAULT_LINE ≡ 640) × (MAX_COUNT_LINE ≡ 64) }
{}

/// Proves that any bytes have exactly one reading as a stream of events: as plain RecordIO, as JSON
/// Lines, and as a chunked stream.
pub fn event_reading_is_unique()
    // Plain RecordIO: at least one reading.
    ensures some_plain { (limit : ℕ) (w : List ℕ)
        → (reading : PlainReading EventValue) × ReadsPlain Spells IsEventRefusal 0 limit w reading }
    // Plain RecordIO: at most one reading.
    ensures one_plain { (limit : ℕ) (w : List ℕ) (reading other : PlainReading EventValue)
        → ReadsPlain Spells IsEventRefusal 0 limit w reading
        → ReadsPlain Spells IsEventRefusal 0 limit w other → reading ≡ other }
    // JSON Lines: at least one reading.
    ensures some_lines { (limit : ℕ) (w : List ℕ)
        → (reading : PlainReading EventValue) × ReadsLines Spells IsEventRefusal 0 limit w reading }
    // JSON Lines: at most one reading.
    ensures one_lines { (limit : ℕ) (w : List ℕ) (reading other : PlainReading EventValue)
        → ReadsLines Spells IsEventRefusal 0 limit w reading
        → ReadsLines Spells IsEventRefusal 0 limit w other → reading ≡ other }
    // A chunked stream: at least one reading.
    ensures some_stream { (limit : ℕ) (w : List ℕ)
        → (reading : StreamReading EventValue)
        × ReadsStream Spells IsEventRefusal 0 limit w reading }
    // A chunked stream: at most one reading.
    ensures one_stream { (limit : ℕ) (w : List ℕ) (reading other : StreamReading EventValue)
        → ReadsStream Spells IsEventRefusal 0 limit w reading
        → ReadsStream Spells IsEventRefusal 0 limit w other → reading ≡ other }
    // The chunking of a body changes neither its events nor the error in a record.
    ensures one_body { (limit : ℕ) (w v body : List ℕ) (reading other : StreamReading EventValue)
        → IsChunked w body → IsChunked v body
        → ReadsStream Spells IsEventRefusal 0 limit w reading
        → ReadsStream Spells IsEventRefusal 0 limit v other → IsAlike reading other }
    // Like `one_body`, for a prefix of a body.
    ensures one_front { (limit : ℕ) (w v body : List ℕ) (reading other : StreamReading EventValue)
        → IsOpen w body → IsOpen v body
        → ReadsStream Spells IsEventRefusal 0 limit w reading
        → ReadsStream Spells IsEventRefusal 0 limit v other → IsAlike reading other }
{
    message_reading_is_unique::<Event>();
    plain_reading_is_unique::<EventReader>();
    line_reading_is_unique::<EventReader>();
    stream_reading_is_unique::<EventReader>();
    chunking_is_irrelevant::<EventReader>();
}

/// Proves that the result of `read_stream` depends neither on the chunking of a body nor on the
/// sizes of the reads: the events, and the end or error, are the same. The condition: no read and
/// no allocation fails, and the reads suffice.
pub fn one_answer()
    // Two chunkings of a body: the same events, and the same end or error.
    ensures body { (limit : ℕ) (w v body : List ℕ) (events others : List EventValue)
        (outcome other : Result Report Stop) → IsChunked w body → IsChunked v body
        → AnswersStream limit w events outcome → AnswersStream limit v others other
        → IsDecidedByBytes outcome → IsDecidedByBytes other
        → (events ≡ others) × EndsAlike outcome other }
    // Two chunkings of a prefix of a body: the same events, and the same end or error.
    ensures front { (limit : ℕ) (w v body : List ℕ) (events others : List EventValue)
        (outcome other : Result Report Stop) → IsOpen w body → IsOpen v body
        → AnswersStream limit w events outcome → AnswersStream limit v others other
        → IsDecidedByBytes outcome → IsDecidedByBytes other
        → (events ≡ others) × EndsAlike outcome other }
{
    event_reading_is_unique();
}

/// Proves that the result of a decoder does not depend on how the bytes are cut into pieces. The
/// events, the end or error and the number of bytes used are the same, if no allocation fails.
pub fn one_decoding()
    // The same concatenated pieces, the same outcome.
    ensures { (limit : ℕ) (first second : DecoderValue (ReaderValue EventValue)) (pieces others : List (List ℕ))
        (calls more : List (ℕ × Answer EventValue Fault)) (outcome other : DecodeOutcome)
        → DecoderRepresents HoldsData Spells first limit [] []
        → DecoderRepresents HoldsData Spells second limit [] [] → joined pieces ≡ joined others
        → Decodes first pieces calls outcome → Decodes second others more other → HadMemory outcome
        → HadMemory other → outcome ≡ other }
{
    event_reading_is_unique();
}

/// Proves that the result of `read_stream` does not depend on the sizes of the reads. The events,
/// the end or error, the number of bytes used and the bytes after the end are the same. The
/// condition: no read and no allocation fails, and the reads suffice.
pub fn one_stream_outcome()
    // The same bytes of the device, the same events and result.
    ensures { (limit : ℕ) (w : List ℕ) (events others : List EventValue)
        (outcome other : Result Report Stop) (a : AnswersStream limit w events outcome)
        (b : AnswersStream limit w others other)
        → IsDecidedByBytes outcome → IsDecidedByBytes other
        → (events ≡ others) × IsSameOutcome a.left b.left outcome other }
{
    event_reading_is_unique();
}

/// Like [`one_stream_outcome`], for `read_plain`.
pub fn one_plain_outcome()
    // The same bytes of the device, the same events and result.
    ensures { (limit : ℕ) (w : List ℕ) (events others : List EventValue)
        (outcome other : Result Report Stop) (a : AnswersPlain limit w events outcome)
        (b : AnswersPlain limit w others other)
        → IsDecidedByBytes outcome → IsDecidedByBytes other
        → (events ≡ others) × IsSameOutcome a.left b.left outcome other }
{
    message_reading_is_unique::<Event>();
    event_reading_is_unique();
}

/// Like [`one_stream_outcome`], for [`read_messages`](crate::read_messages) of JSON Lines.
pub fn one_line_outcome()
    // The same bytes of the device, the same events and result.
    ensures { (limit : ℕ) (w : List ℕ) (events others : List EventValue)
        (outcome other : Result Report Stop) (a : AnswersLines limit w events outcome)
        (b : AnswersLines limit w others other)
        → IsDecidedByBytes outcome → IsDecidedByBytes other
        → (events ≡ others) × IsSameOutcome a.left b.left outcome other }
{
    event_reading_is_unique();
}
