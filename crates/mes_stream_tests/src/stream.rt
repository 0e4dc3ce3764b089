//! Plain RecordIO with few reads, and chunked streams in pieces and from a device.

use crate::support::*;
use mes_frame::{Limit, MemorySource};
use mes_msg::Event;
use mes_stream::{Decoded, Decoder, EventReader, Fault, Framing, Report, Stop};
use std::alloc::{AllocGlobal, Global};
use std::process::Abort;
use std::test::Fail;

mod line;
mod readers;
mod reads;
mod send;

const ERROR: &[u8] = b"40\n{\"type\":\"ERROR\",\"error\":{\"message\":\"m\"}}";

// Reading `ERROR` must succeed and return the event in it.
fn expect_error<R: Abort>(
    rt: &R,
    end: &Result<Report, Stop>,
    events: &[Event],
) -> Result<(), Fail> {
    match end {
        Ok(report) => assert_eq!(rt; (report.used, report.rest.is_empty()), (43, true)),
        Err(_) => Err("the stream is whole")?,
    }
    assert_eq!(rt; events.len(), 1);
    match events.first() {
        Some(Event::Error(body)) => assert_eq!(rt; body.message.as_str(), "m"),
        _ => Err("the event is an error")?,
    }
    Ok(())
}

// The record has 43 bytes: with one byte for each read, 44 reads are enough.
fn expect_whole<R: Abort + AllocGlobal>(rt: &R) -> Result<(), Fail> {
    let mut events = Vec::new(rt.alloc());
    let mut source = MemorySource::new(ERROR, 1);
    let end = read_into(rt.alloc(), Framing::Plain, &mut source, 44, &mut events);
    let reported = expect_error(rt, &end, events.as_slice());
    drop(end);
    drop(events);
    reported
}

// With one byte for each read, the 43 bytes need 43 reads, and the end needs one more.
#[test]
fn reads_are_counted(rt: HostRuntime) -> Result<(), Fail> {
    for max_reads in 0..44 {
        let spent = read_by_bytes(rt.alloc(), Framing::Plain, ERROR, max_reads);
        assert_eq!(rt; spent, ("F15 ReadsSpent", max_reads, max_reads));
    }
    expect_whole(&rt)
}

// Two records and the beginning of a third, in one incomplete chunk.
const TWO_AND_MORE: &[u8] =
    b"33\r\n20\n{\"type\":\"HEARTBEAT\"}20\n{\"type\":\"HEARTBEAT\"}20\n{\"";

fn decoder(alloc: Global) -> Decoder {
    Decoder::new(alloc, Limit::USUAL)
}

// Returns the name of a result; for an error, its number and name.
fn name_of(out: &Decoded<Event>) -> &'static str {
    match out {
        Decoded::More => "more",
        Decoded::Event(Event::Heartbeat) => "HEARTBEAT",
        Decoded::Event(_) => "another event",
        Decoded::End => "end",
        Decoded::Fault(fault) => fault.title(),
    }
}

fn name_of_end(end: &Result<(), Fault>) -> &'static str {
    match end {
        Ok(()) => "end",
        Err(fault) => fault.title(),
    }
}

// Returns the name of the result, and the number of bytes used.
fn reported(decoder: &mut Decoder, piece: &[u8]) -> (&'static str, usize) {
    let step = decoder.next(piece);
    (name_of(&step.out), step.used)
}

fn end_name(decoder: &Decoder) -> &'static str {
    name_of_end(&decoder.finish())
}

fn push_answer(alloc: Global, found: &mut String, name: &str, used: usize) -> Result<(), Fail> {
    let answer = format!(in alloc; "{name} {used};")?;
    Ok(found.push_str(answer.as_str())?)
}

// Decodes a whole piece, and appends all results except `more`. Returns the number of bytes used,
// or `None` after the end or an error.
fn take_piece(
    alloc: Global,
    decoder: &mut Decoder,
    piece: &[u8],
    before: usize,
    found: &mut String,
) -> Result<Option<usize>, Fail> {
    let mut rest = piece;
    let mut total = before;
    for _ in 0..piece.len() {
        if rest.is_empty() {
            break;
        }
        let (answer, used) = reported(decoder, rest);
        total = total.saturating_add(used);
        rest = rest.get(used..).ok_or("no more is used than there is")?;
        if answer != "more" {
            push_answer(alloc, found, answer, total)?;
        }
        if answer != "more" && answer != "HEARTBEAT" {
            return Ok(None);
        }
    }
    Ok(Some(total))
}

// Appends `more` and the outcome of the end of the input, if the pieces brought neither an end nor
// an error.
fn take_end(alloc: Global, decoder: &Decoder, used: usize, found: &mut String) -> Result<(), Fail> {
    push_answer(alloc, found, "more", used)?;
    push_answer(alloc, found, end_name(decoder), used)
}

// Decodes two consecutive pieces, and the end of the input.
fn take_two(
    alloc: Global,
    decoder: &mut Decoder,
    front: &[u8],
    rest: &[u8],
    found: &mut String,
) -> Result<(), Fail> {
    let mut total = take_piece(alloc, decoder, front, 0, found)?;
    if let Some(before) = total {
        total = take_piece(alloc, decoder, rest, before, found)?;
    }
    match total {
        Some(used) => take_end(alloc, decoder, used, found),
        None => Ok(()),
    }
}

// Decodes a stream in pieces of one byte, and the end of the input.
fn take_bytes(
    alloc: Global,
    decoder: &mut Decoder,
    stream: &[u8],
    found: &mut String,
) -> Result<(), Fail> {
    let mut total = 0;
    for byte in stream {
        match take_piece(alloc, decoder, &[*byte], total, found)? {
            Some(used) => total = used,
            None => return Ok(()),
        }
    }
    take_end(alloc, decoder, total, found)
}

fn found_in_two(alloc: Global, front: &[u8], rest: &[u8]) -> Result<String, Fail> {
    let mut found = String::new(alloc);
    let mut decoder = decoder(alloc);
    let taken = take_two(alloc, &mut decoder, front, rest, &mut found);
    drop(decoder);
    taken?;
    Ok(found)
}

fn found_in_bytes(alloc: Global, stream: &[u8]) -> Result<String, Fail> {
    let mut found = String::new(alloc);
    let mut decoder = decoder(alloc);
    let taken = take_bytes(alloc, &mut decoder, stream, &mut found);
    drop(decoder);
    taken?;
    Ok(found)
}

// The results must be the same for each cut of the stream into two pieces, and for pieces of one
// byte.
fn expect<R: Abort + AllocGlobal>(rt: &R, stream: &[u8], answers: &str) -> Result<(), Fail> {
    for cut in 0..stream.len() {
        let (front, rest) = stream.split_at(cut);
        let found = found_in_two(rt.alloc(), front, rest)?;
        assert_eq!(rt; found.as_str(), answers, "{cut}");
    }
    let found = found_in_bytes(rt.alloc(), stream)?;
    assert_eq!(rt; found.as_str(), answers, "by bytes");
    Ok(())
}

fn expect_row<R: Abort + AllocGlobal>(rt: &R, row: &str) -> Result<(), Fail> {
    let (text, answers) = row_of(row)?;
    let stream = bytes_of(rt.alloc(), text)?;
    let reported = expect(rt, stream.as_slice(), answers);
    drop(stream);
    reported
}

// Each row: a stream, and the results of decoding it except `more`, each with the number of bytes
// used. Without an end or an error, `more` and the outcome of the end of the input follow.
const STREAMS: &str =
    r#"33|20~{"type":"HEARTBEAT"}20~{"type":"HEARTBEAT"}20~{" => HEARTBEAT 27;HEARTBEAT 50;more 55;F6 EndsInsideChunks 55;
2|5~|0|| => F10 EndsInsideRecord 12;
5|20~ => more 6;F6 EndsInsideChunks 6;
0||XYZ => end 5;
g => F1 BadChunkLine 1;
1~ => F1 BadChunkLine 2;
10000000000000000 => F3 ChunkTooLarge 17;
1|2X => F4 BadChunkEnd 5;
2|0~| => F11 Text 5;
1|x => F7 BadSizeLine 4;
4|2~{} => F12 Field 7;"#;

fn with_letters(alloc: Global, front: &[u8], count: usize) -> Result<Vec<u8>, Fail> {
    let letters = "a".repeat(alloc, count)?;
    Ok([front, letters.as_bytes()].concat(alloc)?)
}

#[test]
fn streams_are_read_alike_in_every_cut(rt: HostRuntime) -> Result<(), Fail> {
    for row in STREAMS.lines() {
        expect_row(&rt, row)?;
    }
    expect(&rt, HEARTBEAT_BY_BYTES, "HEARTBEAT 136;end 143;")?;
    let long_line = with_letters(rt.alloc(), b"1;", 255)?;
    expect(&rt, long_line.as_slice(), "F2 ChunkLineTooLong 257;")
}

// A record in one chunk, and the end.
#[test]
fn one_chunk_is_read_alike_in_every_cut(rt: HostRuntime) -> Result<(), Fail> {
    expect(&rt, ONE_CHUNK, "HEARTBEAT 27;end 34;")
}

#[test]
fn long_trailers_are_refused_in_every_cut(rt: HostRuntime) -> Result<(), Fail> {
    let trailers = with_letters(rt.alloc(), b"0\r\n", 4097)?;
    assert_eq!(rt; trailers.len(), 4100);
    expect(&rt, trailers.as_slice(), "F5 TrailersTooLong 4100;")
}

// Decodes one byte of `HEARTBEAT_BY_BYTES`; the input may end only after the last one.
fn expect_byte<R: Abort>(rt: &R, decoder: &mut Decoder, at: usize, byte: u8) {
    let answer = match at {
        135 => "HEARTBEAT",
        142 => "end",
        _ => "more",
    };
    assert_eq!(rt; reported(decoder, &[byte]), (answer, 1), "{at}");
    assert_eq!(rt; end_name(decoder) == "end", at == 142);
}

// No byte is used after the end.
fn expect_bytes<R: Abort>(rt: &R, decoder: &mut Decoder, stream: &[u8]) {
    for (at, byte) in stream.iter().enumerate() {
        expect_byte(rt, decoder, at, *byte);
    }
    assert_eq!(rt; reported(decoder, b"more"), ("end", 0));
}

// Pieces of one byte.
#[test]
fn a_stream_is_read_byte_by_byte(rt: HostRuntime) {
    assert_eq!(rt; HEARTBEAT_BY_BYTES.len(), 143);
    let mut decoder = decoder(rt.alloc());
    expect_bytes(&rt, &mut decoder, HEARTBEAT_BY_BYTES);
}

fn expect_two_records<R: Abort>(rt: &R, decoder: &mut Decoder) {
    assert_eq!(rt; reported(decoder, TWO_AND_MORE), ("HEARTBEAT", 27));
    assert_eq!(rt; reported(decoder, &TWO_AND_MORE[27..]), ("HEARTBEAT", 23));
    assert_eq!(rt; reported(decoder, &TWO_AND_MORE[50..]), ("more", 5));
    assert_eq!(rt; end_name(decoder), "F6 EndsInsideChunks");
}

#[test]
fn two_records_of_one_piece_are_two_events(rt: HostRuntime) {
    let mut decoder = decoder(rt.alloc());
    expect_two_records(&rt, &mut decoder);
}

fn held(decoder: &Decoder) -> u64 {
    decoder.held()
}

fn expect_kept_fault<R: Abort>(rt: &R, decoder: &mut Decoder) {
    let front = reported(decoder, b"20\r\n40\n{\"type\":\"ERR").0;
    assert_eq!(rt; (front, held(decoder)), ("more", 7));
    let fault = reported(decoder, b"01234567890123456X");
    assert_eq!(rt; (fault, held(decoder)), (("F4 BadChunkEnd", 18), 0));
    assert_eq!(rt; reported(decoder, b"0\r\n\r\n"), ("F4 BadChunkEnd", 0));
    assert_eq!(rt; end_name(decoder), "F4 BadChunkEnd");
}

#[test]
fn a_fault_is_final_and_nothing_is_buffered(rt: HostRuntime) {
    let mut decoder = decoder(rt.alloc());
    expect_kept_fault(&rt, &mut decoder);
}
