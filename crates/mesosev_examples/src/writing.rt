//! Example rows that write events, chunks, calls and HTTP heads.

use crate::bytes::{Bytes, bytes_of};
use crate::messages::call_of;
use crate::outcome::Reported;
use crate::parsing::look_at;
use crate::words::Words;
use arrayvec::ArrayVec;
use http::StatusCode;
use mes_double_http::{StreamId, write_call, write_ok, write_status};
use mes_frame::{FromStd, WriteFault, WriteFaultKind, write_chunked};
use mes_msg::{Call, Event, Limit, SendFault};
use mes_stream::{write_plain, write_stream};
use std::alloc::Global;
use std::io::{self, ErrorKind, Write};

// The number of bytes that a writer accepts before it fails.
const TAKEN_BEFORE_FAILURE: usize = 7;

const STREAM: &str = "s1";

const HOST: &str = "127.0.0.1:5050";

// A writer that accepts `TAKEN_BEFORE_FAILURE` bytes and then fails.
#[derive(Drop)]
struct Failing {
    taken: ArrayVec<u8, TAKEN_BEFORE_FAILURE>,
}

impl Write for Failing {
    fn write(&mut self, bytes: &[u8]) -> io::Result<usize> {
        match self.taken.write(bytes) {
            Ok(0) if !bytes.is_empty() => Err(io::Error::from(ErrorKind::StorageFull)),
            taken => taken,
        }
    }

    fn flush(&mut self) -> io::Result<()> {
        Ok(())
    }
}

/// Writes the event, call or head that an example row names, and prints the written bytes.
pub(crate) fn answer(alloc: Global, row: &str, words: &mut Words) -> Result<(), Reported> {
    let (what, text) = row.split_once(' ').unwrap_or((row, ""));
    match what {
        "plain" => write_heartbeat(alloc, words),
        "chunks" => write_chunks(alloc, words),
        "failing" => write_to_failing(text, words),
        "stream-head" => write_stream_head(words),
        "answer-head" => {
            write_answer_head(words);
            Ok(())
        }
        _ => write_request(alloc, text, words),
    }
}

/// Prints the bytes that were written. If an allocation failed, no byte must have been written.
pub(crate) fn report_sent(
    answer: Result<(), SendFault>,
    written: &Bytes,
    words: &mut Words,
) -> Result<(), Reported> {
    match answer {
        Ok(()) => {
            words.say_bytes(written.as_slice());
            Ok(())
        }
        Err(fault) => Err(Reported::from(fault).or_changed(written.is_empty())),
    }
}

fn write_heartbeat(alloc: Global, words: &mut Words) -> Result<(), Reported> {
    let mut written = Bytes::new();
    let mut sink = FromStd::new(&mut written);
    let answer = write_plain(alloc, &mut sink, &[Event::Heartbeat], Limit::USUAL);
    report_sent(answer, &written, words)
}

// Writes a HEARTBEAT as a chunked body with chunks of one byte.
fn write_chunks(alloc: Global, words: &mut Words) -> Result<(), Reported> {
    let mut written = Bytes::new();
    let mut sink = FromStd::new(&mut written);
    let answer = write_stream(alloc, &mut sink, &[Event::Heartbeat], Limit::USUAL, 1);
    report_sent(answer, &written, words)
}

fn write_request(alloc: Global, text: &str, words: &mut Words) -> Result<(), Reported> {
    look_at(call_of(alloc, text)?, |call| {
        report_request(alloc, call, words)
    })
}

fn report_request(alloc: Global, call: &Call, words: &mut Words) -> Result<(), Reported> {
    let mut written = Bytes::new();
    let answer = write_call_to(alloc, call, &mut written);
    report_sent(answer, &written, words)
}

fn write_call_to(alloc: Global, call: &Call, written: &mut Bytes) -> Result<(), SendFault> {
    let id = StreamId::new(STREAM);
    let mut sink = FromStd::new(written);
    write_call(alloc, &mut sink, HOST, id.as_ref(), call)
}

// Writes a chunked body of one chunk to a writer that fails.
fn write_to_failing(text: &str, words: &mut Words) -> Result<(), Reported> {
    let bytes = bytes_of(text)?;
    let mut failing = Failing {
        taken: ArrayVec::new(),
    };
    let mut sink = FromStd::new(&mut failing);
    let answer = write_chunked(&mut sink, bytes.as_slice(), 4_096);
    report_stopped(answer, words);
    words.say_bytes(failing.taken.as_slice());
    Ok(())
}

// Prints the number of bytes that were sent, and the reason for which no more bytes were sent.
fn report_stopped(answer: Result<(), WriteFault>, words: &mut Words) {
    if let Err(fault) = answer {
        words.say_number("sent", fault.sent);
        words.add_word(match fault.why {
            WriteFaultKind::Device => "Device",
            WriteFaultKind::Zero => "Zero",
        });
    }
}

// Writes the head of a response. Does not allocate.
fn write_stream_head(words: &mut Words) -> Result<(), Reported> {
    let Some(id) = StreamId::new(STREAM) else {
        return Err(Reported::fault("no id"));
    };
    let mut written = Bytes::new();
    let mut sink = FromStd::new(&mut written);
    let answer = write_ok(&mut sink, &id);
    report_stopped(answer, words);
    words.say_bytes(written.as_slice());
    Ok(())
}

// Writes the head of a response. Does not allocate.
fn write_answer_head(words: &mut Words) {
    let mut written = Bytes::new();
    let mut sink = FromStd::new(&mut written);
    let answer = write_status(&mut sink, StatusCode::ACCEPTED);
    report_stopped(answer, words);
    words.say_bytes(written.as_slice());
}
