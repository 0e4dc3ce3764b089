//! Example rows that read an HTTP head: of the response to a SUBSCRIBE, of the response to another
//! call, or of a request.

use crate::bytes::bytes_of;
use crate::outcome::Reported;
use crate::words::Words;
use mes_double_http::{Request, StreamId, read_answer, read_head, read_request};
use mes_frame::MemorySource;
use mes_stream::MAX_READ;
use std::alloc::Global;

/// Reads the head in an example row. The first word of the row names the function that reads.
pub(crate) fn answer(alloc: Global, row: &str, words: &mut Words) -> Result<(), Reported> {
    let (what, text) = row.split_once(' ').unwrap_or((row, ""));
    let bytes = bytes_of(text)?;
    match what {
        "stream" => report_head(bytes.as_slice(), words),
        "answer" => report_answer(bytes.as_slice(), words),
        _ => report_request(alloc, bytes.as_slice(), words),
    }
}

// Prints the stream id in the head of the response to a SUBSCRIBE.
fn report_head(bytes: &[u8], words: &mut Words) -> Result<(), Reported> {
    let id = read_head(&mut MemorySource::new(bytes, MAX_READ))?;
    words.say(id.as_str());
    Ok(())
}

fn report_answer(bytes: &[u8], words: &mut Words) -> Result<(), Reported> {
    read_answer(&mut MemorySource::new(bytes, MAX_READ))?;
    words.say("taken");
    Ok(())
}

// Prints the stream id of a request, or `-`, and its body.
fn report_request(alloc: Global, bytes: &[u8], words: &mut Words) -> Result<(), Reported> {
    let request = request_of(alloc, bytes)?;
    say_request(&request, words);
    Ok(())
}

fn say_request(request: &Request, words: &mut Words) {
    words.say(name_of(request.stream.as_ref()));
    words.say_bytes(request.body.as_slice());
}

fn request_of(alloc: Global, bytes: &[u8]) -> Result<Request, Reported> {
    Ok(read_request(alloc, &mut MemorySource::new(bytes, MAX_READ))?)
}

fn name_of(id: Option<&StreamId>) -> &str {
    match id {
        Some(id) => id.as_str(),
        None => "-",
    }
}
