//! Calls are read and written like events, and printed with their own name.

use arrayvec::ArrayString;
use mes_frame::{Limit, MemorySink, MemorySource};
use mes_msg::{Call, EncodeFaultKind};
use mes_stream::{Framing, SendFault, counts_line, read_messages, unsent_line, write_plain};
use std::alloc::Global;
use std::test::Fail;

/// A call as a record: 50 bytes.
const REVIVE: &[u8] = b"47\n{\"type\":\"REVIVE\",\"framework_id\":{\"value\":\"F1\"}}";

fn calls_in(alloc: Global, framing: Framing, bytes: &[u8]) -> Result<Vec<Call>, Fail> {
    let mut calls = Vec::<Call>::new(alloc);
    let mut source = MemorySource::new(bytes, 7);
    match read_messages(alloc, &mut source, framing, Limit::USUAL, 90, &mut calls) {
        Ok(_) => Ok(calls),
        Err(_) => Err("the calls are read")?,
    }
}

#[test]
fn calls_are_read_from_lines_and_written_as_records(rt: HostRuntime) -> Result<(), Fail> {
    let alloc = rt.alloc();
    let calls = calls_in(alloc, Framing::Lines, &REVIVE[3..])?;
    let mut sink = MemorySink::new(alloc, 64);
    let sent = write_plain(alloc, &mut sink, calls.as_slice(), Limit::USUAL);
    assert!(rt; sent.is_ok());
    assert_eq!(rt; sink.bytes(), REVIVE);
    drop(sent);
    drop(sink);
    drop(calls);
    Ok(())
}

#[test]
fn an_event_is_no_call(rt: HostRuntime) {
    let alloc = rt.alloc();
    let mut calls = Vec::<Call>::new(alloc);
    let mut source = MemorySource::new(b"20\n{\"type\":\"HEARTBEAT\"}", 7);
    let end = read_messages(
        alloc,
        &mut source,
        Framing::Plain,
        Limit::USUAL,
        90,
        &mut calls,
    );
    assert!(rt; end.is_err());
    drop(end);
    drop(calls);
}

#[test]
fn lines_name_the_messages(rt: HostRuntime) {
    let mut counts = ArrayString::new();
    counts_line("call", 2, 57, &mut counts);
    assert_eq!(rt; counts.as_str(), "calls 2 bytes 57");
    let mut fault = ArrayString::new();
    let why = EncodeFaultKind::TooLarge;
    unsent_line("call", &SendFault::Encode { index: 6, why }, &mut fault);
    assert_eq!(rt; fault.as_str(), "encode failed call 7 TooLarge");
}
