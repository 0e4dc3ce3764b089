//! Worked examples of sending: every byte is written, the writer stops at each byte, or the events
//! are rejected before the first byte.

use crate::support::{HEARTBEAT, HEARTBEAT_BY_BYTES, as_text, read_into};
use arrayvec::ArrayString;
use mes_frame::{Counts, Limit, MemorySink, MemorySource, MemoryStop, WriteFault, WriteFaultKind};
use mes_json::MAX_NESTING;
use mes_msg::Event;
use mes_stream::{
    EncodeFaultKind, Framing, MAX_FAULT_LINE, SendFault, send_line, write_plain, write_stream,
};
use std::alloc::{AllocGlobal, Global};
use std::process::Abort;
use std::test::Fail;

// 98 bytes of text; the canonical text has 100: `15.0` for `15`.
const SUBSCRIBED: &[u8] =
    b"98\n{\"type\":\"SUBSCRIBED\",\"subscribed\":{\"framework_id\":{\"value\":\"F1\"},\"heartbeat_interval_seconds\":15}}";

// HEARTBEAT, SUBSCRIBED, HEARTBEAT.
const THREE: &[u8] =
    b"20\n{\"type\":\"HEARTBEAT\"}98\n{\"type\":\"SUBSCRIBED\",\"subscribed\":{\"framework_id\":{\"value\":\"F1\"},\"heartbeat_interval_seconds\":15}}20\n{\"type\":\"HEARTBEAT\"}";

// The framing in which events are written.
#[derive(Clone, Copy)]
enum Form {
    // Plain RecordIO.
    Plain,
    // Chunks of one byte.
    ByteChunks,
    // Chunks of 4,096 bytes.
    LongChunks,
}

// Events, given as records, the framing in which the test writes them, and the limit of a record.
#[derive(Clone, Copy)]
struct Sending<'a> {
    records: &'a [u8],
    form: Form,
    limit: Limit,
}

fn push_events(alloc: Global, records: &[u8], events: &mut Vec<Event>) -> Result<(), Fail> {
    let mut source = MemorySource::new(records, 512);
    match &read_into(alloc, Framing::Plain, &mut source, 100, events) {
        Ok(_) => Ok(()),
        Err(_) => Err("the stream is whole")?,
    }
}

fn write(
    alloc: Global,
    sending: &Sending<'_>,
    events: &[Event],
    sink: &mut MemorySink,
) -> Result<(), SendFault> {
    let limit = sending.limit;
    match sending.form {
        Form::Plain => write_plain(alloc, sink, events, limit),
        Form::ByteChunks => write_stream(alloc, sink, events, limit, 1),
        Form::LongChunks => write_stream(alloc, sink, events, limit, 4096),
    }
}

fn send_by(
    alloc: Global,
    sending: &Sending<'_>,
    events: &mut Vec<Event>,
    sink: &mut MemorySink,
) -> Result<Result<(), SendFault>, Fail> {
    push_events(alloc, sending.records, events)?;
    Ok(write(alloc, sending, events.as_slice(), sink))
}

fn send(
    alloc: Global,
    sending: &Sending<'_>,
    sink: &mut MemorySink,
) -> Result<Result<(), SendFault>, Fail> {
    let mut events = Vec::new(alloc);
    let sent = send_by(alloc, sending, &mut events, sink);
    drop(events);
    sent
}

// Sending must return `answer`, and write exactly `bytes`.
fn expect_answer<R: Abort + AllocGlobal>(
    rt: &R,
    sending: &Sending<'_>,
    sink: &mut MemorySink,
    answer: Result<(), SendFault>,
    bytes: &[u8],
) -> Result<(), Fail> {
    assert_eq!(rt; send(rt.alloc(), sending, sink)?, answer);
    assert_eq!(rt; as_text(sink.bytes()), as_text(bytes));
    Ok(())
}

// Like `expect_answer`, but returns the counts of the writer's calls.
fn expect_sent<R: Abort + AllocGlobal>(
    rt: &R,
    sending: &Sending<'_>,
    mut sink: MemorySink,
    answer: Result<(), SendFault>,
    bytes: &[u8],
) -> Result<Counts, Fail> {
    let reported = expect_answer(rt, sending, &mut sink, answer, bytes);
    let counts = sink.counts();
    drop(sink);
    reported?;
    Ok(counts)
}

// An event that no record can contain: the writer must not be called.
fn expect_refused<R: Abort + AllocGlobal>(
    rt: &R,
    sending: &Sending<'_>,
    fault: SendFault,
) -> Result<(), Fail> {
    let sink = MemorySink::new(rt.alloc(), 64);
    let counts = expect_sent(rt, sending, sink, Err(fault), b"")?;
    assert_eq!(rt; counts.calls, 0);
    Ok(())
}

fn expect_line(rt: &impl Abort, fault: &SendFault, expected: &str) {
    let mut line = ArrayString::<MAX_FAULT_LINE>::new();
    send_line(fault, &mut line);
    assert_eq!(rt; line.as_str(), expected);
}

const BYTES: Sending<'static> = Sending {
    records: HEARTBEAT,
    form: Form::ByteChunks,
    limit: Limit::USUAL,
};

#[test]
fn a_heartbeat_is_written_in_chunks_of_one_byte(rt: HostRuntime) -> Result<(), Fail> {
    assert_eq!(rt; HEARTBEAT_BY_BYTES.len(), 143);
    let sink = MemorySink::new(rt.alloc(), 64);
    let _ = expect_sent(&rt, &BYTES, sink, Ok(()), HEARTBEAT_BY_BYTES)?;
    Ok(())
}

// The writer fails after `front`, and must have received exactly `front` after one failed call.
fn expect_front<R: Abort + AllocGlobal>(rt: &R, front: &[u8]) -> Result<(), Fail> {
    let good = front.len();
    let sink = MemorySink::stopping_after(rt.alloc(), 64, good, MemoryStop::Fails);
    let stopped = WriteFault {
        sent: good as u64,
        why: WriteFaultKind::Device,
    };
    let counts = expect_sent(rt, &BYTES, sink, Err(SendFault::Write(stopped)), front)?;
    assert_eq!(rt; counts.failures, 1);
    Ok(())
}

// The writer fails after each prefix of the stream.
fn expect_fronts<R: Abort + AllocGlobal>(rt: &R, whole: &[u8]) -> Result<(), Fail> {
    for good in 0..whole.len() {
        let (front, _) = whole.split_at(good);
        expect_front(rt, front)?;
    }
    Ok(())
}

#[test]
fn a_writer_that_fails_has_the_bytes_before(rt: HostRuntime) -> Result<(), Fail> {
    expect_fronts(&rt, HEARTBEAT_BY_BYTES)
}

fn takes_none(alloc: Global) -> MemorySink {
    MemorySink::stopping_after(alloc, 64, 0, MemoryStop::TakesNone)
}

#[test]
fn a_writer_that_accepts_no_byte_is_reported(rt: HostRuntime) -> Result<(), Fail> {
    let stopped = SendFault::Write(WriteFault {
        sent: 0,
        why: WriteFaultKind::Zero,
    });
    let plain = Sending {
        records: HEARTBEAT,
        form: Form::Plain,
        limit: Limit::USUAL,
    };
    let _ = expect_sent(&rt, &plain, takes_none(rt.alloc()), Err(stopped), b"")?;
    let _ = expect_sent(&rt, &BYTES, takes_none(rt.alloc()), Err(stopped), b"")?;
    expect_line(&rt, &stopped, "write failed after 0");
    Ok(())
}

// The record has 98 bytes of text; the event's canonical text has 100.
#[test]
fn an_event_above_the_limit_is_refused(rt: HostRuntime) -> Result<(), Fail> {
    let limit = Limit::new(98).ok_or("a limit")?;
    let fault = SendFault::Encode {
        index: 0,
        why: EncodeFaultKind::TooLarge,
    };
    for form in [Form::Plain, Form::LongChunks] {
        let sending = Sending {
            records: SUBSCRIBED,
            form,
            limit,
        };
        expect_refused(&rt, &sending, fault)?;
    }
    expect_line(&rt, &fault, "encode failed event 1 TooLarge");
    Ok(())
}

// An OFFERS whose `offers` is a bare array, with a resource whose `disk` has nested objects. The
// canonical text of the event has one more object, and nests one level too deep.
fn deep_text(alloc: Global) -> Result<String, Fail> {
    let open = r#"{"a":"#.repeat(alloc, MAX_NESTING - 6)?;
    let close = "}".repeat(alloc, MAX_NESTING - 6)?;
    Ok(format!(in alloc;
        r#"{{"type":"OFFERS","offers":[{{"id":{{"value":"O1"}},"framework_id":{{"value":"F1"}},"agent_id":{{"value":"A1"}},"hostname":"h","resources":[{{"name":"disk","type":"SET","set":{{}},"disk":{open}{{}}{close}}}]}}]}}"#
    )?)
}

// A HEARTBEAT, then the event of `deep_text`.
fn deep_records(alloc: Global) -> Result<String, Fail> {
    let text = deep_text(alloc)?;
    let size = text.len();
    let text = text.as_str();
    Ok(format!(in alloc; "20\n{{\"type\":\"HEARTBEAT\"}}{size}\n{text}")?)
}

// The event is also larger than the limit, but the depth is reported first.
#[test]
fn an_event_that_nests_too_deep_is_refused(rt: HostRuntime) -> Result<(), Fail> {
    let limit = Limit::new(98).ok_or("a limit")?;
    let records = deep_records(rt.alloc())?;
    let sending = Sending {
        records: records.as_bytes(),
        form: Form::Plain,
        limit,
    };
    let fault = SendFault::Encode {
        index: 1,
        why: EncodeFaultKind::TooDeep,
    };
    expect_refused(&rt, &sending, fault)
}

// The events of `THREE` in canonical text.
const THREE_WRITTEN: &[u8] =
    b"20\n{\"type\":\"HEARTBEAT\"}100\n{\"type\":\"SUBSCRIBED\",\"subscribed\":{\"framework_id\":{\"value\":\"F1\"},\"heartbeat_interval_seconds\":15.0}}20\n{\"type\":\"HEARTBEAT\"}";

// The stream of `THREE_WRITTEN` in one chunk.
const THREE_IN_A_CHUNK: &[u8] =
    b"96\r\n20\n{\"type\":\"HEARTBEAT\"}100\n{\"type\":\"SUBSCRIBED\",\"subscribed\":{\"framework_id\":{\"value\":\"F1\"},\"heartbeat_interval_seconds\":15.0}}20\n{\"type\":\"HEARTBEAT\"}\r\n0\r\n\r\n";

fn expect_three<R: Abort + AllocGlobal>(rt: &R, form: Form, bytes: &[u8]) -> Result<(), Fail> {
    let sending = Sending {
        records: THREE,
        form,
        limit: Limit::USUAL,
    };
    let sink = MemorySink::new(rt.alloc(), 7);
    let _ = expect_sent(rt, &sending, sink, Ok(()), bytes)?;
    Ok(())
}

#[test]
fn several_events_are_written_in_order(rt: HostRuntime) -> Result<(), Fail> {
    expect_three(&rt, Form::Plain, THREE_WRITTEN)?;
    expect_three(&rt, Form::LongChunks, THREE_IN_A_CHUNK)
}

// The second of three events is the first that has more than 99 bytes.
#[test]
fn the_first_event_without_a_record_is_reported(rt: HostRuntime) -> Result<(), Fail> {
    let limit = Limit::new(99).ok_or("a limit")?;
    let sending = Sending {
        records: THREE,
        form: Form::ByteChunks,
        limit,
    };
    let fault = SendFault::Encode {
        index: 1,
        why: EncodeFaultKind::TooLarge,
    };
    expect_refused(&rt, &sending, fault)?;
    expect_line(&rt, &fault, "encode failed event 2 TooLarge");
    Ok(())
}

// Sends no events: exactly `bytes` must be written. Returns the number of writes.
fn expect_none<R: Abort + AllocGlobal>(rt: &R, form: Form, bytes: &[u8]) -> Result<u64, Fail> {
    let sending = Sending {
        records: b"",
        form,
        limit: Limit::USUAL,
    };
    let sink = MemorySink::new(rt.alloc(), 64);
    let counts = expect_sent(rt, &sending, sink, Ok(()), bytes)?;
    Ok(counts.calls)
}

#[test]
fn no_events_are_an_empty_body(rt: HostRuntime) -> Result<(), Fail> {
    assert_eq!(rt; expect_none(&rt, Form::Plain, b"")?, 0);
    let _ = expect_none(&rt, Form::ByteChunks, b"0\r\n\r\n")?;
    Ok(())
}

#[test]
fn each_fault_has_its_line(rt: HostRuntime) {
    let deep = SendFault::Encode {
        index: 6,
        why: EncodeFaultKind::TooDeep,
    };
    expect_line(&rt, &deep, "encode failed event 7 TooDeep");
    expect_line(&rt, &SendFault::NoMemory, "fault F13 NoMemory after 0");
    let stopped = SendFault::Write(WriteFault {
        sent: 7,
        why: WriteFaultKind::Device,
    });
    expect_line(&rt, &stopped, "write failed after 7");
}
