//! Worked examples of writing records and chunked bodies.

ghost use Rattle.std.specs.Prelude.{◌≤◌};

use crate::support::as_text;
use mes_frame::*;
use std::process::Abort;

const HEARTBEAT: &[u8] = b"20\n{\"type\":\"HEARTBEAT\"}";

fn stopped(sent: u64, why: WriteFaultKind) -> Result<(), WriteFault> {
    Err(WriteFault { sent, why })
}

/// Checks the result of writing a record, and the bytes written.
fn expect_record<R: Abort>(
    rt: &R,
    mut sink: MemorySink,
    text: &[u8],
    answer: Result<(), WriteFault>,
    bytes: &[u8],
) {
    assert_eq!(rt; write_record(&mut sink, text), answer);
    assert_eq!(rt; as_text(sink.bytes()), as_text(bytes));
}

#[test]
fn records_are_written(rt: HostRuntime) {
    let text = b"{\"type\":\"HEARTBEAT\"}";
    let sink = MemorySink::new(rt.alloc(), 5);
    expect_record(&rt, sink, text, Ok(()), HEARTBEAT);
    let empty = MemorySink::new(rt.alloc(), 5);
    expect_record(&rt, empty, b"", Ok(()), b"0\n");
    let failing = MemorySink::stopping_after(rt.alloc(), 5, 2, MemoryStop::Fails);
    expect_record(
        &rt,
        failing,
        text,
        stopped(2, WriteFaultKind::Device),
        b"20",
    );
}

/// Checks the result of writing a body in chunks of the given size, and the bytes written.
fn expect_body<R: Abort>(
    rt: &R,
    mut sink: MemorySink,
    body: &[u8],
    size: u32,
    answer: Result<(), WriteFault>,
    bytes: &[u8],
)
    requires least { MIN_CHUNK ≤ size }
    requires greatest { size ≤ MAX_CHUNK }
{
    assert_eq!(rt; write_chunked(&mut sink, body, size), answer);
    assert_eq!(rt; as_text(sink.bytes()), as_text(bytes));
}

/// The heartbeat in chunks of 10 bytes.
const CHUNKS: &[u8] = b"a\r\n20\n{\"type\"\r\na\r\n:\"HEARTBEA\r\n3\r\nT\"}\r\n0\r\n\r\n";

#[test]
fn bodies_are_written_in_chunks(rt: HostRuntime) {
    assert_eq!(rt; CHUNKS.len(), 43);
    let sink = MemorySink::new(rt.alloc(), 64);
    expect_body(&rt, sink, HEARTBEAT, 10, Ok(()), CHUNKS);
    let empty = MemorySink::new(rt.alloc(), 64);
    expect_body(&rt, empty, b"", 10, Ok(()), b"0\r\n\r\n");
    let mut single = MemorySink::new(rt.alloc(), 64);
    assert_eq!(rt; write_chunked(&mut single, HEARTBEAT, 1), Ok(()));
    assert_eq!(rt; single.bytes().len(), 143);
    assert!(rt;
        single
            .bytes()
            .starts_with(b"1\r\n2\r\n1\r\n0\r\n1\r\n\n\r\n")
    );
}

#[test]
fn chunks_stop_where_the_writer_does(rt: HostRuntime) {
    let failing = MemorySink::stopping_after(rt.alloc(), 64, 7, MemoryStop::Fails);
    let answer = stopped(7, WriteFaultKind::Device);
    expect_body(&rt, failing, HEARTBEAT, 4096, answer, b"17\r\n20\n");
    let idle = MemorySink::stopping_after(rt.alloc(), 64, 0, MemoryStop::TakesNone);
    let answer = stopped(0, WriteFaultKind::Zero);
    expect_body(&rt, idle, HEARTBEAT, 4096, answer, b"");
}

#[test]
fn each_front_of_a_body_is_exact(rt: HostRuntime) {
    let mut whole = MemorySink::new(rt.alloc(), 64);
    assert_eq!(rt; write_chunked(&mut whole, HEARTBEAT, 1), Ok(()));
    for good in 0..143 {
        let mut sink = MemorySink::stopping_after(rt.alloc(), 2, good, MemoryStop::Fails);
        let sent = write_chunked(&mut sink, HEARTBEAT, 1);
        let answer = stopped(good as u64, WriteFaultKind::Device);
        assert_eq!(rt;
            (sent, Some(sink.bytes())),
            (answer, whole.bytes().get(..good))
        );
    }
}

#[test]
fn small_chunks_are_gathered(rt: HostRuntime) {
    // 3,000 chunks of 6 bytes, then the last chunk of 5 bytes. The buffer of 8,192 bytes has room
    // for 1,365 chunks (8,190 bytes). The full buffer is written twice, then the last 1,625 bytes.
    let body = [b'x'; 3000];
    let mut sink = MemorySink::new(rt.alloc(), usize::MAX);
    assert_eq!(rt; write_chunked(&mut sink, &body, 1), Ok(()));
    assert_eq!(rt; (sink.bytes().len(), sink.counts().calls), (18_005, 3));
    let mut failing = MemorySink::stopping_after(rt.alloc(), usize::MAX, 10_000, MemoryStop::Fails);
    let sent = write_chunked(&mut failing, &body, 1);
    assert_eq!(rt;
        (sent, Some(failing.bytes())),
        (
            stopped(10_000, WriteFaultKind::Device),
            sink.bytes().get(..10_000)
        )
    );
}

#[test]
fn large_chunks_are_written_without_gathering(rt: HostRuntime) {
    // The writes: a line; data; the data's CRLF with the next line; data; the CRLF with the last
    // chunk.
    let body = [b'x'; 20_000];
    let mut sink = MemorySink::new(rt.alloc(), usize::MAX);
    assert_eq!(rt; write_chunked(&mut sink, &body, 10_000), Ok(()));
    assert_eq!(rt; sink.bytes().len(), 20_021);
    assert_eq!(rt; sink.counts().calls, 5);
}
