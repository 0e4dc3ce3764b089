//! Worked examples of devices in memory, and from std readers and writers.
use crate::support::as_text;
use mes_frame::*;
use std::process::Abort;

// The buffer size of each read, and the bytes that it returns.
const READS: [(usize, usize); 5] = [(4, 3), (1, 1), (0, 0), (4, 1), (4, 0)];

#[test]
fn a_memory_source_gives_a_few_bytes_a_read(rt: HostRuntime) {
    let mut buffer = [0; 4];
    let mut source = MemorySource::new(b"abcde", 3);
    for &(size, given) in &READS {
        let fetched = source.fetch(&mut buffer[..size.min(4)]).ok();
        assert_eq!(rt; fetched, Some(given));
    }
    assert_eq!(rt; buffer, *b"ebc\x00");
    let counts = source.counts();
    assert_eq!(rt; (counts.calls, counts.failures, counts.idle), (4, 0, 1));
}

#[test]
fn a_memory_source_fails_after_the_given_bytes(rt: HostRuntime) {
    let mut buffer = [0; 4];
    let mut source = MemorySource::failing_after(b"abcde", 9, 2);
    for given in [Some(2), None, None] {
        assert_eq!(rt; source.fetch(&mut buffer).ok(), given);
    }
    let counts = source.counts();
    assert_eq!(rt; (counts.calls, counts.failures, counts.idle), (3, 2, 0));
}

// Checks that all bytes are written in the given number of calls.
fn expect_whole<R: Abort>(rt: &R, sink: &mut MemorySink, bytes: &[u8], calls: u64) {
    assert_eq!(rt; write_all(sink, bytes), Ok(()));
    assert_eq!(rt; as_text(sink.bytes()), as_text(bytes));
    let counts = Counts {
        calls,
        failures: 0,
        idle: 0,
    };
    assert_eq!(rt; sink.counts(), counts);
}

// Checks that a write stops after the bytes `written`, for the reason `why`.
fn expect_stop<R: Abort>(
    rt: &R,
    sink: &mut MemorySink,
    bytes: &[u8],
    written: &[u8],
    why: WriteFaultKind,
) {
    let sent = written.len() as u64;
    assert_eq!(rt; write_all(sink, bytes), Err(WriteFault { sent, why }));
    assert_eq!(rt; as_text(sink.bytes()), as_text(written));
}

#[test]
fn writes_stop_where_the_writer_does(rt: HostRuntime) {
    expect_whole(&rt, &mut MemorySink::new(rt.alloc(), 2), b"hello", 3);
    let cases = [
        (MemoryStop::Fails, WriteFaultKind::Device),
        (MemoryStop::TakesNone, WriteFaultKind::Zero),
    ];
    for (stop, why) in cases {
        let mut sink = MemorySink::stopping_after(rt.alloc(), 4, 7, stop);
        expect_stop(&rt, &mut sink, b"0123456789", b"0123456", why);
    }
}

#[test]
fn std_readers_and_writers_are_devices(rt: HostRuntime) {
    let mut buffer = [0; 4];
    let mut source = FromStd::new(b"ab".as_slice());
    for given in [Some(2), Some(0)] {
        assert_eq!(rt; source.fetch(&mut buffer).ok(), given);
    }
    let counts = Counts {
        calls: 2,
        failures: 0,
        idle: 1,
    };
    assert_eq!(rt; source.counts(), counts);
    let mut written = Vec::new(rt.alloc());
    assert_eq!(rt;
        write_all(&mut FromStd::new(&mut written), b"hello"),
        Ok(())
    );
    assert_eq!(rt; as_text(written.as_slice()), Some("hello"));
}
