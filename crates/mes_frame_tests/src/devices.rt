//! Devices from std readers and writers: each call of the device is one call of the reader or
//! writer.
use mes_frame::*;
use std::io;
use std::io::{ErrorKind, Read, Write};

/// The most bytes that a call moves.
const LARGEST: usize = 100;

/// A reader of at most `LARGEST` bytes a call, which is interrupted at one of its calls.
#[derive(Drop)]
struct Reader {
    calls: u64,
    interrupted: u64,
}

impl Read for Reader {
    fn read(&mut self, buffer: &mut [u8]) -> io::Result<usize> {
        self.calls = self.calls.saturating_add(1);
        if self.calls == self.interrupted {
            return Err(io::Error::from(ErrorKind::Interrupted));
        }
        let count = buffer.len().min(LARGEST);
        buffer[..count].fill(7);
        Ok(count)
    }
}

/// A writer of at most `LARGEST` bytes a call, which is interrupted at one of its calls.
#[derive(Drop)]
struct Writer {
    calls: u64,
    interrupted: u64,
}

impl Write for Writer {
    fn write(&mut self, bytes: &[u8]) -> io::Result<usize> {
        self.calls = self.calls.saturating_add(1);
        if self.calls == self.interrupted {
            return Err(io::Error::from(ErrorKind::Interrupted));
        }
        Ok(bytes.len().min(LARGEST))
    }

    fn flush(&mut self) -> io::Result<()> {
        Ok(())
    }
}

/// Returns the bytes moved, or `None` if the call was interrupted.
fn reported(answer: io::Result<usize>) -> Option<usize> {
    match answer {
        Ok(count) => Some(count),
        Err(error) => {
            if error.kind() == ErrorKind::Interrupted {
                None
            } else {
                Some(usize::MAX)
            }
        }
    }
}

/// Four calls, one of them interrupted.
const FOUR_CALLS: Counts = Counts {
    calls: 4,
    failures: 1,
    idle: 0,
};

#[test]
fn a_fetch_is_one_read(rt: HostRuntime) {
    let mut reader = Reader {
        calls: 0,
        interrupted: 3,
    };
    let mut source = FromStd::new(&mut reader);
    let mut large = [0; 4096];
    let mut small = [0; 512];
    let mut one = [0; 1];
    let fetched = [
        reported(source.fetch(&mut large)),
        reported(source.fetch(&mut small)),
        reported(source.fetch(&mut large)),
        reported(source.fetch(&mut one)),
    ];
    let counts = source.counts();
    assert_eq!(rt; fetched, [Some(100), Some(100), None, Some(1)]);
    assert_eq!(rt; one, [7]);
    assert_eq!(rt; (counts, reader.calls), (FOUR_CALLS, 4));
}

#[test]
fn a_put_is_one_write(rt: HostRuntime) {
    let mut writer = Writer {
        calls: 0,
        interrupted: 3,
    };
    let mut sink = FromStd::new(&mut writer);
    let put = [
        reported(sink.put(&[7; 4096])),
        reported(sink.put(&[7; 512])),
        reported(sink.put(&[7; 4096])),
        reported(sink.put(&[7; 1])),
    ];
    let counts = sink.counts();
    assert_eq!(rt; put, [Some(100), Some(100), None, Some(1)]);
    assert_eq!(rt; (counts, writer.calls), (FOUR_CALLS, 4));
}

#[test]
fn a_device_counts_a_million_calls(rt: HostRuntime) {
    let mut reader = Reader {
        calls: 0,
        interrupted: 1_000_001,
    };
    let mut writer = Writer {
        calls: 0,
        interrupted: 1_000_001,
    };
    let mut source = FromStd::new(&mut reader);
    let mut sink = FromStd::new(&mut writer);
    let mut buffer = [0; 1];
    for _ in 0..1_000_000 {
        let moved = [
            reported(source.fetch(&mut buffer)),
            reported(sink.put(&buffer)),
        ];
        assert_eq!(rt; moved, [Some(1), Some(1)]);
    }
    let moved = [
        reported(source.fetch(&mut buffer)),
        reported(sink.put(&buffer)),
    ];
    assert_eq!(rt; moved, [None, None]);
    let counts = Counts {
        calls: 1_000_001,
        failures: 1,
        idle: 0,
    };
    assert_eq!(rt; [source.counts(), sink.counts()], [counts, counts]);
}
