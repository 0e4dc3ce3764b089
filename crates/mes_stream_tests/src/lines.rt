//! JSON Lines: where lines end, which lines are passed over, and which lines are too long.

use crate::support::row_of;
use arrayvec::ArrayString;
use mes_frame::{Limit, MemorySource};
use mes_msg::Event;
use mes_stream::{Framing, count_line, fault_line, read_messages};
use std::alloc::{AllocGlobal, Global};
use std::process::Abort;
use std::test::Fail;

// Each row: the limit, the lines, and the printed result. `H` represents a record of 20 bytes, `~`
// a LF, `<` a CR and `^` a byte order mark.
const LINES: &str = "20: => events 0 bytes 0
20:H~ => events 1 bytes 21
20:H => events 1 bytes 20
20:H~H~ => events 2 bytes 42
20:H~H => events 2 bytes 41
20:H<~H<~ => events 2 bytes 44
20:H<~H< => events 2 bytes 43
20:~<~~H~<~~H => events 2 bytes 48
20:~ => events 0 bytes 1
20:< => events 0 bytes 1
20:<~ => events 0 bytes 2
22: H <~ => events 1 bytes 24
21:H<<~ => events 1 bytes 23
20:H<<~ => fault F9 RecordTooLarge after 22
20:H<H~ => fault F9 RecordTooLarge after 22
20:H ~ => fault F9 RecordTooLarge after 21
20: H~ => fault F9 RecordTooLarge after 21
20:H~HH => fault F9 RecordTooLarge after 42
1:<< => fault F11 Text record 1 byte 1 End after 2
1:<<~ => fault F11 Text record 1 byte 1 End after 3
1:<<<~ => fault F9 RecordTooLarge after 3
1: ~ => fault F11 Text record 1 byte 1 End after 2
1:  => fault F11 Text record 1 byte 1 End after 1
20:H~x~H~ => fault F11 Text record 2 byte 0 Byte after 23
20:~~x => fault F11 Text record 1 byte 0 Byte after 3
20:~H~<~{}~ => fault F12 Field record 2 type Missing after 27
20:{}<~ => fault F12 Field record 1 type Missing after 4
20:{} => fault F12 Field record 1 type Missing after 2
30:^H~ => fault F11 Text record 1 byte 0 Byte after 24
40:HH~ => fault F11 Text record 1 byte 20 Byte after 41
20:{\"a\":<~ => fault F11 Text record 1 byte 5 End after 7
20:{\"a\":~ => fault F11 Text record 1 byte 5 End after 6";

fn lines_of(alloc: Global, text: &str) -> Result<Vec<u8>, Fail> {
    let mut bytes = Vec::new(alloc);
    for byte in text.as_bytes() {
        match *byte {
            b'H' => bytes.extend_from_slice(b"{\"type\":\"HEARTBEAT\"}")?,
            b'~' => bytes.push(b'\n')?,
            b'<' => bytes.push(b'\r')?,
            b'^' => bytes.extend_from_slice(b"\xef\xbb\xbf")?,
            other => bytes.push(other)?,
        }
    }
    Ok(bytes)
}

// Reads the lines, at most `most` bytes at once, and returns the printed result.
fn printed(alloc: Global, bytes: &[u8], limit: Limit, most: usize) -> Result<String, Fail> {
    let mut events = Vec::<Event>::new(alloc);
    let mut source = MemorySource::new(bytes, most);
    let end = read_messages(
        alloc,
        &mut source,
        Framing::Lines,
        limit,
        1_000,
        &mut events,
    );
    let mut counts = ArrayString::new();
    let mut fault = ArrayString::new();
    let text = match &end {
        Ok(report) => {
            count_line(events.len() as u64, report.used, &mut counts);
            counts.as_str()
        }
        Err(stop) => {
            fault_line(&stop.fault, stop.used, &mut fault);
            fault.as_str()
        }
    };
    let text = format!(in alloc; "{text}")?;
    drop(end);
    drop(events);
    Ok(text)
}

fn expect_row<R: Abort + AllocGlobal>(rt: &R, row: &str) -> Result<(), Fail> {
    let (left, expected) = row_of(row)?;
    let (limit, text) = left.split_once(":").ok_or("a limit and lines")?;
    let limit = limit.parse::<u32>().ok().ok_or("a number")?;
    let limit = Limit::new(limit).ok_or("a limit")?;
    let bytes = lines_of(rt.alloc(), text)?;
    for most in 1..50 {
        let printed = printed(rt.alloc(), bytes.as_slice(), limit, most)?;
        assert_eq!(rt; printed.as_str(), expected, "{row}");
    }
    drop(bytes);
    Ok(())
}

#[test]
fn lines_are_records(rt: HostRuntime) -> Result<(), Fail> {
    for row in LINES.lines() {
        expect_row(&rt, row)?;
    }
    Ok(())
}
