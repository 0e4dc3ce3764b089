//! Heads whose length or number of fields is at its limit or above.

use crate::support::{Reads, answered, bytes_of, failing};
use mes_double_http::MAX_HEAD;
use std::alloc::{AllocError, AllocGlobal, Global};
use std::process::Abort;
use std::test::Fail;

/// Returns the lines, padded with `a` to `size` bytes, followed by `end`.
fn filled(alloc: Global, lines: &str, size: usize, end: &[u8]) -> Result<Vec<u8>, AllocError> {
    let mut bytes = bytes_of(alloc, lines, b"")?;
    bytes.resize(size, b'a')?;
    bytes.extend_from_slice(end)?;
    Ok(bytes)
}

/// Padded heads: the function that reads, the lines, the size of the padded lines, the bytes after
/// them, and the result. A target is checked for UTF-8 only at its end, so a head that is too long
/// inside its target is H2.
const SIZES: [(Reads, &str, usize, &[u8], &str); 5] = [
    (
        Reads::Answer,
        "HTTP/1.1 202 Accepted|A: ",
        MAX_HEAD - 4,
        b"\r\n\r\n",
        "ok",
    ),
    (
        Reads::Answer,
        "HTTP/1.1 202 Accepted|A: ",
        MAX_HEAD - 3,
        b"\r\n\r\n",
        "H2 HeadTooLong",
    ),
    (
        Reads::Head,
        "HTTP/1.1 200 OK|A: ",
        20_000,
        b"",
        "H2 HeadTooLong",
    ),
    (
        Reads::Request,
        "POST /",
        MAX_HEAD - 1,
        b"\xff",
        "H2 HeadTooLong",
    ),
    (
        Reads::Request,
        "POST /",
        6,
        b"\xff HTTP/1.1\r\n\r\n",
        "H3 BadHead",
    ),
];

#[test]
fn a_head_has_at_most_16384_bytes(rt: HostRuntime) -> Result<(), Fail> {
    for &(reads, lines, size, end, expected) in &SIZES {
        let bytes = filled(rt.alloc(), lines, size, end)?;
        assert_eq!(rt;
            answered(rt.alloc(), reads, bytes.as_slice()),
            expected,
            "{lines} {size}"
        );
    }
    Ok(())
}

/// Returns a head with this first line and `count` fields.
fn fields(alloc: Global, line: &str, count: usize) -> Result<Vec<u8>, AllocError> {
    let mut bytes = bytes_of(alloc, line, b"")?;
    for _ in 0..count {
        bytes.extend_from_slice(b"A: b\r\n")?;
    }
    bytes.extend_from_slice(b"\r\n")?;
    Ok(bytes)
}

#[test]
fn a_head_has_at_most_64_fields(rt: HostRuntime) -> Result<(), Fail> {
    for (count, expected) in [(64, "ok"), (65, "H3 BadHead")] {
        let bytes = fields(rt.alloc(), "HTTP/1.1 202 Accepted|", count)?;
        assert_eq!(rt;
            answered(rt.alloc(), Reads::Answer, bytes.as_slice()),
            expected,
            "{count}"
        );
    }
    Ok(())
}

/// Expects that field 65 is refused at the end of its line: the reader, which would fail after this
/// line, is not called again.
fn expect_field_65<R: Abort + AllocGlobal>(rt: &R, reads: Reads, line: &str) -> Result<(), Fail> {
    let bytes = fields(rt.alloc(), line, 65)?;
    let end = bytes.len().saturating_sub(2);
    assert_eq!(rt;
        failing(rt.alloc(), reads, bytes.as_slice(), end),
        "H3 BadHead"
    );
    let end = end.saturating_sub(1);
    assert_eq!(rt;
        failing(rt.alloc(), reads, bytes.as_slice(), end),
        "H1 Read"
    );
    Ok(())
}

#[test]
fn a_field_too_many_is_refused_as_its_line_ends(rt: HostRuntime) -> Result<(), Fail> {
    expect_field_65(&rt, Reads::Answer, "HTTP/1.1 202 Accepted|")?;
    expect_field_65(&rt, Reads::Request, "POST /api/v1/scheduler HTTP/1.1|")
}
