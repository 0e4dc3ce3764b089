//! Served connections that fail at each byte: the reader ends or fails, the writer stops, or the
//! lines cannot be printed.

use crate::support::{
    BAD, STREAM, SUBSCRIBE_REQUEST, bytes_of, events_of, push_bytes, serve_anew, served_anew,
};
use mes_frame::{MemorySink, MemorySource, MemoryStop};
use std::alloc::{AllocGlobal, Global};
use std::process::Abort;
use std::test::Fail;

// The length of the head of `SUBSCRIBE_REQUEST` in bytes.
const HEAD: usize = 141;

// A head that ends early gets status 400; a body that ends early gets no response.
#[test]
fn a_request_that_ends_early_is_refused_or_dropped(rt: HostRuntime) -> Result<(), Fail> {
    let bytes = bytes_of(rt.alloc(), SUBSCRIBE_REQUEST)?;
    for cut in 0..bytes.len() {
        let expected = if cut < HEAD { BAD } else { " => - -~" };
        let reported = served_anew(rt.alloc(), &mut MemorySource::new(&bytes[..cut], 7))?;
        assert_eq!(rt; reported.as_str(), expected, "{cut}");
    }
    Ok(())
}

// Each read after the first `good` bytes of the request fails.
fn failing(alloc: Global, request: &[u8], good: usize) -> Result<String, Fail> {
    served_anew(alloc, &mut MemorySource::failing_after(request, 7, good))
}

#[test]
fn a_request_whose_reader_fails_is_dropped(rt: HostRuntime) -> Result<(), Fail> {
    let bytes = bytes_of(rt.alloc(), SUBSCRIBE_REQUEST)?;
    for good in 0..bytes.len() {
        let reported = failing(rt.alloc(), bytes.as_slice(), good)?;
        assert_eq!(rt; reported.as_str(), " => - -~", "{good}");
    }
    Ok(())
}

// Serves one request. A stream has a HEARTBEAT after SUBSCRIBED.
fn answered(
    alloc: Global,
    request: &[u8],
    writer: &mut MemorySink,
    out: &mut MemorySink,
) -> Result<Result<(bool, u64), u64>, Fail> {
    let events = events_of(alloc, r#"{"type":"HEARTBEAT"}"#)?;
    let mut source = MemorySource::new(request, 64);
    serve_anew(alloc, events.as_slice(), 4_096, &mut source, writer, out)
}

// Returns the printed lines. The writer stops after `good` bytes, and must have received exactly
// these; `serve_one` must return the number of printed bytes.
fn stopped(
    alloc: Global,
    request: &[u8],
    answer: &[u8],
    good: usize,
    stop: MemoryStop,
) -> Result<String, Fail> {
    let mut writer = MemorySink::stopping_after(alloc, 7, good, stop);
    let mut out = MemorySink::new(alloc, 5);
    let reported = answered(alloc, request, &mut writer, &mut out)?;
    if answer.get(..good) != Some(writer.bytes())
        || reported != Ok((false, out.bytes().len() as u64))
    {
        return Err("so much is written, and all lines are counted")?;
    }
    let mut text = String::new(alloc);
    push_bytes(&mut text, out.bytes())?;
    Ok(text)
}

// The writer stops after each byte of the response except the last.
fn expect_stops<R: Abort + AllocGlobal>(
    rt: &R,
    request: &str,
    answer: &str,
    lines: &str,
) -> Result<(), Fail> {
    let request = bytes_of(rt.alloc(), request)?;
    let answer = bytes_of(rt.alloc(), answer)?;
    for good in 0..answer.len() {
        for stop in [MemoryStop::Fails, MemoryStop::TakesNone] {
            let reported = stopped(
                rt.alloc(),
                request.as_slice(),
                answer.as_slice(),
                good,
                stop,
            )?;
            assert_eq!(rt; reported.as_str(), lines, "{good}");
        }
    }
    Ok(())
}

#[test]
fn a_stream_whose_writer_stops_is_reported(rt: HostRuntime) -> Result<(), Fail> {
    let lines = "200 SUBSCRIBE~net write failed~";
    expect_stops(&rt, SUBSCRIBE_REQUEST, STREAM, lines)
}

#[test]
fn a_status_whose_writer_stops_is_reported(rt: HostRuntime) -> Result<(), Fail> {
    let answer = "HTTP/1.1 404 Not Found|Content-Length: 0|Connection: close||";
    expect_stops(&rt, "POST /x HTTP/1.1||", answer, "404 -~net write failed~")
}

// Returns whether the whole stream is written, and `good` is returned, if the output stops after
// `good` bytes.
fn unreported(alloc: Global, stream: &[u8], good: usize, stop: MemoryStop) -> Result<bool, Fail> {
    let request = bytes_of(alloc, SUBSCRIBE_REQUEST)?;
    let mut writer = MemorySink::new(alloc, 64);
    let mut out = MemorySink::stopping_after(alloc, 5, good, stop);
    let reported = answered(alloc, request.as_slice(), &mut writer, &mut out)?;
    Ok(
        reported == Err(good as u64)
            && writer.bytes() == stream
            && b"200 SUBSCRIBE\n".get(..good) == Some(out.bytes()),
    )
}

#[test]
fn an_output_that_stops_leaves_the_stream_whole(rt: HostRuntime) -> Result<(), Fail> {
    let stream = bytes_of(rt.alloc(), STREAM)?;
    for good in 0..14 {
        for stop in [MemoryStop::Fails, MemoryStop::TakesNone] {
            assert!(rt;
                unreported(rt.alloc(), stream.as_slice(), good, stop)?,
                "{good}"
            );
        }
    }
    Ok(())
}
