//! `subscribe_over`, which sends a SUBSCRIBE and prints the stream, if a device stops or fails at
//! each byte; and both ends of a connection together.

use crate::support::{
    SHOWN, STREAM, SUBSCRIBE_REQUEST, bytes_of, events_of, framework, leaves, printed_of,
    serve_anew, shown,
};
use mes_frame::{MemorySink, MemorySource, MemoryStop, WriteFault, WriteFaultKind};
use mes_json::Text;
use mes_model::FrameworkInfo;
use mes_msg::{EncodeFaultKind, SendFault};
use mesosev_serve::{report_unsent, send_subscribe, subscribe_over};
use mesosev_stream::RunOutcome;
use std::alloc::Global;
use std::test::Fail;

// Sends a SUBSCRIBE to the host `h`, and prints the response.
fn subscribed(
    alloc: Global,
    info: &FrameworkInfo,
    source: &mut MemorySource<'_>,
    writer: &mut MemorySink,
    out: &mut MemorySink,
) -> RunOutcome {
    subscribe_over(alloc, info, "h", source, writer, 1_000, out)
}

// Returns the output, and the exit status if it is not 0.
fn printed(
    alloc: Global,
    source: &mut MemorySource<'_>,
    writer: &mut MemorySink,
) -> Result<String, Fail> {
    let info = framework(alloc)?;
    let mut out = MemorySink::new(alloc, 5);
    let ended = subscribed(alloc, &info, source, writer, &mut out);
    printed_of(alloc, &out, ended)
}

// Returns the output. Exactly the SUBSCRIBE must be written, and `left` must remain unread; `most`
// is the largest read in bytes.
fn followed(alloc: Global, answer: &str, most: usize, left: &[u8]) -> Result<String, Fail> {
    let bytes = bytes_of(alloc, answer)?;
    let request = bytes_of(alloc, SUBSCRIBE_REQUEST)?;
    let mut source = MemorySource::new(bytes.as_slice(), most);
    let mut writer = MemorySink::new(alloc, most);
    let text = printed(alloc, &mut source, &mut writer)?;
    if writer.bytes() != request.as_slice() || !leaves(&mut source, left)? {
        return Err("a SUBSCRIBE is written, and no byte too many read")?;
    }
    Ok(text)
}

#[test]
fn a_stream_is_shown(rt: HostRuntime) -> Result<(), Fail> {
    for most in [1, 7, 4_096] {
        assert_eq!(rt;
            followed(rt.alloc(), STREAM, most, b"")?.as_str(),
            SHOWN,
            "{most}"
        );
    }
    Ok(())
}

// With one byte for each read, one read too many would be detected.
#[test]
fn bytes_after_a_stream_are_not_read(rt: HostRuntime) -> Result<(), Fail> {
    let answer = format!(in rt.alloc(); "{STREAM}X")?;
    let shown = followed(rt.alloc(), answer.as_str(), 1, b"X")?;
    assert_eq!(rt; shown.as_str(), SHOWN);
    Ok(())
}

#[test]
fn nothing_is_read_after_a_head_that_is_refused(rt: HostRuntime) -> Result<(), Fail> {
    let answer = "HTTP/1.1 403 Forbidden|Content-Length: 1||X";
    let shown = followed(rt.alloc(), answer, 64, b"X")?;
    assert_eq!(rt; shown.as_str(), "refused H4 Status 403~ 1");
    Ok(())
}

// Returns the output. The writer stops after `good` bytes, and must have received exactly these;
// nothing may be read.
fn unsent(alloc: Global, request: &[u8], good: usize, stop: MemoryStop) -> Result<String, Fail> {
    let mut source = MemorySource::new(b"HTTP/1.1 200 OK", 64);
    let mut writer = MemorySink::stopping_after(alloc, 64, good, stop);
    let text = printed(alloc, &mut source, &mut writer)?;
    if request.get(..good) != Some(writer.bytes()) || source.counts().calls != 0 {
        return Err("so much is written, and nothing is read")?;
    }
    Ok(text)
}

#[test]
fn a_subscribe_whose_writer_stops_is_reported(rt: HostRuntime) -> Result<(), Fail> {
    let request = bytes_of(rt.alloc(), SUBSCRIBE_REQUEST)?;
    for good in 0..request.len() {
        for stop in [MemoryStop::Fails, MemoryStop::TakesNone] {
            let printed = unsent(rt.alloc(), request.as_slice(), good, stop)?;
            assert_eq!(rt; printed.as_str(), "net write failed~ 1", "{good}");
        }
    }
    Ok(())
}

// The SUBSCRIBE of this framework is too large for the body of a request.
fn large_framework(alloc: Global) -> Result<FrameworkInfo, Fail> {
    let mut info = framework(alloc)?;
    let mut user = String::new(alloc);
    for _ in 0..1_048_576 {
        user.push('a')?;
    }
    info.user = Text::of(alloc, user.as_str())?;
    Ok(info)
}

// Returns the output for `large_framework`; nothing may be written or read.
fn large(alloc: Global) -> Result<String, Fail> {
    let info = large_framework(alloc)?;
    let mut source = MemorySource::new(b"HTTP/1.1 200 OK", 64);
    let mut writer = MemorySink::new(alloc, 64);
    let mut out = MemorySink::new(alloc, 64);
    let ended = subscribed(alloc, &info, &mut source, &mut writer, &mut out);
    if writer.counts().calls != 0 || source.counts().calls != 0 {
        return Err("nothing is written or read")?;
    }
    printed_of(alloc, &out, ended)
}

#[test]
fn a_subscribe_that_is_too_large_is_not_written(rt: HostRuntime) -> Result<(), Fail> {
    assert_eq!(rt; large(rt.alloc())?.as_str(), "net write failed~ 1");
    Ok(())
}

// Returns whether exactly `good` bytes are printed if the output fails after `good` bytes.
fn is_cut(alloc: Global, answer: &[u8], lines: &[u8], good: usize) -> Result<bool, Fail> {
    let info = framework(alloc)?;
    let mut source = MemorySource::new(answer, 7);
    let mut writer = MemorySink::new(alloc, 64);
    let mut out = MemorySink::stopping_after(alloc, 5, good, MemoryStop::Fails);
    let ended = subscribed(alloc, &info, &mut source, &mut writer, &mut out);
    Ok(ended == RunOutcome::OutputFailed(good as u64) && lines.get(..good) == Some(out.bytes()))
}

#[test]
fn an_output_that_fails_has_the_bytes_before(rt: HostRuntime) -> Result<(), Fail> {
    let answer = bytes_of(rt.alloc(), STREAM)?;
    let lines = bytes_of(rt.alloc(), SHOWN)?;
    for good in 0..lines.len() {
        let is_cut = is_cut(rt.alloc(), answer.as_slice(), lines.as_slice(), good)?;
        assert!(rt; is_cut, "{good}");
    }
    Ok(())
}

// Returns the output for a SUBSCRIBE that was not sent, and the exit status.
fn reported(alloc: Global, fault: SendFault) -> Result<String, Fail> {
    let mut out = MemorySink::new(alloc, 5);
    let ended = report_unsent(&mut out, &fault);
    printed_of(alloc, &out, ended)
}

#[test]
fn an_unwritten_response_is_reported(rt: HostRuntime) -> Result<(), Fail> {
    let index = 0;
    let why = EncodeFaultKind::TooLarge;
    let unwritable = reported(rt.alloc(), SendFault::Encode { index, why })?;
    assert_eq!(rt; unwritable.as_str(), "net write failed~ 1");
    let why = WriteFaultKind::Zero;
    let stopped = reported(rt.alloc(), SendFault::Write(WriteFault { sent: 7, why }))?;
    assert_eq!(rt; stopped.as_str(), "net write failed~ 1");
    let refused = reported(rt.alloc(), SendFault::NoMemory)?;
    assert_eq!(rt; refused.as_str(), "fault F13 NoMemory after 0~ 1");
    Ok(())
}

fn sent(alloc: Global, writer: &mut MemorySink) -> Result<(), Fail> {
    let info = framework(alloc)?;
    match send_subscribe(alloc, &info, "h", writer) {
        Ok(()) => Ok(()),
        Err(_) => Err("a SUBSCRIBE goes out")?,
    }
}

// The stream has a HEARTBEAT after SUBSCRIBED.
fn answered(alloc: Global, request: &[u8], writer: &mut MemorySink) -> Result<(), Fail> {
    let events = events_of(alloc, r#"{"type":"HEARTBEAT"}"#)?;
    let mut source = MemorySource::new(request, 64);
    let mut out = MemorySink::new(alloc, 64);
    match serve_anew(
        alloc,
        events.as_slice(),
        4_096,
        &mut source,
        writer,
        &mut out,
    )? {
        Ok((true, 14)) => Ok(()),
        _ => Err("a stream goes out")?,
    }
}

#[test]
fn one_end_shows_what_the_other_serves(rt: HostRuntime) -> Result<(), Fail> {
    let mut request = MemorySink::new(rt.alloc(), 64);
    sent(rt.alloc(), &mut request)?;
    let mut answer = MemorySink::new(rt.alloc(), 64);
    answered(rt.alloc(), request.bytes(), &mut answer)?;
    let shown = shown(
        rt.alloc(),
        &mut MemorySource::new(answer.bytes(), 64),
        1_000,
    )?;
    assert_eq!(rt; shown.as_str(), SHOWN);
    Ok(())
}
