//! Lines of errors and of the counts.

use arrayvec::ArrayString;
use mes_frame::FrameFault;
use mes_json::TextFaultKind;
use mes_model_schema::{FieldFaultKind, Path, Step};
use mes_stream::{Fault, count_line, fault_line};
use std::process::Abort;

fn expect_line<R: Abort>(rt: &R, fault: Fault, used: u64, expected: &str) {
    let mut line = ArrayString::new();
    fault_line(&fault, used, &mut line);
    drop(fault);
    assert_eq!(rt; line.as_str(), expected);
}

// Expects this line for an error of the framing after 5 bytes.
fn expect_framing<R: Abort>(rt: &R, fault: FrameFault, expected: &str) {
    expect_line(rt, Fault::Frame(fault), 5, expected);
}

// Expects this line for a record 1 that is not JSON.
fn expect_text<R: Abort>(rt: &R, byte: u64, why: TextFaultKind, used: u64, expected: &str) {
    let fault = Fault::Text {
        at_record: 1,
        byte,
        why,
    };
    expect_line(rt, fault, used, expected);
}

fn expect_field<R: Abort>(
    rt: &R,
    at_record: u64,
    path: Path,
    why: FieldFaultKind,
    used: u64,
    expected: &str,
) {
    let fault = Fault::Field {
        at_record,
        path,
        why,
    };
    expect_line(rt, fault, used, expected);
}

#[test]
fn a_framing_fault_has_its_line(rt: HostRuntime) {
    use FrameFault::*;
    expect_framing(&rt, BadChunkLine, "fault F1 BadChunkLine after 5");
    expect_framing(&rt, ChunkLineTooLong, "fault F2 ChunkLineTooLong after 5");
    expect_framing(&rt, ChunkTooLarge, "fault F3 ChunkTooLarge after 5");
    expect_framing(&rt, BadChunkEnd, "fault F4 BadChunkEnd after 5");
    expect_framing(&rt, TrailersTooLong, "fault F5 TrailersTooLong after 5");
    expect_framing(&rt, BadSizeLine, "fault F7 BadSizeLine after 5");
    expect_framing(&rt, SizeLineTooLong, "fault F8 SizeLineTooLong after 5");
    expect_framing(&rt, RecordTooLarge, "fault F9 RecordTooLarge after 5");
}

// Expects this line for an error after 12 bytes.
fn expect_twelve<R: Abort>(rt: &R, fault: Fault, expected: &str) {
    expect_line(rt, fault, 12, expected);
}

#[test]
fn an_end_or_a_device_fault_has_its_line(rt: HostRuntime) {
    use Fault::*;
    expect_twelve(&rt, EndsInsideChunks, "fault F6 EndsInsideChunks after 12");
    expect_twelve(&rt, EndsInsideRecord, "fault F10 EndsInsideRecord after 12");
    expect_twelve(&rt, NoMemory, "fault F13 NoMemory after 12");
    expect_twelve(&rt, Read, "fault F14 Read after 12");
    expect_twelve(&rt, ReadsSpent, "fault F15 ReadsSpent after 12");
}

#[test]
fn a_bad_entry_has_its_line(rt: HostRuntime) {
    let entry = Fault::BadEntry { at_record: 1 };
    expect_line(&rt, entry, 3, "fault F16 BadEntry record 1 after 3");
}

#[test]
fn a_text_fault_has_its_line(rt: HostRuntime) {
    let end = "fault F11 Text record 1 byte 0 End after 2";
    expect_text(&rt, 0, TextFaultKind::End, 2, end);
    let depth = "fault F11 Text record 1 byte 128 Depth after 133";
    expect_text(&rt, 128, TextFaultKind::Depth, 133, depth);
    let byte = "fault F11 Text record 1 byte 31 Byte after 37";
    expect_text(&rt, 31, TextFaultKind::Byte, 37, byte);
}

#[test]
fn a_field_fault_has_its_line(rt: HostRuntime) {
    let state = Path::new()
        .with(Step::Name("update"))
        .with(Step::Name("status"))
        .with(Step::Name("state"));
    let line = "fault F12 Field record 3 update.status.state Missing after 210";
    expect_field(&rt, 3, state, FieldFaultKind::Missing, 210, line);
    let kind = Path::new().with(Step::Name("type"));
    let line = "fault F12 Field record 1 type Missing after 4";
    expect_field(&rt, 1, kind, FieldFaultKind::Missing, 4, line);
    let line = "fault F12 Field record 1 . WrongKind after 5";
    expect_field(&rt, 1, Path::new(), FieldFaultKind::WrongKind, 5, line);
}

#[test]
fn a_field_fault_of_an_element_has_its_line(rt: HostRuntime) {
    let listed = Path::new()
        .with(Step::Name("a"))
        .with(Step::Name("b"))
        .with(Step::Index(0))
        .with(Step::Name("c"));
    let line = "fault F12 Field record 2 a.b[0].c NumberRange after 98";
    expect_field(&rt, 2, listed, FieldFaultKind::NumberRange, 98, line);
}

#[test]
fn a_count_has_its_line(rt: HostRuntime) {
    let mut line = ArrayString::new();
    count_line(1, 29, &mut line);
    assert_eq!(rt; line.as_str(), "events 1 bytes 29");
}
