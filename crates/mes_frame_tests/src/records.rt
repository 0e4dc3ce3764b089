//! Worked examples of reading records.
use crate::support::{as_text, end_text};
use mes_frame::*;
use std::test::Fail;

// The first result that ends a record or the stream, and the number of bytes consumed by then.
fn first_end(limit: Limit, text: &[u8]) -> Option<(usize, RecordOut)> {
    let mut state = RecordState::new(limit);
    for (at, byte) in text.iter().enumerate() {
        let out = state.step(*byte);
        match out {
            RecordOut::Quiet => {}
            RecordOut::Byte { last: false } => {}
            RecordOut::Byte { last: true } => return Some((at + 1, out)),
            RecordOut::Empty => return Some((at + 1, out)),
            RecordOut::Fault(_) => return Some((at + 1, out)),
        }
    }
    None
}

#[test]
fn a_limit_is_1_byte_to_64_mib(rt: HostRuntime) {
    let bytes = [
        0,
        MAX_RECORD_LIMIT + 1,
        MAX_RECORD_LIMIT,
        DEFAULT_RECORD_LIMIT,
    ];
    assert_eq!(rt;
        bytes.map(Limit::new),
        [None, None, Some(Limit::LARGEST), Some(Limit::USUAL)]
    );
    assert_eq!(rt; Limit::new(1).map_or(0, |limit| limit.get()), 1);
}

// A limit and bytes, and for each the number of bytes up to the end or error, and the result there.
const ENDS: [(u32, &[u8], &str); 10] = [
    (
        20,
        b"20\n{\"type\":\"HEARTBEAT\"}",
        "23 Byte { last: true }",
    ),
    (
        19,
        b"20\n{\"type\":\"HEARTBEAT\"}",
        "3 Fault(RecordTooLarge)",
    ),
    (
        20,
        b"00000000000000000020\n{\"type\":\"HEARTBEAT\"}",
        "41 Byte { last: true }",
    ),
    (
        DEFAULT_RECORD_LIMIT,
        b"000000000000000000020\n",
        "21 Fault(SizeLineTooLong)",
    ),
    (
        MAX_RECORD_LIMIT,
        b"18446744073709551636\n",
        "21 Fault(RecordTooLarge)",
    ),
    (DEFAULT_RECORD_LIMIT, b"0\n", "2 Empty"),
    (DEFAULT_RECORD_LIMIT, b"x", "1 Fault(BadSizeLine)"),
    (DEFAULT_RECORD_LIMIT, b"\n", "1 Fault(BadSizeLine)"),
    (DEFAULT_RECORD_LIMIT, b"12 \n", "3 Fault(BadSizeLine)"),
    (DEFAULT_RECORD_LIMIT, b"3\nab", "no end"),
];

#[test]
fn records_end_and_break_at_their_byte(rt: HostRuntime) -> Result<(), Fail> {
    for &(limit, bytes, end) in &ENDS {
        let limit = Limit::new(limit).ok_or("a limit")?;
        let reported = end_text(rt.alloc(), first_end(limit, bytes))?;
        let text = as_text(bytes);
        assert_eq!(rt; reported.as_str(), end, "{text:?}");
    }
    Ok(())
}

const BAD: RecordOut = RecordOut::Fault(FrameFault::BadSizeLine);

#[test]
fn a_fault_is_returned_again(rt: HostRuntime) {
    let mut state = RecordState::new(Limit::USUAL);
    assert_eq!(rt; [state.step(b'x'), state.step(b'1')], [BAD, BAD]);
    assert_eq!(rt; (state.between(), state.remaining()), (false, 0));
}

#[test]
fn data_passes_in_runs(rt: HostRuntime) {
    let mut state = RecordState::new(Limit::USUAL);
    assert!(rt; state.between());
    assert_eq!(rt;
        (state.step(b'5'), state.between(), state.step(b'\n')),
        (RecordOut::Quiet, false, RecordOut::Quiet)
    );
    assert_eq!(rt; state.remaining(), 5);
    assert!(rt; !state.pass(3));
    assert_eq!(rt;
        (state.remaining(), state.step(b'd')),
        (2, RecordOut::Byte { last: false })
    );
    assert_eq!(rt; state.remaining(), 1);
    assert!(rt; state.pass(1));
    assert!(rt; state.between());
}
