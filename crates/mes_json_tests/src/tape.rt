//! Tapes: values read in place, their trees, and reused memory.

use crate::values::written;
use mes_json::{Lexer, ReadFault, Tape, TextFault, TextFaultKind, read_tape, read_text};
use std::alloc::Global;
use std::test::Fail;

/// Texts, and their canonical texts.
const WRITTEN: [(&[u8], &[u8]); 12] = [
    (b"null", b"null"),
    (b" true\r\n", b"true"),
    (b"\tfalse", b"false"),
    (b"-120.050e+07 ", b"-120.050e+07"),
    (b"\"\"", b"\"\""),
    (b"\"\\u0041 \\/\"", b"\"A /\""),
    (b"[ ]", b"[]"),
    (b"{ }", b"{}"),
    (b"[1, [2, [], {}], 3]", b"[1,[2,[],{}],3]"),
    (
        b"{\"a\" : 1, \"a\" : [2], \"\" : {}}",
        b"{\"a\":1,\"a\":[2],\"\":{}}",
    ),
    (
        b"{\"x\":{\"y\":{\"z\":null}}}",
        b"{\"x\":{\"y\":{\"z\":null}}}",
    ),
    (b"[0, \"0\", {\"0\":0}, true]", b"[0,\"0\",{\"0\":0},true]"),
];

/// Bytes that are not a text, and the offset and reason of their error.
const FAULTY: [(&[u8], u64, TextFaultKind); 7] = [
    (b"", 0, TextFaultKind::End),
    (b"[1", 2, TextFaultKind::End),
    (b"-", 1, TextFaultKind::End),
    (b"{\"a\":1", 6, TextFaultKind::End),
    (b"\"a", 2, TextFaultKind::End),
    (b"[1,]", 3, TextFaultKind::Byte),
    (b"1 2", 2, TextFaultKind::Byte),
];

/// Returns whether the canonical text of the tape's value is `expected`.
fn is_written(alloc: Global, tape: &Tape, expected: &[u8]) -> Result<bool, Fail> {
    let json = tape.root().to_json(alloc)?;
    let out = written(alloc, &json)?;
    Ok(out.as_slice() == expected)
}

fn lexed(lexer: Lexer, bytes: &[u8]) -> Result<Tape, ReadFault> {
    let mut lexer = lexer;
    lexer.push_run(bytes)?;
    lexer.end()
}

fn tape_of_tree(alloc: Global, text: &[u8]) -> Result<Tape, Fail> {
    let json = read_text(alloc, text)?;
    Ok(Tape::of_json(alloc, &json)?)
}

fn is_read_so(alloc: Global, tape: Tape, expected: &[u8]) -> Result<bool, Fail> {
    let same = is_written(alloc, &tape, expected);
    drop(tape);
    same
}

#[test]
fn a_tape_holds_the_value_of_its_text(rt: HostRuntime) -> Result<(), Fail> {
    for &(text, expected) in &WRITTEN {
        let same = [
            is_read_so(rt.alloc(), read_tape(rt.alloc(), text)?, expected)?,
            is_read_so(rt.alloc(), tape_of_tree(rt.alloc(), text)?, expected)?,
        ];
        assert_eq!(rt; same, [true; 2], "{text:?}");
    }
    Ok(())
}

/// Returns the error of the bytes, read as a whole and in pieces.
fn faults(alloc: Global, bytes: &[u8]) -> [Option<ReadFault>; 2] {
    [
        read_tape(alloc, bytes).err(),
        lexed(Lexer::new(alloc), bytes).err(),
    ]
}

#[test]
fn a_tape_is_refused_at_the_first_fault(rt: HostRuntime) {
    for &(bytes, byte, why) in &FAULTY {
        let expected = Some(ReadFault::Text(TextFault { byte, why }));
        assert_eq!(rt; faults(rt.alloc(), bytes), [expected, expected]);
    }
}

/// Reads a text in the memory of an older tape. Returns its tape, if the canonical text is
/// `expected`.
fn read_on(alloc: Global, older: Tape, text: &[u8], expected: &[u8]) -> Result<Tape, Fail> {
    let tape = lexed(Lexer::reusing(alloc, older), text)?;
    if is_written(alloc, &tape, expected)? {
        Ok(tape)
    } else {
        Err("a value that is written so")?
    }
}

#[test]
fn a_lexer_reads_on_in_the_memory_of_a_tape(rt: HostRuntime) -> Result<(), Fail> {
    let mut tape = read_tape(rt.alloc(), b"[\"an older text\", 17]")?;
    for &(text, expected) in &WRITTEN {
        tape = read_on(rt.alloc(), tape, text, expected)?;
    }
    Ok(())
}

/// Returns the tape of an array whose memory exceeds `MAX_REUSED_CAPACITY`.
fn long_tape(alloc: Global) -> Result<Tape, Fail> {
    let mut text = Vec::new(alloc);
    text.push(b'[')?;
    for _ in 0..1_100_000 {
        text.extend_from_slice(b"1,")?;
    }
    text.extend_from_slice(b"1]")?;
    Ok(read_tape(alloc, &text)?)
}

#[test]
fn a_lexer_reads_on_after_a_long_tape(rt: HostRuntime) -> Result<(), Fail> {
    let next = lexed(Lexer::reusing(rt.alloc(), long_tape(rt.alloc())?), b"[2]")?;
    assert!(rt; is_read_so(rt.alloc(), next, b"[2]")?);
    Ok(())
}
