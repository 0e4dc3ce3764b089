//! Texts in pieces have the same results as whole texts: every prefix of each text is read byte by
//! byte, and in every cut into two runs.

use mes_json::{Json, Lexer, MAX_NESTING, ReadFault, TextFault, TextFaultKind, read_text};
use std::alloc::Global;
use std::process::Abort;
use std::test::Fail;

/// Returns whether two results are the same tree or the same error.
pub(crate) fn same(one: &Result<Json, ReadFault>, other: &Result<Json, ReadFault>) -> bool {
    match one {
        Ok(one) => match other {
            Ok(other) => one.same(other),
            Err(_) => false,
        },
        Err(one) => match other {
            Ok(_) => false,
            Err(other) => one == other,
        },
    }
}

fn push_bytes(lexer: &mut Lexer, bytes: &[u8]) -> Result<(), ReadFault> {
    for byte in bytes {
        lexer.push(*byte)?;
    }
    Ok(())
}

fn push_runs(lexer: &mut Lexer, runs: &[&[u8]]) -> Result<(), ReadFault> {
    for run in runs {
        lexer.push_run(run)?;
    }
    Ok(())
}

fn read_by_bytes(alloc: Global, bytes: &[u8]) -> Result<Json, ReadFault> {
    let mut lexer = Lexer::new(alloc);
    push_bytes(&mut lexer, bytes)?;
    lexer.finish()
}

fn read_by_runs(alloc: Global, runs: &[&[u8]]) -> Result<Json, ReadFault> {
    let mut lexer = Lexer::new(alloc);
    push_runs(&mut lexer, runs)?;
    lexer.finish()
}

fn is_same_by_bytes(alloc: Global, bytes: &[u8], whole: &Result<Json, ReadFault>) -> bool {
    same(&read_by_bytes(alloc, bytes), whole)
}

fn is_same_by_runs(alloc: Global, runs: &[&[u8]], whole: &Result<Json, ReadFault>) -> bool {
    same(&read_by_runs(alloc, runs), whole)
}

fn is_same_by_cuts(alloc: Global, text: &[u8], whole: &Result<Json, ReadFault>) -> bool {
    let mut alike = true;
    for cut in 0..text.len() + 1 {
        alike = alike && is_same_by_runs(alloc, &[&text[..cut], &text[cut..]], whole);
    }
    alike
}

/// Returns whether the text has the same result read as a whole, byte by byte, and in every cut
/// into two runs.
fn is_read_alike(alloc: Global, text: &[u8]) -> bool {
    let whole = read_text(alloc, text);
    is_same_by_bytes(alloc, text, &whole) && is_same_by_cuts(alloc, text, &whole)
}

/// Checks that every prefix of the text has the same result as a whole, byte by byte, and in every
/// cut into two runs.
pub(crate) fn expect_same<R: Abort + AllocGlobal>(rt: &R, text: &[u8]) {
    for end in 0..text.len() + 1 {
        assert!(rt;
            is_read_alike(rt.alloc(), &text[..end]),
            "{end} of {text:?}"
        );
    }
}

#[test]
fn pieces_are_read_as_the_whole(rt: HostRuntime) {
    let texts: [&[u8]; 16] = [
        b"null",
        b" true\r\n",
        b"\tfalse",
        b"0",
        b"-120.050e+07 ",
        b"\"\"",
        b"\"plain characters \\\"\\\\\\/\\b\\f\\n\\r\\t and more of them\"",
        b"\"\\u0041\\uD834\\udd1e\\uFFFF\"",
        "\"å–𝄞\"".as_bytes(),
        b"[]",
        b"{}",
        b"[1, \"two\", null, true, false, [], {}]",
        b"{\"a\":{\"a\":[1],\"a\":2},\"\":-0.5E1}",
        b" { \"name of a member\" : \"text of a value\" , \"b\" : [ 1 , 2 ] } ",
        b"{\"a\":1,}, more",
        b"[\"\\ud834\\u0041 a text goes on\"]",
    ];
    for text in texts {
        expect_same(&rt, text);
    }
}

#[test]
fn deep_pieces_are_read_as_the_whole(rt: HostRuntime) -> Result<(), Fail> {
    for depth in MAX_NESTING..MAX_NESTING + 2 {
        let mut text = Vec::new(rt.alloc());
        for _ in 0..depth {
            text.push(b'[')?;
        }
        text.push(b'1')?;
        for _ in 0..depth {
            text.push(b']')?;
        }
        expect_same(&rt, &text);
    }
    Ok(())
}

/// Bytes, and the number of bytes buffered after they are pushed: decoded characters of strings and
/// names, and bytes of numbers. An escape counts after its last byte; after an error nothing is
/// buffered.
const HELD: [(&[u8], u64); 22] = [
    (b"", 0),
    (b" [ ", 0),
    (b"tru", 0),
    (b"-", 1),
    (b"[12.5", 4),
    (b"[12.5,", 4),
    (b"\"", 0),
    (b"\"abc", 3),
    (b"\"abc\"", 3),
    (b"\"a\\", 1),
    (b"\"a\\n", 2),
    (b"\"\\u00e", 0),
    (b"\"\\u00e9", 2),
    (b"\"\\uD834", 0),
    (b"\"\\uD834\\", 0),
    (b"\"\\uD834\\uDD1", 0),
    (b"\"\\uD834\\uDD1E", 4),
    (b"\"\xC3", 1),
    (b"{\"ab\":\"cde\",\"f\":-1.5e+3}", 13),
    (b"[\"abc\",]", 0),
    (b"[\"abc\",12x", 0),
    (b"[\"abc\",12x \"more\"", 0),
];

/// Returns the number of bytes buffered after the bytes are pushed one by one.
fn held_by_bytes(alloc: Global, bytes: &[u8]) -> Result<u64, ReadFault> {
    let mut lexer = Lexer::new(alloc);
    push_bytes(&mut lexer, bytes)?;
    Ok(lexer.held())
}

/// Returns the number of bytes buffered after the bytes are pushed as one run.
fn held_by_run(alloc: Global, bytes: &[u8]) -> Result<u64, ReadFault> {
    let mut lexer = Lexer::new(alloc);
    lexer.push_run(bytes)?;
    Ok(lexer.held())
}

#[test]
fn a_lexer_holds_texts_and_numbers(rt: HostRuntime) -> Result<(), Fail> {
    for &(pushed, held) in &HELD {
        let both = [
            held_by_bytes(rt.alloc(), pushed)?,
            held_by_run(rt.alloc(), pushed)?,
        ];
        assert_eq!(rt; both, [held, held], "{pushed:?}");
    }
    Ok(())
}

/// Pushes a text with an error, and then more bytes and runs; the last run is empty.
fn push_after_a_fault(lexer: &mut Lexer) -> Result<(), ReadFault> {
    push_runs(lexer, &[b"[1"])?;
    push_bytes(lexer, b"x]")?;
    push_runs(lexer, &[b" \"more\" x {", b""])
}

fn read_after_a_fault(alloc: Global) -> Result<Json, ReadFault> {
    let mut lexer = Lexer::new(alloc);
    push_after_a_fault(&mut lexer)?;
    lexer.finish()
}

#[test]
fn bytes_after_a_fault_change_nothing(rt: HostRuntime) {
    let fault = TextFault {
        byte: 2,
        why: TextFaultKind::Byte,
    };
    assert_eq!(rt;
        read_after_a_fault(rt.alloc()).err(),
        Some(ReadFault::Text(fault))
    );
}

#[test]
fn a_number_can_span_runs(rt: HostRuntime) {
    let in_runs = read_by_runs(rt.alloc(), &[b"12", b"", b"3"]);
    assert!(rt; in_runs.is_ok());
    assert!(rt; same(&in_runs, &read_text(rt.alloc(), b"123")));
}
