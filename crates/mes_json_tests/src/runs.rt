//! Strings of about the length of a block, with each kind of byte after the plain characters, and
//! white space between tokens.

use crate::values::is_same;
use mes_json::{Json, ReadFault, Text, TextFault, TextFaultKind, read_text};
use std::alloc::Global;
use std::process::Abort;
use std::test::Fail;

// A hundred plain characters: every one that exists, and some twice.
const PLAIN: [u8; 100] =
    *b" !#$%&'()*+,-./0123456789:;<=>?@ABCDEFGHIJKLMNOPQRSTUVWXYZ[]^_`abcdefghijklmnopqrstuvwxyz{|}~\x7f[{,:}]";

fn joined(alloc: Global, parts: &[&[u8]]) -> Result<Vec<u8>, Fail> {
    let mut bytes = Vec::new(alloc);
    for part in parts {
        bytes.extend_from_slice(part)?;
    }
    Ok(bytes)
}

/// Returns whether the bytes are the concatenated parts.
fn are_joined(bytes: &[u8], parts: &[&[u8]]) -> bool {
    let mut rest = bytes;
    for part in parts {
        if !rest.starts_with(part) {
            return false;
        }
        rest = rest.get(part.len()..).unwrap_or(&[]);
    }
    rest.is_empty()
}

/// Returns whether the bytes are a JSON text of the string with the given characters.
fn spells(alloc: Global, bytes: &[u8], characters: &[&[u8]]) -> bool {
    match &read_text(alloc, bytes) {
        Ok(Json::Text(text)) => are_joined(text.as_str().as_bytes(), characters),
        _ => false,
    }
}

/// Returns whether the concatenated parts are a JSON text of the string with the given characters.
pub(crate) fn are_spelled(
    alloc: Global,
    parts: &[&[u8]],
    characters: &[&[u8]],
) -> Result<bool, Fail> {
    let bytes = joined(alloc, parts)?;
    Ok(spells(alloc, &bytes, characters))
}

#[test]
fn strings_of_each_length_are_read(rt: HostRuntime) -> Result<(), Fail> {
    for length in 0..101 {
        let plain = &PLAIN[..length];
        for following in [b"", &[b' '; 64] as &[u8]] {
            let parts = [b"\"", plain, b"\"", following];
            assert!(rt; are_spelled(rt.alloc(), &parts, &[plain])?, "{length}");
        }
    }
    Ok(())
}

// The bytes after plain characters in a string, and the characters that they represent.
const ENDS: [(&[u8], &[u8]); 6] = [
    (b"\\\"", b"\""),
    (b"\\\\", b"\\"),
    (b"\\n", b"\n"),
    (b"\\u0041", b"A"),
    (b"\xc3\xa9", b"\xc3\xa9"),
    (b"\xdf\xbf\xc2\x80", b"\xdf\xbf\xc2\x80"),
];

#[test]
fn each_end_of_a_run_is_read(rt: HostRuntime) -> Result<(), Fail> {
    for length in 0..49 {
        let plain = &PLAIN[..length];
        for &(written, meant) in &ENDS {
            let parts = [b"\"", plain, written, &PLAIN, b"\""];
            assert!(rt;
                are_spelled(rt.alloc(), &parts, &[plain, meant, &PLAIN])?,
                "{length} {written:?}"
            );
        }
    }
    Ok(())
}

/// Returns whether the parts are an object whose first member has the given name and string.
fn begins_with(
    alloc: Global,
    parts: &[&[u8]],
    expected: &[&[u8]],
    characters: &[&[u8]],
) -> Result<bool, Fail> {
    let bytes = joined(alloc, parts)?;
    Ok(is_member(alloc, &bytes, expected, characters))
}

fn is_member(alloc: Global, bytes: &[u8], expected: &[&[u8]], characters: &[&[u8]]) -> bool {
    match &read_text(alloc, bytes) {
        Ok(Json::Map(members)) => is_first(members.as_slice(), expected, characters),
        _ => false,
    }
}

fn is_first(members: &[(Text, Json)], expected: &[&[u8]], characters: &[&[u8]]) -> bool {
    match members {
        [(name, Json::Text(text)), ..] => {
            are_joined(name.as_str().as_bytes(), expected)
                && are_joined(text.as_str().as_bytes(), characters)
        }
        _ => false,
    }
}

// The bytes between a name and its value.
const COLONS: [&[u8]; 3] = [b":", b" :", b": "];

// The bytes after the first member.
const BEHIND: [&[u8]; 4] = [
    b"}",
    b" , \"c\" : 1 }",
    b",\"a name that is longer than a block\":\"and a text that is, too\"}",
    b"}                                ",
];

#[test]
fn members_of_each_length_are_read(rt: HostRuntime) -> Result<(), Fail> {
    for length in 0..36 {
        let plain = &PLAIN[..length];
        for &colon in &COLONS {
            for &following in &BEHIND {
                let parts = [b"{\"", plain, b"\"", colon, b"\"", plain, b"\"", following];
                assert!(rt;
                    begins_with(rt.alloc(), &parts, &[plain], &[plain])?,
                    "{length} {colon:?} {following:?}"
                );
            }
        }
    }
    Ok(())
}

#[test]
fn each_end_of_a_run_is_read_in_a_member(rt: HostRuntime) -> Result<(), Fail> {
    for length in 0..20 {
        let plain = &PLAIN[..length];
        for &(written, meant) in &ENDS {
            let parts = [b"{\"", plain, written, b"!\":\"", plain, written, b"\"}"];
            assert!(rt;
                begins_with(rt.alloc(), &parts, &[plain, meant, b"!"], &[plain, meant])?,
                "{length} {written:?}"
            );
        }
    }
    Ok(())
}

/// Returns whether the byte at offset `byte` is an error.
fn is_refused(alloc: Global, bytes: &[u8], byte: u64) -> bool {
    let fault = TextFault {
        byte,
        why: TextFaultKind::Byte,
    };
    read_text(alloc, bytes).err() == Some(ReadFault::Text(fault))
}

fn expect_fault<R: Abort + AllocGlobal>(rt: &R, bytes: &[u8], byte: u64) {
    assert!(rt; is_refused(rt.alloc(), bytes, byte), "{bytes:?} at {byte}");
}

// Bytes that are errors after plain characters of a string.
const FAULTS: [&[u8]; 6] = [b"\x00", b"\n", b"\x1f", b"\x80", b"\xc1", b"\xff"];

#[test]
fn a_run_stops_at_a_fault(rt: HostRuntime) -> Result<(), Fail> {
    for length in 0..49 {
        let plain = &PLAIN[..length];
        for &fault in &FAULTS {
            let bytes = joined(rt.alloc(), &[b"\"", plain, fault, &PLAIN, b"\""])?;
            expect_fault(&rt, &bytes, length as u64 + 1);
        }
    }
    Ok(())
}

// A text as its tokens, with every kind of position between two tokens.
const TOKENS: [&[u8]; 27] = [
    b"{", b"\"a\"", b":", b"[", b"1", b",", b"-2.5e3", b",", b"true", b",", b"null", b",",
    b"\"b c\"", b",", b"[", b"]", b",", b"{", b"}", b",", b"0", b"]", b",", b"\"b\"", b":",
    b"false", b"}",
];

const BLANKS: [&[u8]; 7] = [
    b" ",
    b"\t",
    b"\n",
    b"\r",
    b"\r\n\t ",
    &[b' '; 40],
    &[b'\n'; 17],
];

fn spaced(alloc: Global, blank: &[u8]) -> Result<Vec<u8>, Fail> {
    let mut bytes = joined(alloc, &[blank])?;
    for &token in &TOKENS {
        bytes.extend_from_slice(token)?;
        bytes.extend_from_slice(blank)?;
    }
    Ok(bytes)
}

/// Returns whether the tokens with `blank` around each have the same value as without `blank`.
fn is_read_close(alloc: Global, blank: &[u8]) -> Result<bool, Fail> {
    let wide = spaced(alloc, blank)?;
    let close = spaced(alloc, b"")?;
    is_same(alloc, &wide, &close)
}

#[test]
fn white_space_between_tokens_is_passed_over(rt: HostRuntime) -> Result<(), Fail> {
    for &blank in &BLANKS {
        assert!(rt; is_read_close(rt.alloc(), blank)?, "{blank:?}");
    }
    Ok(())
}

// Bytes that are neither white space nor the first byte of a token.
const OTHERS: [&[u8]; 6] = [b"\x00", b"\x0b", b"\x0c", b"\x1f", b"\x7f", b"\xa0"];

fn expect_no_other<R: Abort + AllocGlobal>(rt: &R, front: &[u8]) -> Result<(), Fail> {
    for &other in &OTHERS {
        let bytes = joined(rt.alloc(), &[front, b" \t", other, b" "])?;
        expect_fault(rt, &bytes, front.len() as u64 + 2);
    }
    Ok(())
}

#[test]
fn no_other_byte_between_tokens_is_passed_over(rt: HostRuntime) -> Result<(), Fail> {
    let mut front = joined(rt.alloc(), &[b" "])?;
    for &token in &TOKENS {
        expect_no_other(&rt, &front)?;
        front.extend_from_slice(token)?;
    }
    Ok(())
}

// White space inside a literal or a number, and the offset of the error.
const WITHIN: [(&[u8], u64); 6] = [
    (b"t rue", 1),
    (b"nul l", 3),
    (b"- 1", 1),
    (b"1 2", 2),
    (b"1. 5", 2),
    (b"1e +5", 2),
];

#[test]
fn white_space_inside_a_token_counts(rt: HostRuntime) {
    for &(bytes, byte) in &WITHIN {
        expect_fault(&rt, bytes, byte);
    }
    assert!(rt; spells(rt.alloc(), b" \" \x7f  a \" ", &[b" \x7f  a "]));
}
