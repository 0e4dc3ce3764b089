//! Bytes that are not a JSON text, with the offset and reason of the error. In every state of the
//! reader, a byte is refused and the bytes end too early.

use mes_json::{MAX_NESTING, ReadFault, TextFault, TextFaultKind, read_text};
use std::process::Abort;
use std::test::Fail;

// Checks that in each text the byte at the given offset is an error.
fn expect_bytes<R: Abort + AllocGlobal>(rt: &R, faults: &[(&[u8], u64)]) {
    for (bytes, byte) in faults {
        let fault = TextFault {
            byte: *byte,
            why: TextFaultKind::Byte,
        };
        assert_eq!(rt;
            read_text(rt.alloc(), bytes).err(),
            Some(ReadFault::Text(fault)),
            "{bytes:?}"
        );
    }
}

// Checks that each text ends too early.
fn expect_ends<R: Abort + AllocGlobal>(rt: &R, texts: &[&[u8]]) {
    for bytes in texts {
        let fault = TextFault {
            byte: bytes.len() as u64,
            why: TextFaultKind::End,
        };
        assert_eq!(rt;
            read_text(rt.alloc(), bytes).err(),
            Some(ReadFault::Text(fault)),
            "{bytes:?}"
        );
    }
}

const VALUES_BYTES: [(&[u8], u64); 14] = [
    (b"x", 0),
    (b" x", 1),
    (b"]", 0),
    (b"}", 0),
    (b":", 0),
    (b",", 0),
    (b"+1", 0),
    (b".5", 0),
    (b"'a'", 0),
    (b"True", 0),
    (b"NaN", 0),
    (b"\x00", 0),
    (b"\x0c1", 0),
    // A byte order mark.
    (b"\xef\xbb\xbf{}", 0),
];

#[test]
fn other_bytes_begin_no_value(rt: HostRuntime) {
    expect_ends(&rt, &[b"", b" ", b"\t\n\r "]);
    expect_bytes(&rt, &VALUES_BYTES);
}

const LITERALS_ENDS: [&[u8]; 11] = [
    b"n", b"nu", b"nul", b"t", b"tr", b"tru", b"f", b"fa", b"fal", b"fals", b"[nul",
];

const LITERALS_BYTES: [(&[u8], u64); 13] = [
    (b"nx", 1),
    (b"nuL", 2),
    (b"nul ", 3),
    (b"nulll", 4),
    (b"ta", 1),
    (b"trU", 2),
    (b"truE", 3),
    (b"truee", 4),
    (b"fx", 1),
    (b"fa\"", 2),
    (b"fal,", 3),
    (b"falsy", 4),
    (b"falses", 5),
];

#[test]
fn a_literal_has_all_its_letters(rt: HostRuntime) {
    expect_ends(&rt, &LITERALS_ENDS);
    expect_bytes(&rt, &LITERALS_BYTES);
}

const NUMBERS_ENDS: [&[u8]; 9] = [
    b"-", b"0.", b"1.", b"-10.", b"1e", b"1E", b"0e+", b"1.5E-", b"[1,-",
];

const NUMBERS_BYTES: [(&[u8], u64); 24] = [
    (b"-x", 1),
    (b"--1", 1),
    (b"-.5", 1),
    (b"01", 1),
    (b"-01", 2),
    (b"00", 1),
    (b"0x1", 1),
    (b"1a", 1),
    (b"12-", 2),
    (b"0.x", 2),
    (b"0..", 2),
    (b"1.e5", 2),
    (b"1.0.", 3),
    (b"1.5a", 3),
    (b"1ex", 2),
    (b"1e.", 2),
    (b"1e+x", 3),
    (b"1e++", 3),
    (b"1e5.", 3),
    (b"1e5e", 3),
    (b"1E-0x", 4),
    (b"1 2", 2),
    (b"1,", 1),
    (b"1]", 1),
];

#[test]
fn a_number_has_the_form_of_rfc_8259(rt: HostRuntime) {
    expect_ends(&rt, &NUMBERS_ENDS);
    expect_bytes(&rt, &NUMBERS_BYTES);
}

const CHARACTERS_ENDS: [&[u8]; 8] = [
    b"\"",
    b"\"a",
    b"\"\xc2",
    b"\"\xe0",
    b"\"\xe2\x82",
    b"\"\xf0",
    b"\"\xf0\x9f",
    b"\"\xf0\x9f\x98",
];

const CHARACTERS_BYTES: [(&[u8], u64); 30] = [
    // Control characters.
    (b"\"\x00", 1),
    (b"\"a\n", 2),
    (b"\"\x1f", 1),
    // A byte that begins no character, and overlong forms of two bytes.
    (b"\"\x80", 1),
    (b"\"\xbf", 1),
    (b"\"\xc0", 1),
    (b"\"\xc1", 1),
    (b"\"\xf5", 1),
    (b"\"\xff", 1),
    // The second byte of a character.
    (b"\"\xc2\x7f", 2),
    (b"\"\xc2\xc0", 2),
    (b"\"\xdf\"", 2),
    (b"\"\xe0\x9f", 2),
    (b"\"\xe0\xc0", 2),
    (b"\"\xe1\x7f", 2),
    (b"\"\xed\xa0", 2),
    (b"\"\xed\xbf", 2),
    (b"\"\xef\xc0", 2),
    (b"\"\xf0\x8f", 2),
    (b"\"\xf1\x7f", 2),
    (b"\"\xf4\x90", 2),
    (b"\"\xf4\x7f", 2),
    // The third and the fourth byte of a character.
    (b"\"\xe0\xa0\x7f", 3),
    (b"\"\xed\x9f\xc0", 3),
    (b"\"\xf0\x90\x7f", 3),
    (b"\"\xf4\x8f\xc0", 3),
    (b"\"\xf0\x90\x80\x7f", 4),
    (b"\"\xf4\x8f\xbf\xc0", 4),
    // A byte after the end of the string.
    (b"\"a\"b", 3),
    (b"\"a\"\"", 3),
];

#[test]
fn a_string_has_no_control_byte_and_no_bad_utf_8(rt: HostRuntime) {
    expect_ends(&rt, &CHARACTERS_ENDS);
    expect_bytes(&rt, &CHARACTERS_BYTES);
}

const ESCAPES_ENDS: [&[u8]; 14] = [
    b"\"\\",
    b"\"\\u",
    b"\"\\u0",
    b"\"\\u00",
    b"\"\\u00e",
    b"\"\\u00e9",
    b"\"\\ud",
    b"\"\\ud8",
    b"\"\\ud83d",
    b"\"\\ud83d\\",
    b"\"\\ud83d\\u",
    b"\"\\ud83d\\ud",
    b"\"\\ud83d\\udE",
    b"\"\\ud83d\\ude0",
];

const ESCAPES_BYTES: [(&[u8], u64); 24] = [
    (b"\"\\x", 2),
    (b"\"\\U", 2),
    (b"\"\\'", 2),
    (b"\"\\0", 2),
    (b"\"\\\n", 2),
    (b"\"\\u\"", 3),
    (b"\"\\ug", 3),
    (b"\"\\u0G", 4),
    (b"\"\\u00/", 5),
    (b"\"\\u000:", 6),
    (b"\"\\u000@", 6),
    (b"\"\\u000`", 6),
    // A lone low surrogate: detected at its second digit.
    (b"\"\\udc00", 4),
    (b"\"\\uDF", 4),
    // A high surrogate without a low surrogate after it.
    (b"\"\\ud800x", 7),
    (b"\"\\ud800\"", 7),
    (b"\"\\udbff\\n", 8),
    (b"\"\\ud800\\u0", 9),
    (b"\"\\ud800\\ue", 9),
    (b"\"\\ud800\\ud8", 10),
    (b"\"\\ud800\\uDB", 10),
    (b"\"\\ud800\\udg", 10),
    (b"\"\\ud800\\udc:", 11),
    (b"\"\\ud800\\udc0g", 12),
];

#[test]
fn an_escape_has_one_of_nine_forms(rt: HostRuntime) {
    expect_ends(&rt, &ESCAPES_ENDS);
    expect_bytes(&rt, &ESCAPES_BYTES);
}

const OBJECTS_ENDS: [&[u8]; 10] = [
    b"{",
    b"{ ",
    b"{\"a",
    b"{\"a\"",
    b"{\"a\" ",
    b"{\"a\":",
    b"{\"a\":1",
    b"{\"a\":{}",
    b"{\"a\":1,",
    b"{\"a\":1, ",
];

const OBJECTS_BYTES: [(&[u8], u64); 18] = [
    (b"{x", 1),
    (b"{1", 1),
    (b"{,", 1),
    (b"{]", 1),
    (b"{{", 1),
    (b"{null", 1),
    (b"{\"a\"x", 4),
    (b"{\"a\",", 4),
    (b"{\"a\"}", 4),
    (b"{\"a\"\"", 4),
    (b"{\"a\":}", 5),
    (b"{\"a\"::", 5),
    (b"{\"a\":\"b\"]", 8),
    (b"{\"a\":1:", 6),
    (b"{\"a\":1,}", 7),
    (b"{\"a\":1,1", 7),
    (b"{\"a\":1}}", 7),
    (b"{} {", 3),
];

#[test]
fn an_object_has_names_colons_and_commas(rt: HostRuntime) {
    expect_ends(&rt, &OBJECTS_ENDS);
    expect_bytes(&rt, &OBJECTS_BYTES);
}

const ARRAYS_ENDS: [&[u8]; 8] = [
    b"[", b"[ ", b"[1", b"[\"a\"", b"[1 ", b"[1,", b"[[]", b"[{}, ",
];

const ARRAYS_BYTES: [(&[u8], u64); 14] = [
    (b"[x", 1),
    (b"[}", 1),
    (b"[,", 1),
    (b"[:", 1),
    (b"[1}", 2),
    (b"[1:", 2),
    (b"[1 2", 3),
    (b"[\"a\"\"", 4),
    (b"[1,]", 3),
    (b"[1,,", 3),
    (b"[1,}", 3),
    (b"[]]", 2),
    (b"[] [", 3),
    (b"[{]", 2),
];

#[test]
fn an_array_has_commas_between_its_items(rt: HostRuntime) {
    expect_ends(&rt, &ARRAYS_ENDS);
    expect_bytes(&rt, &ARRAYS_BYTES);
}

// Returns `front`, repeated, followed by the given bytes.
fn nested<R: Abort + AllocGlobal>(
    rt: &R,
    front: &[u8],
    times: usize,
    bytes: &[u8],
) -> Result<Vec<u8>, Fail> {
    let mut text = Vec::new(rt.alloc());
    for _ in 0..times {
        text.extend_from_slice(front)?;
    }
    text.extend_from_slice(bytes)?;
    Ok(text)
}

const DEPTH_IN_ARRAYS: [(&[u8], TextFaultKind); 5] = [
    (b"[", TextFaultKind::Depth),
    (b"{", TextFaultKind::Depth),
    (b"}", TextFaultKind::Byte),
    (b"x", TextFaultKind::Byte),
    (b"", TextFaultKind::End),
];

const DEPTH_IN_OBJECTS: [(&[u8], TextFaultKind); 5] = [
    (b"[", TextFaultKind::Depth),
    (b"{", TextFaultKind::Depth),
    (b"]", TextFaultKind::Byte),
    (b"}", TextFaultKind::Byte),
    (b"", TextFaultKind::End),
];

#[test]
fn a_text_nests_128_deep(rt: HostRuntime) -> Result<(), Fail> {
    for &(bytes, why) in &DEPTH_IN_ARRAYS {
        let text = nested(&rt, b"[", MAX_NESTING, bytes)?;
        let fault = TextFault {
            byte: MAX_NESTING as u64,
            why,
        };
        assert_eq!(rt;
            read_text(rt.alloc(), &text).err(),
            Some(ReadFault::Text(fault)),
            "{bytes:?}"
        );
    }
    for &(bytes, why) in &DEPTH_IN_OBJECTS {
        // Each front has 5 bytes.
        let text = nested(&rt, b"{\"a\":", MAX_NESTING, bytes)?;
        let fault = TextFault {
            byte: 5 * MAX_NESTING as u64,
            why,
        };
        assert_eq!(rt;
            read_text(rt.alloc(), &text).err(),
            Some(ReadFault::Text(fault)),
            "{bytes:?}"
        );
    }
    Ok(())
}
