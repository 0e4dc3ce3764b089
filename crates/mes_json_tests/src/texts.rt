//! JSON texts and their trees.

use crate::runs::are_spelled;
use crate::values::written;
use mes_json::{Json, MAX_NESTING, Text, read_text};
use std::alloc::Global;
use std::process::Abort;
use std::test::Fail;

/// Returns whether the value has the given kind and content: a boolean, the digits or characters,
/// or the number of items or members.
fn is_reported(json: &Json, kind: &str, what: &str) -> bool {
    match json {
        Json::Null => kind == "null",
        Json::Bool(truth) => kind == "truth" && *truth == (what == "true"),
        Json::Num(number) => kind == "number" && number.as_str() == what,
        Json::Text(text) => kind == "text" && text.as_str() == what,
        Json::List(items) => kind == "list" && what.parse() == Ok(items.len()),
        Json::Map(members) => kind == "map" && what.parse() == Ok(members.len()),
    }
}

fn child(json: &Json, at: usize) -> Option<&Json> {
    match json {
        Json::List(items) => items.get(at),
        Json::Map(members) => members.get(at).map(|member| &member.1),
        _ => None,
    }
}

/// Returns the value at a path of indices, separated by dots; `-` is the whole value.
fn value_at<'a>(json: &'a Json, places: &str) -> Option<&'a Json> {
    let mut value = json;
    if places != "-" {
        for place in places.split('.') {
            value = child(value, place.parse().ok()?)?;
        }
    }
    Some(value)
}

fn name_at<'a>(json: &'a Json, at: usize) -> Option<&'a str> {
    match json {
        Json::Map(members) => members.get(at).map(|member| member.0.as_str()),
        _ => None,
    }
}

const LISTED: &[u8] = b"[null,true,false,1,\"a\",[],{},[[2],{\"b\":[3]}]]";

const ORDERED: &[u8] = br#" {"a" : {"b":"c"} , "a":"d", "0":[ ] } "#;

const SPACED: &[u8] = b"\t{ \"a\"\n:\r{ } , \"b\" : \"\" }\n";

// Paths into a text, and the kind and content of the value at each path.
const IN_LISTED: &str = "- => list 8
0 => null
1 => truth true
2 => truth false
3 => number 1
4 => text a
5 => list 0
6 => map 0
7 => list 2
7.0.0 => number 2
7.1.0.0 => number 3
";

const IN_ORDERED: &str = "- => map 3
0 => map 1
0.0 => text c
1 => text d
2 => list 0
";

const IN_SPACED: &str = "- => map 2
0 => map 0
1 => text
";

/// Returns whether the value at a path in the text has the given kind and content.
fn is_at(alloc: Global, text: &[u8], places: &str, kind: &str, what: &str) -> bool {
    match &read_text(alloc, text) {
        Ok(json) => value_at(json, places).is_some_and(|value| is_reported(value, kind, what)),
        Err(_) => false,
    }
}

/// Checks each line of `rows`: a path into the text, and the kind and content of the value there.
fn expect_values<R: Abort + AllocGlobal>(rt: &R, text: &[u8], rows: &str) -> Result<(), Fail> {
    for row in rows.lines() {
        let (places, reported) = row.split_once(" => ").ok_or("places and a value")?;
        let (kind, what) = reported.split_once(' ').unwrap_or((reported, ""));
        assert!(rt; is_at(rt.alloc(), text, places, kind, what), "{row}");
    }
    Ok(())
}

#[test]
fn each_value_is_read(rt: HostRuntime) -> Result<(), Fail> {
    expect_values(&rt, b"null", "- => null")?;
    expect_values(&rt, b" true ", "- => truth true")?;
    expect_values(&rt, b"\tfalse\r\n", "- => truth false")?;
    expect_values(&rt, b"\"\"", "- => text")?;
    expect_values(
        &rt,
        br#"{"type":"HEARTBEAT"}"#,
        "- => map 1\n0 => text HEARTBEAT",
    )?;
    expect_values(&rt, LISTED, IN_LISTED)?;
    expect_values(&rt, ORDERED, IN_ORDERED)?;
    expect_values(&rt, SPACED, IN_SPACED)
}

// A text, the path of an object, and the name of a member at an index.
const NAMES: [(&[u8], &str, usize, &str); 9] = [
    (br#"{"type":"HEARTBEAT"}"#, "-", 0, "type"),
    (ORDERED, "-", 0, "a"),
    (ORDERED, "0", 0, "b"),
    (ORDERED, "-", 1, "a"),
    (ORDERED, "-", 2, "0"),
    (LISTED, "7.1", 0, "b"),
    (SPACED, "-", 1, "b"),
    // A name has the characters that its escapes represent.
    (br#"{"\u0061\/":"","a/":""}"#, "-", 0, "a/"),
    (br#"{"\u0061\/":"","a/":""}"#, "-", 1, "a/"),
];

/// Returns whether the object at a path in the text has a member of this name at this index.
fn is_named(alloc: Global, text: &[u8], places: &str, at: usize, name: &str) -> bool {
    match &read_text(alloc, text) {
        Ok(json) => value_at(json, places).is_some_and(|object| name_at(object, at) == Some(name)),
        Err(_) => false,
    }
}

#[test]
fn each_name_is_read(rt: HostRuntime) {
    for &(text, places, at, name) in &NAMES {
        assert!(rt;
            is_named(rt.alloc(), text, places, at, name),
            "{places} {name}"
        );
    }
}

const NUMBERS: [&str; 13] = [
    "0",
    "-0",
    "7",
    "10",
    "-120",
    "0.0",
    "0.10",
    "1e5",
    "1E5",
    "1e+05",
    "-1.50E-07",
    "0e999999999999999999999999",
    "123456789012345678901234567890.123456789012345678901234567890",
];

// The bytes before and after a number, and the path of the number.
const AROUND: [(&[u8], &[u8], &str); 4] = [
    (b"", b"", "-"),
    (b" [", b" , 7] ", "0"),
    (b"[7,", b"]", "1"),
    (b"{\"a\":", b"}", "0"),
];

/// Returns whether the number keeps its text between the bytes `front` and `end`.
fn is_kept(alloc: Global, digits: &str, front: &[u8], end: &[u8], places: &str) -> bool {
    match &[front, digits.as_bytes(), end].concat(alloc) {
        Ok(text) => is_at(alloc, text, places, "number", digits),
        Err(_) => false,
    }
}

#[test]
fn numbers_are_stored_as_written(rt: HostRuntime) {
    for &digits in &NUMBERS {
        for &(front, end, places) in &AROUND {
            assert!(rt; is_kept(rt.alloc(), digits, front, end, places), "{digits}");
        }
    }
}

const ESCAPES: [(&[u8], &str); 12] = [
    (br#""\"\\\/\b\f\n\r\t""#, "\"\\/\u{8}\u{c}\n\r\t"),
    (br#""\u0000\u001f""#, "\0\u{1f}"),
    (
        br#""\u0041\u00e9\u00E9\u07ff\u0800""#,
        "A\u{e9}\u{e9}\u{7ff}\u{800}",
    ),
    (br#""\ud7ff\ue000\uFFFF""#, "\u{d7ff}\u{e000}\u{ffff}"),
    (br#""\uD800\uDC00""#, "\u{10000}"),
    (br#""\udbff\udfff""#, "\u{10ffff}"),
    (br#""\uD83D\uDE00""#, "\u{1f600}"),
    (br#""a\u0062c\nd""#, "abc\nd"),
    (br#""\\u0041""#, "\\u0041"),
    (br#""\u005cn\u0022""#, "\\n\""),
    (b"\"\xc3\xa9\\u00e9\xe2\x82\xac\"", "\u{e9}\u{e9}\u{20ac}"),
    (br#""\uDbFf\uDfFf!""#, "\u{10ffff}!"),
];

// The first and last character of each line of the table in RFC 3629 section 4.
const CHARACTERS: &str =
    "\u{20}\u{7f}\u{80}\u{7ff}\u{800}\u{fff}\u{1000}\u{cfff}\u{d000}\u{d7ff}\u{e000}\u{ffff}\u{10000}\u{3ffff}\u{40000}\u{fffff}\u{100000}\u{10ffff}";

/// Returns whether the characters, which need no escape, are read unchanged as a string.
fn is_read(alloc: Global, characters: &str) -> Result<bool, Fail> {
    let text = format!(in alloc; "\"{characters}\"")?;
    Ok(is_at(alloc, text.as_bytes(), "-", "text", characters))
}

#[test]
fn characters_and_escapes_are_read(rt: HostRuntime) -> Result<(), Fail> {
    assert!(rt; is_read(rt.alloc(), CHARACTERS)?);
    for &(bytes, text) in &ESCAPES {
        assert!(rt; is_at(rt.alloc(), bytes, "-", "text", text), "{bytes:?}");
    }
    Ok(())
}

fn times(alloc: Global, count: usize, bytes: &[u8]) -> Result<Vec<u8>, Fail> {
    let mut all = Vec::new(alloc);
    for _ in 0..count {
        all.extend_from_slice(bytes)?;
    }
    Ok(all)
}

#[test]
fn long_texts_are_read(rt: HostRuntime) -> Result<(), Fail> {
    // The text is longer than the initial capacity of any buffer, with a character of two bytes and
    // an escape in the middle.
    let expected = times(rt.alloc(), 1000, "plain text, \u{e9}\n".as_bytes())?;
    let written = times(rt.alloc(), 1000, "plain text, \u{e9}\\n".as_bytes())?;
    let parts = [b"\"", written.as_slice(), b"\""];
    assert!(rt; are_spelled(rt.alloc(), &parts, &[&expected])?);
    Ok(())
}

// At the nesting limit: the first part is repeated `MAX_NESTING` - 1 times, the second is used
// once, and the third is repeated `MAX_NESTING` times.
const DEEP: [(&[u8], &[u8], &[u8]); 2] = [(b"[", b"[", b"]"), (b"{\"a\":", b"{", b"}")];

fn deep(alloc: Global, front: &[u8], inner: &[u8], end: &[u8]) -> Result<Vec<u8>, Fail> {
    let fronts = times(alloc, MAX_NESTING - 1, front)?;
    let ends = times(alloc, MAX_NESTING, end)?;
    Ok([&fronts, inner, &ends].concat(alloc)?)
}

/// Returns whether the text is its own canonical text, and nests to the limit.
fn is_deepest(alloc: Global, text: &[u8]) -> Result<bool, Fail> {
    let json = read_text(alloc, text)?;
    let out = written(alloc, &json)?;
    Ok(out.as_slice() == text && json.depth() == MAX_NESTING as u64)
}

#[test]
fn texts_are_read_as_deep_as_the_limit(rt: HostRuntime) -> Result<(), Fail> {
    for &(front, inner, end) in &DEEP {
        let text = deep(rt.alloc(), front, inner, end)?;
        assert!(rt; is_deepest(rt.alloc(), &text)?);
    }
    Ok(())
}

/// Returns whether a text made of the characters, and a copy of that text, have the same
/// characters.
fn is_kept_as_text(alloc: Global, characters: &str) -> Result<bool, Fail> {
    let text = Text::of(alloc, characters)?;
    let copy = text.copy(alloc)?;
    let is_same = copy == text && text.as_str() == characters;
    Ok(is_same && copy.into_string(alloc)?.as_str() == characters)
}

/// Like `is_kept_as_text`, for the text of a `String`.
fn is_kept_as_string(alloc: Global, characters: &str) -> Result<bool, Fail> {
    let text = Text::new(String::from_str(alloc, characters)?);
    let is_same = text == Text::of(alloc, characters)?;
    Ok(is_same && text.into_string(alloc)?.as_str() == characters)
}

#[test]
fn texts_of_any_length_are_stored(rt: HostRuntime) -> Result<(), Fail> {
    for &characters in &[
        "",
        "*",
        "a\u{e9}",
        "123456789 123456",
        "123456789 1234567",
        "123456789 12345\u{e9}",
    ] {
        assert!(rt; is_kept_as_text(rt.alloc(), characters)?, "{characters}");
        assert!(rt; is_kept_as_string(rt.alloc(), characters)?, "{characters}");
    }
    Ok(())
}
