//! Values copied, measured, compared and written, by the grammar of RFC 8259.

use mes_json::{Json, MAX_NESTING, NumText, Text, read_text, text_length, write_str, write_text};
use std::alloc::Global;
use std::test::Fail;

pub(crate) fn written(alloc: Global, json: &Json) -> Result<Vec<u8>, Fail> {
    let mut out = Vec::new(alloc);
    write_text(json, &mut out)?;
    Ok(out)
}

/// Returns whether the digits are a number that keeps its text.
fn is_number(alloc: Global, digits: &str) -> Result<bool, Fail> {
    match &NumText::new(String::from_str(alloc, digits)?) {
        Ok(number) => Ok(number.as_str() == digits),
        Err(_) => Ok(false),
    }
}

/// Returns whether the digits are refused as a number, and the text is returned.
fn is_given_back(alloc: Global, digits: &str) -> Result<bool, Fail> {
    match &NumText::new(String::from_str(alloc, digits)?) {
        Ok(_) => Ok(false),
        Err(text) => Ok(text.as_str() == digits),
    }
}

#[test]
fn a_number_text_has_the_form_of_a_number(rt: HostRuntime) -> Result<(), Fail> {
    for &digits in &["0", "-0", "12", "0.50", "1E9", "-1.25e-07", "1e+400"] {
        assert!(rt; is_number(rt.alloc(), digits)?, "{digits}");
    }
    for &digits in &["", "-", "+1", "01", "1.", ".5", "1e", "0x1", "1 ", "NaN"] {
        assert!(rt; is_given_back(rt.alloc(), digits)?, "{digits}");
    }
    Ok(())
}

fn number(alloc: Global, digits: &str) -> Result<NumText, Fail> {
    let number = NumText::new(String::from_str(alloc, digits)?).ok();
    Ok(number.ok_or("a number")?)
}

/// Returns whether a copy of the number equals the number, and has the text `digits`.
fn is_copied(alloc: Global, number: &NumText, digits: &str) -> Result<bool, Fail> {
    let copy = number.copy(alloc)?;
    Ok(copy == *number && copy.as_str() == digits)
}

#[test]
fn a_number_is_copied(rt: HostRuntime) -> Result<(), Fail> {
    let number = number(rt.alloc(), "-0.50")?;
    assert!(rt; is_copied(rt.alloc(), &number, "-0.50")?);
    Ok(())
}

// Canonical texts of different values, and the nesting depths of the values.
const VALUES: [(&str, u64); 24] = [
    ("null", 0),
    ("false", 0),
    ("true", 0),
    ("1", 0),
    ("-1.50E+2", 0),
    ("\"1\"", 0),
    ("\"\"", 0),
    ("\"[[]]\"", 0),
    ("[]", 1),
    ("{}", 1),
    ("[null]", 1),
    ("[null,null]", 1),
    ("[null,true]", 1),
    ("[true,null]", 1),
    ("[[[[]]],[[]]]", 4),
    ("{\"a\":null}", 1),
    ("{\"a\":[[]]}", 3),
    ("{\"a\":null,\"a\":null}", 1),
    ("{\"a\":null,\"b\":null}", 1),
    ("{\"b\":null,\"a\":null}", 1),
    // The next values differ in one place each.
    (r#"{"list":[null,true,1,"a\n"],"b":[false],"b":{}}"#, 2),
    (r#"{"list":[null,true,1.0,"a\n"],"b":[false],"b":{}}"#, 2),
    (r#"{"list":[null,true,1,"a\n"],"B":[false],"b":{}}"#, 2),
    (r#"{"list":[null,true,1,"a\n"],"b":[true],"b":{}}"#, 2),
];

/// Returns whether `text_length` returns `length` at the limit `length` and at the highest limit,
/// and `None` at every limit below `length`.
fn is_long(json: &Json, length: usize) -> bool {
    for most in 0..length {
        if text_length(json, most).is_some() {
            return false;
        }
    }
    text_length(json, length) == Some(length) && text_length(json, usize::MAX) == Some(length)
}

/// Returns whether the canonical text is `expected`, and `text_length` returns the length of that
/// text.
fn is_written(alloc: Global, json: &Json, expected: &[u8]) -> Result<bool, Fail> {
    let out = written(alloc, json)?;
    Ok(out.as_slice() == expected && is_long(json, expected.len()))
}

/// Returns whether the value nests to `depth`, and `text` is the value's canonical text, whose
/// length `text_length` returns.
fn is_deep(alloc: Global, text: &str, depth: u64) -> Result<bool, Fail> {
    let json = read_text(alloc, text.as_bytes())?;
    Ok(json.depth() == depth && is_written(alloc, &json, text.as_bytes())?)
}

#[test]
fn each_kind_of_value_is_written_and_its_depth_measured(rt: HostRuntime) -> Result<(), Fail> {
    for &(text, depth) in &VALUES {
        assert!(rt; is_deep(rt.alloc(), text, depth)?, "{text}");
    }
    Ok(())
}

/// Returns a copy of the value, if it is equal.
fn copy_of(alloc: Global, json: &Json) -> Result<Json, Fail> {
    let copy = json.copy(alloc)?;
    if json.same(&copy) {
        Ok(copy)
    } else {
        Err("a copy that is the same")?
    }
}

/// Returns a copy of the value of the bytes, and drops the value.
fn copied(alloc: Global, bytes: &[u8]) -> Result<Json, Fail> {
    let json = read_text(alloc, bytes)?;
    let copy = copy_of(alloc, &json);
    drop(json);
    copy
}

/// Returns whether a copy of the value of the bytes nests to `depth` and has the same canonical
/// text.
fn has_copy(alloc: Global, bytes: &[u8], depth: u64) -> Result<bool, Fail> {
    let copy = copied(alloc, bytes)?;
    let deep = copy.depth() == depth;
    let same = is_written(alloc, &copy, bytes);
    drop(copy);
    Ok(same? && deep)
}

#[test]
fn each_kind_of_value_is_copied(rt: HostRuntime) -> Result<(), Fail> {
    for &(text, depth) in &VALUES {
        assert!(rt; has_copy(rt.alloc(), text.as_bytes(), depth)?, "{text}");
    }
    Ok(())
}

#[test]
fn a_value_is_the_same_as_itself_alone(rt: HostRuntime) -> Result<(), Fail> {
    for (i, (one, _)) in VALUES.iter().enumerate() {
        for (k, (other, _)) in VALUES.iter().enumerate() {
            let same = is_same(rt.alloc(), one.as_bytes(), other.as_bytes())?;
            assert_eq!(rt; same, i == k, "{one} and {other}");
        }
    }
    Ok(())
}

/// Appends the canonical texts of a value, of `null` and of a string.
fn write_after(json: &Json, out: &mut Vec<u8>) -> Result<(), Fail> {
    write_text(json, out)?;
    write_text(&Json::Null, out)?;
    write_str("a\n\"", out)?;
    Ok(())
}

/// Appends the canonical texts of the value of the bytes, of `null` and of a string.
fn write_read(alloc: Global, bytes: &[u8], out: &mut Vec<u8>) -> Result<(), Fail> {
    let json = read_text(alloc, bytes)?;
    let answer = write_after(&json, out);
    drop(json);
    answer
}

#[test]
fn a_value_is_appended_to_what_is_there(rt: HostRuntime) -> Result<(), Fail> {
    let mut out = Vec::from_slice(rt.alloc(), b"x ")?;
    write_read(rt.alloc(), b"[[]]", &mut out)?;
    assert!(rt; out.as_slice() == br#"x [[]]null"a\n\"""#.as_slice());
    Ok(())
}

// Characters, and their text in a string (RFC 8259 section 7).
const ESCAPES: [(&str, &[u8]); 15] = [
    ("\"", b"\"\\\"\""),
    ("\\", b"\"\\\\\""),
    ("/", b"\"/\""),
    ("\u{8}", b"\"\\b\""),
    ("\u{c}", b"\"\\f\""),
    ("\n", b"\"\\n\""),
    ("\r", b"\"\\r\""),
    ("\t", b"\"\\t\""),
    ("\u{0}", b"\"\\u0000\""),
    ("\u{b}", b"\"\\u000b\""),
    ("\u{1f}", b"\"\\u001f\""),
    (" \u{7f}", b"\" \x7f\""),
    ("\u{e9}\u{2028}", b"\"\xc3\xa9\xe2\x80\xa8\""),
    ("\u{1f600}", b"\"\xf0\x9f\x98\x80\""),
    ("one\n\ntwo\"", b"\"one\\n\\ntwo\\\"\""),
];

fn text(alloc: Global, characters: &str) -> Result<Text, Fail> {
    Ok(Text::new(String::from_str(alloc, characters)?))
}

fn single(alloc: Global, member: (Text, Json)) -> Result<Vec<(Text, Json)>, Fail> {
    let mut members = Vec::new(alloc);
    members.push(member)?;
    Ok(members)
}

fn named(alloc: Global, name: &str) -> Result<Json, Fail> {
    let member = (text(alloc, name)?, Json::Null);
    Ok(Json::Map(single(alloc, member)?))
}

fn is_escaped(alloc: Global, characters: &str, expected: &[u8]) -> Result<bool, Fail> {
    let json = Json::Text(text(alloc, characters)?);
    let same = is_written(alloc, &json, expected);
    drop(json);
    same
}

#[test]
fn only_characters_that_need_it_are_escaped(rt: HostRuntime) -> Result<(), Fail> {
    for &(characters, expected) in &ESCAPES {
        assert!(rt;
            is_escaped(rt.alloc(), characters, expected)?,
            "{characters}"
        );
    }
    Ok(())
}

/// Returns whether an object with one member of this name is written as `expected`.
fn is_name_escaped(alloc: Global, name: &str, expected: &[u8]) -> Result<bool, Fail> {
    let json = named(alloc, name)?;
    let same = is_written(alloc, &json, expected);
    drop(json);
    same
}

// A name is a string too.
#[test]
fn names_are_escaped_as_strings_are(rt: HostRuntime) -> Result<(), Fail> {
    for &(characters, expected) in &ESCAPES {
        let expected = [b"{", expected, b":null}"].concat(rt.alloc())?;
        assert!(rt;
            is_name_escaped(rt.alloc(), characters, &expected)?,
            "{characters}"
        );
    }
    Ok(())
}

fn nested(alloc: Global, depth: usize) -> Result<Vec<u8>, Fail> {
    let mut bytes = Vec::new(alloc);
    bytes.resize(depth, b'[')?;
    bytes.resize(depth.saturating_mul(2), b']')?;
    Ok(bytes)
}

/// Returns whether both texts have the same value.
pub(crate) fn is_same(alloc: Global, one: &[u8], other: &[u8]) -> Result<bool, Fail> {
    let one = read_text(alloc, one)?;
    let other = read_text(alloc, other)?;
    Ok(one.same(&other))
}

#[test]
fn a_value_as_deep_as_the_limit_is_copied_compared_and_written(
    rt: HostRuntime,
) -> Result<(), Fail> {
    let bytes = nested(rt.alloc(), MAX_NESTING)?;
    assert!(rt; has_copy(rt.alloc(), &bytes, MAX_NESTING as u64)?);
    let other = nested(rt.alloc(), MAX_NESTING - 1)?;
    assert!(rt; !is_same(rt.alloc(), &bytes, &other)?);
    Ok(())
}
