//! Tests of bytes read from JSON strings and written back, with the test vectors of RFC 4648
//! section 10.

ghost use Rattle.std.specs.Prelude.{◌<◌, ◌≤◌};

use crate::support::{again, expect_fault, expect_faults, expect_text, part_fault_of, value_of};
use mes_json::read_tape;
use mes_model_schema::{Bytes, Part, PartFault, PathBuilder};
use std::alloc::Global;
use std::process::Abort;
use std::test::Fail;

/// Lists of bytes, each with the JSON text that the bytes are written as.
const VECTORS: [(&[u8], &str); 9] = [
    (b"", "\"\""),
    (b"f", "\"Zg==\""),
    (b"fo", "\"Zm8=\""),
    (b"foo", "\"Zm9v\""),
    (b"foob", "\"Zm9vYg==\""),
    (b"fooba", "\"Zm9vYmE=\""),
    (b"foobar", "\"Zm9vYmFy\""),
    (
        &[0, 1, 2, 3, 4, 5, 6, 7, 8, 9, 10, 11, 12, 13, 14, 15],
        "\"AAECAwQFBgcICQoLDA0ODw==\"",
    ),
    (&[0xFB, 0xFF], "\"+/8=\""),
];

/// Invalid JSON texts with their faults: no padding, too much or too little padding, unused bits
/// that are not zero, the URL-safe alphabet, white space, bytes after the padding, or another JSON
/// type.
const REFUSED: &str = r#""Zg" => . BadBase64
"Zg=" => . BadBase64
"Zg===" => . BadBase64
"=" => . BadBase64
"Z" => . BadBase64
"Zh==" => . BadBase64
"Zm9=" => . BadBase64
"-_8=" => . BadBase64
" Zg==" => . BadBase64
"Zg==\n" => . BadBase64
"Zg==Zm9v" => . BadBase64
"Z\u00e9==" => . BadBase64
1 => . WrongKind
null => . WrongKind
[90] => . WrongKind
{} => . WrongKind
"#;

/// The base64 letters in the order of their values (RFC 4648, table 1).
const LETTERS: &[u8; 64] = b"ABCDEFGHIJKLMNOPQRSTUVWXYZabcdefghijklmnopqrstuvwxyz0123456789+/";

/// The bytes that `LETTERS` encodes: three bytes for each four letters.
const OCTETS: &[u8; 48] =
    b"\x00\x10\x83\x10\x51\x87\x20\x92\x8B\x30\xD3\x8F\x41\x14\x93\x51\x55\x97\x61\x96\x9B\x71\xD7\x9F\x82\x18\xA3\x92\x59\xA7\xA2\x9A\xAB\xB2\xDB\xAF\xC3\x1C\xB3\xD3\x5D\xB7\xE3\x9E\xBB\xF3\xDF\xBF";

/// Ends of a text after its groups of four letters, each with the bytes that the end encodes.
const LAST: [(&[u8], &[u8]); 3] = [(b"", b""), (b"/w==", b"\xFF"), (b"//8=", b"\xFF\xFF")];

/// Characters that are no letters: those next to the ranges of letters, and those of the URL-safe
/// alphabet.
const NO_LETTERS: &[u8; 12] = b" *,-.:@[_`{~";

/// Reads a JSON string of these letters followed by this end.
fn read_letters(
    alloc: Global,
    letters: &[u8],
    last: &[u8],
) -> Result<Result<Bytes, PartFault>, Fail> {
    let mut text = Vec::new(alloc);
    text.push(b'"')?;
    text.extend_from_slice(letters)?;
    text.extend_from_slice(last)?;
    text.push(b'"')?;
    let tape = read_tape(alloc, text.as_slice())?;
    Ok(Bytes::read_from(alloc, &tape.root(), &PathBuilder::new()))
}

fn bytes_of(answer: Result<Bytes, PartFault>) -> Result<Bytes, Fail> {
    match answer {
        Ok(bytes) => Ok(bytes),
        Err(_) => Err("they are bytes")?,
    }
}

/// Checks that a text with this number of groups of letters is read, with each of the ends.
fn expect_groups<R: Abort>(rt: &R, alloc: Global, groups: usize) -> Result<(), Fail>
    requires { groups ≤ 16 }
{
    for &(last, octets) in &LAST {
        let expected = [&OCTETS[..3 * groups], octets].concat(alloc)?;
        let bytes = bytes_of(read_letters(alloc, &LETTERS[..4 * groups], last)?)?;
        assert_eq!(rt; bytes.as_slice(), expected.as_slice());
    }
    Ok(())
}

/// Checks that each character that is no letter makes a text invalid, if it is at this index.
fn expect_refused<R: Abort>(rt: &R, alloc: Global, place: usize) -> Result<(), Fail>
    requires { place < 64 }
{
    for bad in *NO_LETTERS {
        let mut letters = *LETTERS;
        letters[place] = bad;
        let answer = read_letters(alloc, &letters, b"")?;
        expect_fault(rt, "a character", part_fault_of(answer), ". BadBase64")?;
    }
    Ok(())
}

/// Like [`expect_refused`], but with a character that has two bytes in UTF-8.
fn expect_wide_refused<R: Abort>(rt: &R, alloc: Global, place: usize) -> Result<(), Fail>
    requires { place < 63 }
{
    let mut letters = *LETTERS;
    letters[place..place + 2].copy_from_slice("é".as_bytes());
    let answer = read_letters(alloc, &letters, b"")?;
    expect_fault(rt, "two bytes", part_fault_of(answer), ". BadBase64")
}

fn expect_bytes<R: Abort>(
    rt: &R,
    alloc: Global,
    bytes: &Bytes,
    octets: &[u8],
    text: &str,
) -> Result<(), Fail> {
    assert_eq!(rt; bytes.as_slice(), octets);
    assert_eq!(rt;
        (bytes.len(), bytes.is_empty()),
        (octets.len(), octets.is_empty())
    );
    expect_text(rt, alloc, &bytes.tree(alloc)?, text)
}

/// Checks the bytes that are read from a text, their copy, and the bytes written and read again.
fn expect_read<R: Abort>(rt: &R, alloc: Global, octets: &[u8], text: &str) -> Result<(), Fail> {
    let bytes: Bytes = value_of(alloc, text)?;
    expect_bytes(rt, alloc, &bytes, octets, text)?;
    expect_bytes(rt, alloc, &bytes.copy(alloc)?, octets, text)?;
    expect_bytes(rt, alloc, &again(alloc, &bytes)?, octets, text)
}

#[test]
fn bytes_are_read_and_written(rt: HostRuntime) -> Result<(), Fail> {
    for &(octets, text) in &VECTORS {
        expect_read(&rt, rt.alloc(), octets, text)?;
        let made = Bytes::new(Vec::from_slice(rt.alloc(), octets)?);
        expect_bytes(&rt, rt.alloc(), &made, octets, text)?;
    }
    Ok(())
}

#[test]
fn other_texts_are_refused(rt: HostRuntime) -> Result<(), Fail> {
    expect_faults::<Bytes, HostRuntime>(&rt, REFUSED)
}

#[test]
fn bytes_of_each_length_are_read(rt: HostRuntime) -> Result<(), Fail> {
    for groups in 0..17 {
        expect_groups(&rt, rt.alloc(), groups)?;
    }
    Ok(())
}

#[test]
fn other_characters_are_refused(rt: HostRuntime) -> Result<(), Fail> {
    for place in 0..64 {
        expect_refused(&rt, rt.alloc(), place)?;
    }
    for place in 0..63 {
        expect_wide_refused(&rt, rt.alloc(), place)?;
    }
    Ok(())
}
