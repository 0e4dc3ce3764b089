//! Writes JSON strings.
ghost use Rattle.std.specs.Prelude.{◌≡◌, ◌<◌, [], ◌∷◌, ◌++◌, ◌==◌, ◌||◌, length, nat_lt, IsTrue, IfSome, IfNone, IfOk, IfErr};
ghost use Rattle.std.specs.Str.{IsUtf8};
ghost use Rattle.mes_json.specs.Canonical.{hex_digit, by_digits, escaped, escaped_text, quoted_text};
ghost use Rattle.mes_json.specs.Writable.{Extends};

use crate::memory::NoMemory;
use crate::text::Text;
use crate::unescaped::kept_run;

/// Appends `text` as a JSON string with only the necessary escapes, each in its shortest form.
/// Changes nothing if an allocation fails.
pub fn write_str(text: &str, out: &mut Vec<u8>) -> Result<(), NoMemory>
    ensures written { IfOk result (λ _. out.new.items ≡ out.old.items ++ quoted_text text.now) }
    ensures unchanged { IfErr result (λ _. out.new.items ≡ out.old.items) }
{
    let before = out.len();
    match write_between_marks(text.as_bytes(), out) {
        Ok(()) => Ok(()),
        Err(refused) => {
            out.truncate(before);
            Err(refused)
        }
    }
}

/// Appends `text` as a JSON string, or a prefix of the string if an allocation fails.
pub(crate) fn write_quoted(text: &Text, out: &mut Vec<u8>) -> Result<(), NoMemory>
    ensures written { IfOk result (λ _. out.new.items ≡ out.old.items ++ quoted_text text.now) }
    ensures utf8 { IfOk result (λ _. IsUtf8 text.now) }
    ensures front { Extends out.old.items out.new.items }
{
    write_between_marks(text.as_str().as_bytes(), out)
}

/// Appends the bytes of a text as a JSON string, or a prefix of the string if an allocation fails.
fn write_between_marks(bytes: &[u8], out: &mut Vec<u8>) -> Result<(), NoMemory>
    ensures written { IfOk result (λ _. out.new.items ≡ out.old.items ++ quoted_text bytes.now) }
    ensures front { Extends out.old.items out.new.items }
{
    append(b"\"", out)?;
    write_escaped(bytes, out)?;
    append(b"\"", out)
}

/// Appends the bytes of a text, with escapes. Bytes that need no escape are appended in runs.
fn write_escaped(bytes: &[u8], out: &mut Vec<u8>) -> Result<(), NoMemory>
    ensures written { IfOk result (λ _. out.new.items ≡ out.old.items ++ escaped_text bytes.now) }
    ensures front { Extends out.old.items out.new.items }
{
    let mut place = kept_run(bytes);
    append(&bytes[..place], out)?;
    while place < bytes.len() {
        write_escape(bytes[place], out)?;
        let next = place + 1;
        let run = kept_run(&bytes[next..]);
        append(&bytes[next..next + run], out)?;
        place = next + run;
    }
    Ok(())
}

/// Returns whether `byte` needs an escape in a string (RFC 8259 section 7).
pub(crate) fn is_escaped(byte: u8) -> bool
    ensures { result ≡ (nat_lt byte 0x20 || byte == 0x22 || byte == 0x5C) }
{
    byte < 0x20 || byte == b'"' || byte == b'\\'
}

fn write_escape(byte: u8, out: &mut Vec<u8>) -> Result<(), NoMemory>
    requires { IsTrue (nat_lt byte 0x20 || byte == 0x22 || byte == 0x5C) }
    ensures written { IfOk result (λ _. out.new.items ≡ out.old.items ++ escaped byte) }
    ensures front { Extends out.old.items out.new.items }
{
    match short_form(byte) {
        Some(letter) => append(&[b'\\', letter], out),
        None => append(
            &[
                b'\\',
                b'u',
                b'0',
                b'0',
                hex_digit(byte / 16),
                hex_digit(byte % 16),
            ],
            out,
        ),
    }
}

/// Returns the letter after the backslash in the short escape of a byte, if there is one.
fn short_form(byte: u8) -> Option<u8>
    requires { IsTrue (nat_lt byte 0x20 || byte == 0x22 || byte == 0x5C) }
    ensures some { IfSome result (λ letter. escaped byte ≡ 92 ∷ letter ∷ []) }
    ensures none { IfNone result (escaped byte ≡ by_digits byte) }
{
    match byte {
        b'"' | b'\\' => Some(byte),
        0x08 => Some(b'b'),
        0x0C => Some(b'f'),
        b'\n' => Some(b'n'),
        b'\r' => Some(b'r'),
        b'\t' => Some(b't'),
        _ => None,
    }
}

/// Returns the number of bytes that represent `byte` in a string.
pub(crate) fn escaped_length(byte: u8) -> usize
    ensures { result ≡ length (escaped byte) }
{
    if !is_escaped(byte) {
        return 1;
    }
    match short_form(byte) {
        Some(_) => b"\\n".len(),
        None => b"\\u0000".len(),
    }
}

/// Returns the lower-case hexadecimal digit of a value below 16.
pub fn hex_digit(value: u8) -> u8
    requires { value < 16 }
    ensures { result ≡ hex_digit value }
{
    if value < 10 {
        b'0' + value
    } else {
        b'a' - 10 + value
    }
}

pub(crate) fn append(bytes: &[u8], out: &mut Vec<u8>) -> Result<(), NoMemory>
    ensures written { IfOk result (λ _. out.new.items ≡ out.old.items ++ bytes.now) }
    ensures front { Extends out.old.items out.new.items }
{
    out.extend_from_slice(bytes)?;
    Ok(())
}
