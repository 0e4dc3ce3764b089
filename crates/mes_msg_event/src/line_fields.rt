//! Appends the fields of a printed line of an event (`show.rt`) or of a report, each after a space.

ghost use Rattle.std.specs.Prelude.{◌≡◌, ◌++◌, codes, decimal, IfOk};
ghost use Rattle.std.specs.Fmt.{signed_decimal};
ghost use Rattle.mes_model_schema.specs.Canonical.{quoted_text};
ghost use Rattle.mes_msg_event.specs.ShowLines.{hex_pairs, uuid_text, or_dash, id_text, seconds_text};

use arrayvec::ArrayString;
use itoa::Buffer;
use mes_model_resource::Id;
use mes_model_schema::Bytes;
use mes_model_schema::fixed::Micros;
use mes_model_schema::json::{NoMemory, hex_digit, write_str};
use uuid::Uuid;

/// Appends a space and a word, without quotation marks.
pub fn put_word(word: &str, line: &mut Vec<u8>) -> Result<(), NoMemory>
    ensures { IfOk result (λ _. line.new.items ≡ line.old.items ++ (codes " " ++ word.now)) }
{
    line.extend_from_slice(b" ")?;
    line.extend_from_slice(word.as_bytes())?;
    Ok(())
}

/// Appends a space and a text as canonical JSON, in quotation marks.
pub(crate) fn put_text(text: &str, line: &mut Vec<u8>) -> Result<(), NoMemory>
    ensures { IfOk result (λ _. line.new.items
        ≡ line.old.items ++ (codes " " ++ quoted_text text.now)) }
{
    line.extend_from_slice(b" ")?;
    write_str(text, line)
}

/// Appends a space and an identifier.
pub fn put_id(id: &Id, line: &mut Vec<u8>) -> Result<(), NoMemory>
    ensures { IfOk result (λ _. line.new.items ≡ line.old.items ++ (codes " " ++ id_text id.now)) }
{
    put_text(id.value.as_str(), line)
}

/// Appends a space and an identifier, or `-` if there is none.
pub(crate) fn put_some_id(id: &Option<Id>, line: &mut Vec<u8>) -> Result<(), NoMemory>
    ensures { IfOk result (λ _. line.new.items
        ≡ line.old.items ++ (codes " " ++ or_dash id_text id.now)) }
{
    match id {
        Some(id) => put_id(id, line),
        None => put_word("-", line),
    }
}

/// Appends a space and a whole number.
pub fn put_number(number: u64, line: &mut Vec<u8>) -> Result<(), NoMemory>
    ensures { IfOk result (λ _. line.new.items ≡ line.old.items ++ (codes " " ++ decimal number)) }
{
    put_word(Buffer::new().format(number), line)
}

/// Appends a space and a signed whole number, or `-` if there is none.
pub(crate) fn put_some_signed(number: Option<i32>, line: &mut Vec<u8>) -> Result<(), NoMemory>
    ensures { IfOk result (λ _. line.new.items
        ≡ line.old.items ++ (codes " " ++ or_dash signed_decimal number)) }
{
    match number {
        Some(number) => put_word(Buffer::new().format(number), line),
        None => put_word("-", line),
    }
}

/// Appends a space and a number of seconds, or `-` if there is none.
#[tactic(auto, unfolding(crate::specs::ShowLines::seconds_text))]
pub(crate) fn put_some_seconds(seconds: &Option<Micros>, line: &mut Vec<u8>) -> Result<(), NoMemory>
    ensures { IfOk result (λ _. line.new.items
        ≡ line.old.items ++ (codes " " ++ or_dash seconds_text seconds.now)) }
{
    match seconds {
        Some(seconds) => {
            let mut text = ArrayString::new();
            seconds.write(&mut text);
            put_word(text.as_str(), line)
        }
        None => put_word("-", line),
    }
}

/// Appends a space and a UUID, or `-` if there is none.
pub(crate) fn put_some_uuid(uuid: &Option<Bytes>, line: &mut Vec<u8>) -> Result<(), NoMemory>
    ensures { IfOk result (λ _. line.new.items
        ≡ line.old.items ++ (codes " " ++ or_dash uuid_text uuid.now)) }
{
    match uuid {
        Some(bytes) => put_uuid(bytes.as_slice(), line),
        None => put_word("-", line),
    }
}

/// Appends a space and a UUID. 16 bytes are printed in the hyphenated form, any other number of
/// bytes as `hex:` and two hexadecimal digits for each byte.
pub fn put_uuid(bytes: &[u8], line: &mut Vec<u8>) -> Result<(), NoMemory>
    // On success: a space and the text of the UUID are appended to the line.
    ensures { IfOk result (λ _. line.new.items
        ≡ line.old.items ++ (codes " " ++ uuid_text bytes.now)) }
{
    match Uuid::from_slice(bytes) {
        Ok(uuid) => put_word(
            uuid.hyphenated().encode_lower(&mut Uuid::encode_buffer()),
            line,
        ),
        Err(_) => {
            put_word("hex:", line)?;
            put_hex_pairs(bytes, line)
        }
    }
}

/// Appends two lower-case hexadecimal digits for each byte.
fn put_hex_pairs(bytes: &[u8], line: &mut Vec<u8>) -> Result<(), NoMemory>
    ensures { IfOk result (λ _. line.new.items ≡ line.old.items ++ hex_pairs bytes.now) }
{
    for byte in bytes {
        line.extend_from_slice(&[hex_digit(byte / 16), hex_digit(byte % 16)])?;
    }
    Ok(())
}
