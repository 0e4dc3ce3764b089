//! Formats an error or the counts of a stream as a line without LF. Nothing here allocates.

ghost use Rattle.std.specs.Prelude.{◌≡◌, ◌+◌, ◌≤◌, [], ◌∷◌, ◌++◌, length, decimal, codes};
ghost use Rattle.arrayvec.specs.ArrayString.{array_string_len};
ghost use Rattle.mes_model_schema.specs.Paths.{path_text};
ghost use Rattle.mes_msg.specs.ShowLines.{spaced};
ghost use Rattle.mes_stream.specs.Lines.{fault_text, count_text, counts_text, details, text_fault_kind_name};

use crate::fault::Fault;
use crate::limits::{MAX_COUNT_LINE, MAX_FAULT_LINE};
use arrayvec::ArrayString;
use itoa::Buffer;
use mes_json::TextFaultKind;
use mes_model_schema::{MAX_PATH_TEXT, Path};

/// Replaces `line` with the line of an error; `used` is the number of bytes used up to the error.
pub fn fault_line(fault: &Fault, used: u64, line: &mut ArrayString<MAX_FAULT_LINE>)
    ensures { line.new.bytes ≡ fault_text fault.now used }
{
    line.clear();
    line.push_str("fault");
    push_word(line, fault.title());
    push_details(line, fault);
    push_word(line, "after");
    push_number(line, used);
}

/// Replaces `line` with the counts of events and bytes, for example `events 2 bytes 57`.
pub fn count_line(events: u64, used: u64, line: &mut ArrayString<MAX_COUNT_LINE>)
    ensures { line.new.bytes ≡ count_text events used }
{
    counts_line("event", events, used, line);
}

/// Like [`count_line`], for messages whose printed name is `word`, for example `calls 2 bytes 57`.
pub fn counts_line(word: &str, messages: u64, used: u64, line: &mut ArrayString<MAX_COUNT_LINE>)
    requires { length word.now ≤ 5 }
    ensures { line.new.bytes ≡ counts_text word.now messages used }
{
    line.clear();
    line.push_str(word);
    line.push_str("s");
    push_number(line, messages);
    push_word(line, "bytes");
    push_number(line, used);
}

/// Appends the number of the record, the place in it and the reason, if the error is in a record:
/// at most 41 bytes and a path.
fn push_details(line: &mut ArrayString<MAX_FAULT_LINE>, fault: &Fault)
    requires { array_string_len line.old + MAX_PATH_TEXT + 41 ≤ MAX_FAULT_LINE }
    ensures text { line.new.bytes ≡ line.old.bytes ++ spaced (details fault.now) }
    ensures bound { array_string_len line.new ≤ array_string_len line.old + MAX_PATH_TEXT + 41 }
{
    match fault {
        Fault::Text {
            at_record,
            byte,
            why,
        } => {
            push_word(line, "record");
            push_number(line, *at_record);
            push_word(line, "byte");
            push_number(line, *byte);
            push_word(line, text_fault_kind(*why));
        }
        Fault::Field {
            at_record,
            path,
            why,
        } => {
            push_word(line, "record");
            push_number(line, *at_record);
            push_path(line, path);
            push_word(line, why.name());
        }
        Fault::BadEntry { at_record } => {
            push_word(line, "record");
            push_number(line, *at_record);
        }
        _ => {}
    }
}

/// Appends a space and the path.
fn push_path(line: &mut ArrayString<MAX_FAULT_LINE>, path: &Path)
    requires { array_string_len line.old + MAX_PATH_TEXT + 1 ≤ MAX_FAULT_LINE }
    ensures text { line.new.bytes ≡ line.old.bytes ++ (codes " " ++ path_text path.now) }
    ensures bound { array_string_len line.new ≤ array_string_len line.old + MAX_PATH_TEXT + 1 }
{
    let mut text = ArrayString::<MAX_PATH_TEXT>::new();
    path.text(&mut text);
    push_word(line, text.as_str());
}

/// Appends a space and the number in decimal.
pub fn push_number<const N: usize>(line: &mut ArrayString<N>, number: u64)
    requires { array_string_len line.old + 21 ≤ N }
    ensures text { line.new.bytes ≡ line.old.bytes ++ (codes " " ++ decimal number) }
    ensures bound { array_string_len line.new ≤ array_string_len line.old + 21 }
{
    let mut buffer = Buffer::new();
    push_word(line, buffer.format(number));
}

/// Appends a space and the word.
pub fn push_word<const N: usize>(line: &mut ArrayString<N>, word: &str)
    requires { array_string_len line.old + 1 + length word.now ≤ N }
    ensures text { line.new.bytes ≡ line.old.bytes ++ (codes " " ++ word.now) }
    ensures bound { array_string_len line.new ≤ array_string_len line.old + 1 + length word.now }
{
    line.push_str(" ");
    line.push_str(word);
}

/// Returns the printed reason for which the JSON text is invalid.
fn text_fault_kind(why: TextFaultKind) -> &'static str
    ensures text { result.now ≡ text_fault_kind_name why }
    ensures bound { length result.now ≤ 5 }
{
    match why {
        TextFaultKind::End => "End",
        TextFaultKind::Depth => "Depth",
        TextFaultKind::Byte => "Byte",
    }
}
