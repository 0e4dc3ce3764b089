//! The printed line of a refusal, without its LF. Nothing here allocates.
ghost use Rattle.std.specs.Prelude.{◌≡◌, ◌+◌, ◌≤◌, ◌++◌, length, decimal};
ghost use Rattle.arrayvec.specs.ArrayString.{array_string_len};
ghost use Rattle.mes_msg.specs.ShowLines.{spaced};
ghost use Rattle.mes_session.specs.Printed.{refusal_title, refusal_place, refusal_text};

use arrayvec::ArrayString;
use itoa::Buffer;
use mes_session_state::Refusal;

/// The capacity of a refusal's line in bytes: three numbers of 20 digits each, and the words of the
/// line.
pub const MAX_REFUSAL_LINE: usize = 160;

/// Replaces `line` with the line of a refusal after `before` accepted entries. The line contains
/// the number of the refused entry, from 1 to at most 2^64 - 1.
pub fn refusal_line(refusal: &Refusal, before: u64, line: &mut ArrayString<MAX_REFUSAL_LINE>)
    ensures { line.new.bytes ≡ refusal_text refusal.now before }
{
    line.clear();
    line.push_str("refused ");
    line.push_str(title(refusal));
    push_number(line, " record ", before.saturating_add(1));
    push_place(line, refusal);
}

/// Returns the number and the name of a refusal as they are printed.
fn title(refusal: &Refusal) -> &'static str
    ensures text { result.now ≡ refusal_title refusal.now }
    ensures bound { length result.now ≤ 16 }
{
    match refusal {
        Refusal::NotSubscribed => "S1 NotSubscribed",
        Refusal::NamedTwice => "S2 NamedTwice",
        Refusal::NoSuchOffer { .. } => "S3 NoSuchOffer",
        Refusal::TwoAgents => "S4 TwoAgents",
        Refusal::WrongAgent { .. } => "S5 WrongAgent",
        Refusal::Exceeds { .. } => "S6 Exceeds",
        Refusal::NotOwed => "S7 NotOwed",
        Refusal::NoMemory => "S8 NoMemory",
    }
}

/// Appends the indices in the call to which the refusal refers, if it has indices.
fn push_place(line: &mut ArrayString<MAX_REFUSAL_LINE>, refusal: &Refusal)
    requires { array_string_len line.old + 56 ≤ MAX_REFUSAL_LINE }
    ensures { line.new.bytes ≡ line.old.bytes ++ spaced (refusal_place refusal.now) }
{
    match refusal {
        Refusal::NoSuchOffer { index } => push_number(line, " index ", *index as u64),
        Refusal::WrongAgent { task } => push_number(line, " task ", *task as u64),
        Refusal::Exceeds { task, resource } => {
            push_number(line, " task ", *task as u64);
            push_number(line, " resource ", *resource as u64);
        }
        _ => {}
    }
}

/// Appends a word, with a space before and after it, and a number in decimal.
fn push_number(line: &mut ArrayString<MAX_REFUSAL_LINE>, word: &str, number: u64)
    requires { array_string_len line.old + length word.now + 20 ≤ MAX_REFUSAL_LINE }
    ensures text { line.new.bytes ≡ line.old.bytes ++ (word.now ++ decimal number) }
    ensures bound { array_string_len line.new ≤ array_string_len line.old + length word.now + 20 }
{
    line.push_str(word);
    line.push_str(Buffer::new().format(number));
}
