//! Formats the error of a failed send.

ghost use Rattle.std.specs.Prelude.{◌≡◌, ◌≤◌, length};
ghost use Rattle.mes_stream.specs.SendLines.{send_text, unsent_text};

use crate::fault::Fault;
use crate::limits::MAX_FAULT_LINE;
use crate::line::{fault_line, push_number, push_word};
use arrayvec::ArrayString;
use mes_msg::SendFault;

/// Replaces `line` with the error of a send, without LF. The line numbers events from 1, and
/// reports a failed allocation as F13 after 0 bytes. Does not allocate.
pub fn send_line(fault: &SendFault, line: &mut ArrayString<MAX_FAULT_LINE>)
    ensures { line.new.bytes ≡ send_text fault.now }
{
    unsent_line("event", fault, line);
}

/// Like [`send_line`], for messages whose printed name is `word`.
pub fn unsent_line(word: &str, fault: &SendFault, line: &mut ArrayString<MAX_FAULT_LINE>)
    requires { length word.now ≤ 5 }
    ensures { line.new.bytes ≡ unsent_text word.now fault.now }
{
    line.clear();
    match fault {
        SendFault::Encode { index, why } => {
            line.push_str("encode failed ");
            line.push_str(word);
            push_number(line, (*index as u64).saturating_add(1));
            push_word(line, why.name());
        }
        SendFault::NoMemory => fault_line(&Fault::NoMemory, 0, line),
        SendFault::Write(stopped) => {
            line.push_str("write failed after");
            push_number(line, stopped.sent);
        }
    }
}
