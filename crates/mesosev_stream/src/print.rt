//! Prints texts and lines. Functions that know the status return a [`RunOutcome`], the others a
//! `Result`.

ghost use Rattle.std.specs.Prelude.{◌≡◌, ◌≤◌, [], ◌∷◌, ◌++◌, length};
ghost use Rattle.mes_stream.specs.Lines.{fault_text, counts_text};
ghost use Rattle.mes_stream.specs.SendLines.{send_text, unsent_text};
ghost use Rattle.mesosev_stream.specs.LineNumbers.{stop_text};
ghost use Rattle.mesosev_stream.specs.Printing.{LacksMemory, Prints, PrintsText, outcome_line, outcome_status};

use crate::exit_status::ExitStatus;
use crate::limits::MAX_LINE;
use crate::line_number::push_place;
use crate::outcome::RunOutcome;
use arrayvec::ArrayString;
use mes_frame::{Sink, WriteFault, write_all};
use mes_stream::{
    Fault, MAX_FAULT_LINE, Report, SendFault, Stop, counts_line, fault_line, unsent_line,
};

/// Prints bytes.
///
/// Errors: the output failed, or wrote 0 bytes, before the last of the bytes.
pub fn print_bytes<O: Sink>(out: &mut O, bytes: &[u8]) -> Result<(), WriteFault>
    // On success: all bytes were written. On an error: exactly the bytes before the failure.
    ensures { PrintsText (O.device out.old)
        (O.device out.new) bytes.now result }
{
    write_all(out, bytes)
}

/// Prints a text.
///
/// Errors: like [`print_bytes`].
pub fn print_text<O: Sink>(out: &mut O, text: &str) -> Result<(), WriteFault>
    // On success: the text was written. On an error: exactly the bytes before the failure.
    ensures { PrintsText (O.device out.old)
        (O.device out.new) text.now result }
{
    print_bytes(out, text.as_bytes())
}

/// Prints a line and LF. Does not allocate.
///
/// Errors: like [`print_bytes`].
pub fn print_line<O: Sink>(out: &mut O, line: &str) -> Result<(), WriteFault>
    requires { length line.now ≤ MAX_FAULT_LINE }
    // On success: the line and LF were written. On an error: exactly the bytes before the failure.
    ensures { PrintsText (O.device out.old)
        (O.device out.new) (line.now ++ 10 ∷ []) result }
{
    let mut text = ArrayString::<MAX_LINE>::new();
    text.push_str(line);
    text.push_str("\n");
    print_text(out, text.as_str())
}

/// Prints the line with the numbers of messages and bytes; `word` is the printed name of a message.
pub(crate) fn print_count<O: Sink>(
    out: &mut O,
    word: &str,
    messages: u64,
    used: u64,
) -> Result<(), WriteFault>
    requires { length word.now ≤ 5 }
    ensures { PrintsText (O.device out.old)
        (O.device out.new)
        (counts_text word.now messages used ++ 10 ∷ []) result }
{
    let mut line = ArrayString::new();
    counts_line(word, messages, used, &mut line);
    print_line(out, line.as_str())
}

/// Prints the line of an error after `used` bytes.
///
/// Errors: like [`print_bytes`].
pub fn print_fault<O: Sink>(out: &mut O, fault: &Fault, used: u64) -> Result<(), WriteFault>
    // On success: the line and LF were written. On an error: exactly the bytes before the failure.
    ensures { PrintsText (O.device out.old)
        (O.device out.new)
        (fault_text fault.now used ++ 10 ∷ []) result }
{
    let mut line = ArrayString::new();
    fault_line(fault, used, &mut line);
    print_line(out, line.as_str())
}

/// Prints the line of an error. If it is in a record, and `line`, the number of its line of JSON
/// Lines, is not the number of the record, prints that number too.
pub(crate) fn print_stop<O: Sink>(
    out: &mut O,
    line: Option<u64>,
    stop: &Stop,
) -> Result<(), WriteFault>
    ensures { PrintsText (O.device out.old) (O.device out.new) (stop_text line stop.now ++ 10 ∷ [])
        result }
{
    let mut fault = ArrayString::<MAX_FAULT_LINE>::new();
    fault_line(&stop.fault, stop.used, &mut fault);
    let mut text = ArrayString::<MAX_LINE>::new();
    text.push_str(fault.as_str());
    push_place(&mut text, line, &stop.fault);
    text.push_str("\n");
    print_text(out, text.as_str())
}

/// Prints the line of a failed send.
///
/// Errors: like [`print_bytes`].
pub fn print_send_fault<O: Sink>(out: &mut O, fault: &SendFault) -> Result<(), WriteFault>
    // On success: the line and LF were written. On an error: exactly the bytes before the failure.
    ensures { PrintsText (O.device out.old)
        (O.device out.new)
        (send_text fault.now ++ 10 ∷ []) result }
{
    print_unsent(out, "event", fault)
}

/// Like [`print_send_fault`], for messages whose printed name is `word`.
pub(crate) fn print_unsent<O: Sink>(
    out: &mut O,
    word: &str,
    fault: &SendFault,
) -> Result<(), WriteFault>
    requires { length word.now ≤ 5 }
    ensures { PrintsText (O.device out.old)
        (O.device out.new)
        (unsent_text word.now fault.now ++ 10 ∷ []) result }
{
    let mut line = ArrayString::new();
    unsent_line(word, fault, &mut line);
    print_line(out, line.as_str())
}

/// Prints the result of reading a stream with this number of messages, whose printed name is `word`.
/// `line` is the number of the line of JSON Lines in which the reading ended. The status is
/// `Success` if the stream was read to its end, and `Fault` otherwise.
pub(crate) fn report_outcome<O: Sink>(
    out: &mut O,
    word: &str,
    line: Option<u64>,
    messages: u64,
    outcome: &Result<Report, Stop>,
) -> RunOutcome
    requires { length word.now ≤ 5 }
    // The line printed, and the outcome.
    ensures { Prints (O.device out.old) (O.device out.new)
        (outcome_line word.now line messages outcome.now ++ 10 ∷ []) (outcome_status outcome.now)
        result }
{
    match outcome {
        Ok(report) => ExitStatus::Success.after(print_count(out, word, messages, report.used)),
        Err(stop) => ExitStatus::Fault.after(print_stop(out, line, stop)),
    }
}

/// Prints F13 after 0 bytes: an allocation failed. The status is `Fault`.
pub fn out_of_memory<O: Sink>(out: &mut O) -> RunOutcome
    // The line printed, and the outcome.
    ensures { LacksMemory (O.device out.old)
        (O.device out.new) result }
{
    ExitStatus::Fault.after(print_fault(out, &Fault::NoMemory, 0))
}
