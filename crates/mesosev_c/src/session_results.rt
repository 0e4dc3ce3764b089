//! Results of a session in C: a status, and a text or a line in the caller's buffer.

ghost use Rattle.std.specs.Prelude.{◌≡◌, ◌≤◌};
ghost use Rattle.mesosev_c.specs.SessionResults.{PutsAnswer, PutsRefusal, PutsStop, PutsText, number_of_refusal};
ghost use Rattle.mesosev_c.specs.Numbers.{number_of_fault};
ghost use Rattle.mes_stream.specs.Lines.{fault_text};
ghost use Rattle.mes_session.specs.Printed.{refusal_text};

use crate::caller_buffer::put_text;
use crate::statuses::{ABSENT, NO_ROOM, NO_TEXT, SUCCESS, fault_number};
use arrayvec::ArrayString;
use mes_session::{MAX_REFUSAL_LINE, Refusal, refusal_line};
use mes_stream::{Fault, MAX_FAULT_LINE, fault_line};
use mesosev_session::{TextRefusal, TextStop};

/// Reports the text, or the reason for which there is none. `entries` is the number of entries
/// before a refused one, and `used` the offset of an error.
pub(crate) fn put_answer(
    answer: Result<Vec<u8>, TextRefusal>,
    entries: u64,
    used: u64,
    size: &mut u64,
    room: &mut [u8],
) -> u32
    ensures { PutsAnswer answer entries used size.new room.old room.new result }
{
    match answer {
        Ok(text) => {
            put_text(text.as_slice(), room);
            *size = text.len() as u64;
            SUCCESS
        }
        Err(refusal) => put_refusal(&refusal, entries, used, size, room),
    }
}

/// Reports the reason for which a text was not applied, as [`put_answer`] does.
pub(crate) fn put_refusal(
    refusal: &TextRefusal,
    entries: u64,
    used: u64,
    size: &mut u64,
    room: &mut [u8],
) -> u32
    ensures { PutsRefusal refusal.now entries used size.new room.old room.new result }
{
    match refusal {
        TextRefusal::Fault(fault) => put_fault(fault, used, size, room),
        TextRefusal::Refused(refusal) => put_refused(refusal, entries, size, room),
        TextRefusal::Unfit => {
            *size = 0;
            NO_TEXT
        }
        TextRefusal::NoRoom { size: needed } => {
            *size = *needed as u64;
            NO_ROOM
        }
        TextRefusal::Absent => {
            *size = 0;
            ABSENT
        }
    }
}

/// Reports the reason for which a log leads to no session.
pub(crate) fn put_stop(stop: &TextStop, size: &mut u64, room: &mut [u8]) -> u32
    ensures { PutsStop stop.now size.new room.old room.new result }
{
    match stop {
        TextStop::Fault(stop) => put_fault(&stop.fault, stop.used, size, room),
        TextStop::Refused { before, refusal } => put_refused(refusal, *before, size, room),
    }
}

/// Reports an error: its number, and its line with the offset `used`.
pub(crate) fn put_fault(fault: &Fault, used: u64, size: &mut u64, room: &mut [u8]) -> u32
    ensures status { result ≡ number_of_fault fault.now }
    ensures line { PutsText (fault_text fault.now used) size.new room.old room.new }
{
    let mut line = ArrayString::<MAX_FAULT_LINE>::new();
    fault_line(fault, used, &mut line);
    put_text(line.as_str().as_bytes(), room);
    *size = line.len() as u64;
    fault_number(fault)
}

/// Reports a refusal: its number, and its line after `entries` accepted entries.
pub(crate) fn put_refused(refusal: &Refusal, entries: u64, size: &mut u64, room: &mut [u8]) -> u32
    ensures status { result ≡ number_of_refusal refusal.now }
    ensures line { PutsText (refusal_text refusal.now entries) size.new room.old room.new }
{
    let mut line = ArrayString::<MAX_REFUSAL_LINE>::new();
    refusal_line(refusal, entries, &mut line);
    put_text(line.as_str().as_bytes(), room);
    *size = line.len() as u64;
    refusal_number(refusal)
}

/// Returns the number of a refusal, 201 to 208: 200 and the one in its name, S1 to S8.
pub fn refusal_number(refusal: &Refusal) -> u32
    ensures number { result ≡ number_of_refusal refusal.now }
    ensures least { 201 ≤ result }
    ensures most { result ≤ 208 }
{
    match refusal {
        Refusal::NotSubscribed => 201,
        Refusal::NamedTwice => 202,
        Refusal::NoSuchOffer { .. } => 203,
        Refusal::TwoAgents => 204,
        Refusal::WrongAgent { .. } => 205,
        Refusal::Exceeds { .. } => 206,
        Refusal::NotOwed => 207,
        Refusal::NoMemory => 208,
    }
}
