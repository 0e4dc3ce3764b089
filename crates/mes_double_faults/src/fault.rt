//! A fault, and its text.
ghost use Rattle.std.specs.Prelude.{◌≡◌, ◌≤◌, ℕ, length, IfSome, IsNone};
ghost use Rattle.mes_double_faults.specs.Texts.{Writes, HasNoNumber, IsPlace, IsText, IsInRange, HasNoFault, fault_text, one_text, pair_text};

use crate::number::{MAX_NUMBER, MAX_SECONDS, number, pair};
use arrayvec::ArrayString;
use itoa::Buffer;
use mes_frame::{MAX_CHUNK, MIN_CHUNK};

/// The capacity for the text of a fault, in bytes: more than the longest text takes.
pub const MAX_FAULT_TEXT: usize = 40;

/// What happens to an event.
#[derive(Clone, Copy, Debug, PartialEq, Eq)]
pub enum EventFault {
    /// It is not sent: `lose:K`.
    Lost,
    /// It is sent twice: `twice:K`.
    Repeated,
    /// The stream breaks after this number of bytes of its record: `cut:K:B`.
    Cut(u32),
    /// It is sent this number of seconds later, and so are the events after it: `late:K:S`.
    Late(u32),
    /// It is sent, and nothing after it; the stream stays open: `mute:K`.
    Muted,
}

/// What happens to a call.
#[derive(Clone, Copy, Debug, PartialEq, Eq)]
pub enum CallFault {
    /// It gets the status 503, and is not carried out: `busy:K`.
    Busy,
    /// It is carried out, and its connection is closed without a response: `unanswered:K`.
    Unanswered,
    /// It is carried out, and answered this number of seconds later: `slow:K:S`.
    Slow(u32),
    /// It gets the status 403, since the framework was removed: `gone:K`.
    Gone,
    /// It is not carried out, and its connection is reset: `reset:K`.
    Reset,
}

/// A fault at one place of a run.
#[derive(Clone, Copy, Debug, PartialEq, Eq)]
pub enum Fault {
    /// What happens to the event of this number, counted from 1.
    Event(u32, EventFault),
    /// What happens to the call of this number, counted from 1.
    Call(u32, CallFault),
    /// Chunks of streams have at most this number of bytes: `chunk:M`.
    Chunk(u32),
}

impl Fault {
    /// Returns the fault of a text such as `lose:3`, or `None` if the text is none of a fault.
    pub fn parse(text: &str) -> Option<Fault>
        ensures some { IfSome result (λ fault. IsText text.now fault × IsInRange fault) }
        ensures none { IsNone result → HasNoFault text.now }
    {
        let (name, numbers) = text.split_once(':')?;
        match name {
            "lose" => event(numbers, EventFault::Lost),
            "twice" => event(numbers, EventFault::Repeated),
            "cut" => {
                let (place, bytes) = pair(numbers, 0, MAX_NUMBER)?;
                Some(Fault::Event(place, EventFault::Cut(bytes)))
            }
            "late" => {
                let (place, seconds) = pair(numbers, 1, MAX_SECONDS)?;
                Some(Fault::Event(place, EventFault::Late(seconds)))
            }
            "mute" => event(numbers, EventFault::Muted),
            "busy" => call(numbers, CallFault::Busy),
            "unanswered" => call(numbers, CallFault::Unanswered),
            "slow" => {
                let (place, seconds) = pair(numbers, 1, MAX_SECONDS)?;
                Some(Fault::Call(place, CallFault::Slow(seconds)))
            }
            "gone" => call(numbers, CallFault::Gone),
            "reset" => call(numbers, CallFault::Reset),
            "chunk" => Some(Fault::Chunk(number(numbers, MIN_CHUNK, MAX_CHUNK)?)),
            _ => None,
        }
    }

    /// Returns the text of the fault, with its numbers in decimal digits without leading zeros.
    pub fn text(&self) -> ArrayString<MAX_FAULT_TEXT>
        ensures { result.bytes ≡ fault_text self.now }
    {
        match self {
            Fault::Event(place, fault) => event_text(*place, *fault),
            Fault::Call(place, fault) => call_text(*place, *fault),
            Fault::Chunk(most) => one_text("chunk", *most),
        }
    }
}

/// Returns this fault of the event of the number that the text is.
fn event(text: &str, happens: EventFault) -> Option<Fault>
    ensures some { IfSome result (λ fault. (k : ℕ) × (fault ≡ Fault.Event k happens) × Writes text.now k
        × IsPlace k) }
    ensures none { IsNone result → HasNoNumber text.now 1 MAX_NUMBER }
{
    Some(Fault::Event(number(text, 1, MAX_NUMBER)?, happens))
}

/// Returns this fault of the call of the number that the text is.
fn call(text: &str, happens: CallFault) -> Option<Fault>
    ensures some { IfSome result (λ fault. (k : ℕ) × (fault ≡ Fault.Call k happens) × Writes text.now k
        × IsPlace k) }
    ensures none { IsNone result → HasNoNumber text.now 1 MAX_NUMBER }
{
    Some(Fault::Call(number(text, 1, MAX_NUMBER)?, happens))
}

fn event_text(place: u32, fault: EventFault) -> ArrayString<MAX_FAULT_TEXT>
    ensures { result.bytes ≡ fault_text (Fault.Event place fault) }
{
    match fault {
        EventFault::Lost => one_text("lose", place),
        EventFault::Repeated => one_text("twice", place),
        EventFault::Cut(bytes) => pair_text("cut", place, bytes),
        EventFault::Late(seconds) => pair_text("late", place, seconds),
        EventFault::Muted => one_text("mute", place),
    }
}

fn call_text(place: u32, fault: CallFault) -> ArrayString<MAX_FAULT_TEXT>
    ensures { result.bytes ≡ fault_text (Fault.Call place fault) }
{
    match fault {
        CallFault::Busy => one_text("busy", place),
        CallFault::Unanswered => one_text("unanswered", place),
        CallFault::Slow(seconds) => pair_text("slow", place, seconds),
        CallFault::Gone => one_text("gone", place),
        CallFault::Reset => one_text("reset", place),
    }
}

/// Returns a name, a colon and a number.
fn one_text(name: &str, number: u32) -> ArrayString<MAX_FAULT_TEXT>
    requires { length name.now ≤ 10 }
    ensures text { result.bytes ≡ one_text name.now number }
    ensures bound { length result.bytes ≤ 21 }
{
    let mut text = ArrayString::new();
    text.push_str(name);
    text.push_str(":");
    text.push_str(Buffer::new().format(number));
    text
}

/// Returns a name and two numbers, each after a colon.
fn pair_text(name: &str, place: u32, amount: u32) -> ArrayString<MAX_FAULT_TEXT>
    requires { length name.now ≤ 10 }
    ensures { result.bytes ≡ pair_text name.now place amount }
{
    let mut text = one_text(name, place);
    text.push_str(":");
    text.push_str(Buffer::new().format(amount));
    text
}
