//! Numbers of results, errors and event types in C.

ghost use Rattle.std.specs.Prelude.{◌≡◌, ◌≤◌};
ghost use Rattle.mesosev_c.specs.Numbers.{number_of_fault, number_of_event};

use mes_frame::FrameFault;
use mes_msg::Event;
use mes_stream::Fault;

/// The status of success: a whole stream or a call was read, or a handle was created. 1 to 16 are
/// the errors F1 to F16.
pub const SUCCESS: u32 = 0;

/// The status for a handle that could not be allocated: the number of F13.
pub const NO_MEMORY: u32 = 13;

/// The status if all bytes of a piece were used and no event ended: more input is needed.
pub const MORE: u32 = 32;

/// The status of a decoded event.
pub const EVENT: u32 = 33;

/// The status at the end of the stream.
pub const END: u32 = 34;

/// The status of an event or call whose canonical text nests too deep, is too large, or could not
/// be allocated.
pub const NO_TEXT: u32 = 35;

/// The status if a text does not fit the caller's buffer. Nothing was applied.
pub const NO_ROOM: u32 = 36;

/// The status if a session has no framework, or no offer or update with an index or identifier.
pub const ABSENT: u32 = 37;

/// The status of a record limit that is out of its range.
pub const BAD_LIMIT: u32 = 100;

/// The status of an unknown framing number.
pub const BAD_FRAMING: u32 = 101;

/// Returns the number of an error, 1 to 16: the one in its name, F1 to F16.
pub fn fault_number(fault: &Fault) -> u32
    ensures number { result ≡ number_of_fault fault.now }
    ensures least { 1 ≤ result }
    ensures most { result ≤ 16 }
{
    match fault {
        Fault::Frame(fault) => frame_fault_number(*fault),
        Fault::EndsInsideChunks => 6,
        Fault::EndsInsideRecord => 10,
        Fault::Text { .. } => 11,
        Fault::Field { .. } => 12,
        Fault::NoMemory => 13,
        Fault::Read => 14,
        Fault::ReadsSpent => 15,
        Fault::BadEntry { .. } => 16,
    }
}

/// Returns the number of a framing error.
fn frame_fault_number(fault: FrameFault) -> u32
    ensures number { result ≡ number_of_fault (Fault.Frame fault) }
    ensures least { 1 ≤ result }
    ensures most { result ≤ 16 }
{
    match fault {
        FrameFault::BadChunkLine => 1,
        FrameFault::ChunkLineTooLong => 2,
        FrameFault::ChunkTooLarge => 3,
        FrameFault::BadChunkEnd => 4,
        FrameFault::TrailersTooLong => 5,
        FrameFault::BadSizeLine => 7,
        FrameFault::SizeLineTooLong => 8,
        FrameFault::RecordTooLarge => 9,
    }
}

/// Returns the number of an event's type: that of `Event.Type` in scheduler.proto, 1 to 8, and 0
/// for a type that is stored by its name.
pub fn event_number(event: &Event) -> u32
    ensures { result ≡ number_of_event event.now }
{
    match event {
        Event::Subscribed(_) => 1,
        Event::Offers(_) => 2,
        Event::Rescind(_) => 3,
        Event::Update(_) => 4,
        Event::Message(_) => 5,
        Event::Failure(_) => 6,
        Event::Error(_) => 7,
        Event::Heartbeat => 8,
        Event::Other(_) => 0,
    }
}
