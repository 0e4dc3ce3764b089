//! One entry of a session's history. The crate `mes_session_log` reads and writes lists of them.

use mes_msg_call::Call;
use mes_msg_event::Event;

/// An event received, a call sent, or a lost connection. A session log is a list of entries in the
/// order in which they happened.
#[derive(Debug, Drop)]
pub enum Entry {
    /// An event was received from the master.
    Heard(Event),
    /// A call was sent to the master.
    Said(Call),
    /// The event stream was disconnected.
    Broken,
}
