//! A call that a session has sent.

use mes_double_http::StreamId;
use mes_msg::Call;

/// A call that a session sent, and the id of the stream that was then current.
#[derive(Drop)]
pub struct Sent {
    /// The call.
    pub call: Call,
    /// The id of the stream that was current when the call was sent.
    pub stream: StreamId,
}
