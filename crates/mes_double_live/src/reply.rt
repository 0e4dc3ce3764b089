//! The response of a live test master to a call.
ghost use Rattle.std.specs.Prelude.{◌≡◌, None as none, IsNone};

use http::StatusCode;
use mes_double_faults::CallFault;
use mes_double_http::StreamId;

/// The response of a live test master to a call.
#[derive(Drop)]
pub struct Reply {
    /// 200 for a SUBSCRIBE, 202 for another call that was carried out, 400, 403 or 503.
    pub status: StatusCode,
    /// The stream that the call opened, with status 200.
    pub opened: Option<StreamId>,
    /// The stream that the call ended.
    pub ended: Option<EndedStream>,
    /// What happens to the connection of the call.
    pub fault: Option<CallFault>,
}

/// A stream that a call ended.
#[derive(Drop)]
pub struct EndedStream {
    /// The id of the stream.
    pub id: StreamId,
    /// The bytes of its body that are not written, up to the end of the last chunk.
    pub rest: Vec<u8>,
}

impl Reply {
    /// Returns a response that neither opens nor ends a stream, without a fault.
    pub fn plain(status: StatusCode) -> Reply
        ensures status { result.status ≡ status }
        ensures opened { result.opened ≡ none }
        ensures ended { IsNone result.ended }
        ensures fault { result.fault ≡ none }
    {
        Reply {
            status,
            opened: None,
            ended: None,
            fault: None,
        }
    }

    /// Returns the response with this fault.
    pub fn with(self, fault: Option<CallFault>) -> Reply
        ensures { result ≡ record self { fault = fault } }
    {
        Reply { fault, ..self }
    }
}
