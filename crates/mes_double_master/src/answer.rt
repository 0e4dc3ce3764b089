//! The response of a test master to a call.
ghost use Rattle.std.specs.Prelude.{◌≡◌, []};

use http::StatusCode;
use mes_msg::Event;
use std::alloc::Global;

/// The response of a test master to a call.
#[derive(Drop)]
pub struct Answer {
    /// 200 for a SUBSCRIBE, 202 for another call that was carried out, 400 or 403.
    pub status: StatusCode,
    /// The events to send on the stream.
    pub events: Vec<Event>,
    /// The number of offers that the call took: by an ACCEPT or a DECLINE.
    pub taken: usize,
    /// The number of tasks that the call launched. Their identifiers are the last ones that
    /// [`Master::launched_at`](crate::Master::launched_at) returns.
    pub launched: usize,
}

impl Answer {
    /// Returns a response without events. Does not allocate.
    pub(crate) fn plain(alloc: Global, status: StatusCode) -> Answer
        ensures status { result.status ≡ status }
        ensures events { result.events.items ≡ [] }
        ensures taken { result.taken ≡ 0 }
        ensures launched { result.launched ≡ 0 }
    {
        Answer {
            status,
            events: Vec::new(alloc),
            taken: 0,
            launched: 0,
        }
    }
}
