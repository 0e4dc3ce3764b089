//! The settings of a live test master.

/// The settings of a live test master. Times are in milliseconds.
#[derive(Clone, Copy, Debug, PartialEq, Eq)]
pub struct Settings {
    /// The time between two HEARTBEATs.
    pub heartbeat: u64,
    /// The time after which an unacknowledged update is sent again; `None`: only on a new stream.
    pub resend: Option<u64>,
    /// The time for which a task runs; `None`: without an end.
    pub finish_after: Option<u64>,
    /// The largest chunk of a stream, in bytes: from `MIN_CHUNK` to `MAX_CHUNK`.
    pub most: u32,
}
