//! The limits of the live test master.

/// The number of milliseconds in a second.
pub(crate) const MILLIS: u64 = 1_000;

/// The number of connections that are served at once. Further ones wait in the backlog.
pub const MAX_CONNECTIONS: usize = 64;

/// The number of pending bytes of a stream above which the stream is disconnected: 64 MiB.
pub const MAX_STREAM_UNREAD: usize = 67_108_864;

/// The number of streams that one run can open.
pub const MAX_STREAMS: u16 = 65_535;

/// The number of bytes of printed lines that are buffered until they can be written: 64 KiB.
pub const MAX_LINES: usize = 65_536;

/// The number of bytes that one write of lines to a pipe passes, so that it does not block: what
/// Linux takes at once from a pipe that is reported writable (`PIPE_BUF`).
pub(crate) const LINES_AT_ONCE: usize = 4_096;

/// The number of bytes without LF that a terminal takes at once if it is reported writable.
pub(crate) const TERMINAL_AT_ONCE: usize = 64;

/// The number of bytes that one read of a socket asks for.
pub(crate) const SOCKET_READ: usize = 4_096;

/// The number of reads of one connection before others have their turn.
pub(crate) const READS_AT_ONCE: u32 = 16;

/// The number of bytes of responses that are not written, above which a connection is not read.
pub(crate) const MAX_UNSENT: usize = 65_536;

/// The number of bytes that one read of standard input asks for: what `main` buffers, so that a
/// read returns all that was read of it.
pub(crate) const INPUT_READ: usize = 16_384;

/// The time for which bytes of a client are discarded before its connection is closed, in
/// milliseconds. Closing a socket with unread bytes resets the connection, and the client may lose
/// the response.
pub(crate) const LINGER: u64 = 1_000;

/// The time for which a client can read the last bytes of a connection before it is closed, in
/// milliseconds. So a replaced stream that nobody reads frees its place.
pub(crate) const MAX_ENDING: u64 = 10_000;

/// The time for which the last responses and lines are written at the end of the run, in
/// milliseconds.
pub(crate) const FINISH: u64 = 1_000;
