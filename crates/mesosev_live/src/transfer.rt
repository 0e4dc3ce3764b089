//! One read or write of a ready device that does not block.

ghost use Rattle.mesosev_live.specs.Transfers.{Takes, Discards, Puts, CameAfter, WentAfter};

use crate::limits::SOCKET_READ;
use mes_double_http::RequestReader;
use mes_frame::{Sink, Source};
use std::alloc::AllocError;
use std::io::ErrorKind;

/// The outcome of a read.
#[derive(Clone, Copy, Debug, PartialEq, Eq)]
pub(crate) enum Came {
    /// Bytes came; more may be there.
    Bytes,
    /// No byte is there now.
    Nothing,
    /// The peer sends no more bytes.
    End,
    /// The device failed.
    Failure,
}

/// The outcome of a write.
#[derive(Clone, Copy, Debug, PartialEq, Eq)]
pub(crate) enum Went {
    /// This number of bytes was written; the device may take more.
    Bytes(usize),
    /// No byte can be written now.
    Nothing,
    /// The device failed.
    Failure,
}

/// Reads once, and feeds what came to the reader of requests. Errors: an allocation failed.
pub(crate) fn take_ready<S: Source>(
    source: &mut S,
    requests: &mut RequestReader,
) -> Result<Came, AllocError>
    // What came is appended to the bytes that were not taken, in one call of the device.
    ensures { Takes (S.device source.old) (S.device source.new) requests.old requests.new result }
{
    let mut buffer = [0; SOCKET_READ];
    match source.fetch(&mut buffer) {
        Ok(0) => Ok(Came::End),
        Ok(count) => match requests.feed(&buffer[..count]) {
            Ok(()) => Ok(Came::Bytes),
            Err(failed) => Err(failed),
        },
        Err(error) => Ok(came_with(error.kind())),
    }
}

/// Reads once, and discards what came.
pub(crate) fn discard_ready<S: Source>(source: &mut S) -> Came
    ensures { Discards (S.device source.old) (S.device source.new) result }
{
    let mut buffer = [0; SOCKET_READ];
    match source.fetch(&mut buffer) {
        Ok(0) => Came::End,
        Ok(_) => Came::Bytes,
        Err(error) => came_with(error.kind()),
    }
}

/// Returns the outcome of a read that failed with this kind of error.
pub(crate) fn came_with(kind: ErrorKind) -> Came
    ensures { CameAfter result }
{
    match kind {
        ErrorKind::WouldBlock => Came::Nothing,
        ErrorKind::Interrupted => Came::Bytes,
        _ => Came::Failure,
    }
}

/// Writes once.
pub(crate) fn put_ready<S: Sink>(sink: &mut S, bytes: &[u8]) -> Went
    // The first bytes are written, in one call of the device.
    ensures { Puts (S.device sink.old) (S.device sink.new) bytes.now result }
{
    match sink.put(bytes) {
        Ok(0) => Went::Failure,
        Ok(count) => Went::Bytes(count),
        Err(error) => went_with(error.kind()),
    }
}

/// Returns the outcome of a write that failed with this kind of error.
fn went_with(kind: ErrorKind) -> Went
    ensures { WentAfter result }
{
    match kind {
        ErrorKind::WouldBlock => Went::Nothing,
        ErrorKind::Interrupted => Went::Bytes(0),
        _ => Went::Failure,
    }
}
