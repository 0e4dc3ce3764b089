//! An output whose reader may disappear.

ghost use Rattle.std.specs.Prelude.{◌≡◌, ◌≤◌, false, length, IfOk};
ghost use Rattle.std.specs.Io.KnownBytes.{WriteAppends};
ghost use Rattle.mes_frame.specs.Counts.{CountsCall};
ghost use Rattle.mesosev_stream.specs.Outputs.{closed_by, is_closed};

use mes_frame::Sink;
use std::io;
use std::io::ErrorKind;

/// A writer that remembers whether a call failed because the pipe has no reader any more.
#[derive(Drop)]
pub struct Output<W> {
    inner: W,
    closed: bool,
}

impl<W> Output<W> {
    /// Returns an open output that writes to `inner`.
    pub fn new(inner: W) -> Self
        ensures inner { result.inner ≡ inner }
        ensures closed { result.closed ≡ false }
    {
        Output {
            inner,
            closed: false,
        }
    }

    /// Returns whether a call failed because the pipe has no reader.
    pub fn is_closed(&self) -> bool
        ensures { result ≡ self.now.closed }
    {
        self.closed
    }
}

impl<W: Sink> Sink for Output<W> {
    ghost device = { λ o. W.device o.inner };

    fn put(&mut self, bytes: &[u8]) -> io::Result<usize>
        ensures within { IfOk result (λ n. n ≤ length bytes.now) }
        ensures bytes { WriteAppends (W.device self.old.inner).bytes (W.device self.new.inner).bytes result
            bytes.now }
        ensures counted { CountsCall (W.device self.old.inner).counts (W.device self.new.inner).counts
            (length bytes.now) result }
        ensures closed { self.new.closed ≡ closed_by self.old.closed result }
    {
        let answer = self.inner.put(bytes);
        if let Err(error) = &answer
            && is_closed_pipe(error.kind())
        {
            self.closed = true;
        }
        answer
    }
}

/// Returns whether an error of this kind means that a pipe has no reader.
fn is_closed_pipe(kind: ErrorKind) -> bool
    ensures { result ≡ is_closed kind }
{
    match kind {
        ErrorKind::BrokenPipe => true,
        _ => false,
    }
}
