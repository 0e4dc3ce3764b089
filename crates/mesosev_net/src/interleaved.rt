//! The client's end of a connection whose server writes between the client's reads, in one thread.

ghost use Rattle.std.specs.Prelude.{◌≡◌, IfOk, OnOk, OnErr};
ghost use Rattle.std.specs.Io.{ReadsAtMost};
ghost use Rattle.mesosev_net.specs.Unread.{Unread, Takes, Writes};

use std::io;
use std::io::{ErrorKind, Read, Write};
use std::marker::Model;
use std::net::TcpStream;

/// The largest number of bytes that are written and not yet read.
pub const MAX_UNREAD: usize = 4_096;

/// Reads at the client. Before each read the server writes pending bytes, until `MAX_UNREAD` bytes
/// are unread, so that a read never blocks forever. A reader with a buffer of `MAX_UNREAD` bytes
/// receives all unread bytes in one call.
#[derive(Drop)]
pub(crate) struct InterleavedReader<'a> {
    client: &'a TcpStream,
    server: &'a TcpStream,
    // The bytes that the server has not written yet.
    pending: &'a [u8],
    // The number of bytes written and not yet read.
    unread: usize,
}

impl<'a> Model for InterleavedReader<'a> {
    ghost use Rattle.std.specs.Prelude.{◌≤◌};
    ghost use Rattle.mesosev_net.specs.Unread.{Unread};
    ghost use Rattle.mesosev_net.specs.declared.interleaved.TheConstants.{MAX_UNREAD};

    ghost Value = { Unread };

    ghost view = { λ t. record { pending = t.pending.now; unread = t.unread } };

    ghost invariant = { λ t. t.unread ≤ MAX_UNREAD };
}

impl<'a> InterleavedReader<'a> {
    /// Returns the client's end of a connection whose server writes `pending`.
    pub(crate) fn new(
        client: &'a TcpStream,
        server: &'a TcpStream,
        pending: &'a [u8],
    ) -> InterleavedReader<'a>
        ensures { result ≡ record { pending = pending.entry.now; unread = 0 } }
    {
        InterleavedReader {
            client,
            server,
            pending,
            unread: 0,
        }
    }

    // Writes pending bytes at the server. Errors: a write failed, or wrote 0 bytes.
    fn write_pending(&mut self) -> io::Result<()>
        ensures ok { OnOk result (Writes self.old self.new) }
        ensures err { OnErr result (self.new ≡ self.old) }
    {
        let room = MAX_UNREAD
            .saturating_sub(self.unread)
            .min(self.pending.len());
        if room == 0 {
            return Ok(());
        }
        let taken = self.server.write(&self.pending[..room])?;
        if taken == 0 {
            return Err(io::Error::from(ErrorKind::WriteZero));
        }
        self.pending = &self.pending[taken..];
        self.unread = self.unread.saturating_add(taken);
        Ok(())
    }

    // Reads bytes that the server wrote: 0 bytes once all of them were read. Errors: a read of the
    // client or a write of the server failed.
    fn take(&mut self, buffer: &mut [u8]) -> io::Result<usize>
        ensures bound { ReadsAtMost result buffer.new }
        ensures taken { IfOk result (λ count. Takes count self.old self.new) }
    {
        self.write_pending()?;
        if self.unread == 0 {
            return Ok(0);
        }
        let count = self.client.read(buffer)?;
        self.unread = self.unread.saturating_sub(count);
        Ok(count)
    }
}

impl Read for InterleavedReader<'_> {
    fn read(&mut self, buffer: &mut [u8]) -> io::Result<usize> {
        self.take(buffer)
    }
}
