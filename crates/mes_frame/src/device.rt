//! Readers and writers of bytes, each with one method. Implementations: [`crate::FromStd`],
//! [`crate::MemorySource`], [`crate::MemorySink`].
ghost use Rattle.std.specs.Prelude.{◌≤◌, length, IfOk};
ghost use Rattle.std.specs.Io.KnownBytes.{ReadConsumes, WriteAppends};
ghost use Rattle.mes_frame.specs.Counts.{CountsCall};
ghost use Rattle.mes_frame.specs.Devices.{Device};

use std::io;

/// A reader of bytes that counts its calls.
pub trait Source {
    /// The bytes that are left to read, if the device determines them, and the counts of its calls.
    ghost device: { Self → Device };

    /// Reads bytes to the front of `buffer` and returns their number. 0 for a non-empty buffer
    /// means the end of the input.
    fn fetch(&mut self, buffer: &mut [u8]) -> io::Result<usize>
        ensures within { IfOk result (λ n. n ≤ length buffer.new) }
        ensures bytes { ReadConsumes (device self.old).bytes (device self.new).bytes result
            buffer.new }
        ensures counted { CountsCall (device self.old).counts (device self.new).counts
            (length buffer.old) result };
}

/// A writer of bytes that counts its calls.
pub trait Sink {
    /// The bytes written so far, if the device determines them, and the counts of its calls.
    ghost device: { Self → Device };

    /// Writes a prefix of `bytes` and returns its length.
    fn put(&mut self, bytes: &[u8]) -> io::Result<usize>
        ensures within { IfOk result (λ n. n ≤ length bytes.now) }
        ensures bytes { WriteAppends (device self.old).bytes (device self.new).bytes result
            bytes.now }
        ensures counted { CountsCall (device self.old).counts (device self.new).counts
            (length bytes.now) result };
}
