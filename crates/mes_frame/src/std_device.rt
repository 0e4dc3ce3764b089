//! Adapters that make readers and writers of `std::io` devices.
ghost use Rattle.std.specs.Prelude.{◌≡◌};
ghost use Rattle.mes_frame.specs.Counts.{no_calls};
ghost use Rattle.mes_frame.specs.StdDevice.{inner_of, device_of};

use crate::counts::Counts;
use crate::device::{Sink, Source};
use std::io;
use std::io::{Read, Write};

/// A reader or writer of `std::io`, with counts of its calls.
#[derive(Drop)]
pub struct FromStd<T> {
    inner: T,
    counts: Counts,
}

impl<T> FromStd<T> {
    /// Wraps `inner`, with all counts at 0.
    pub fn new(inner: T) -> Self
        ensures inner { inner_of result ≡ inner }
        ensures counts { result.counts ≡ no_calls }
    {
        FromStd {
            inner,
            counts: Counts::default(),
        }
    }

    /// Returns the counts of calls.
    pub fn counts(&self) -> Counts
        ensures { result ≡ self.now.counts }
    {
        self.counts
    }
}

impl<T: Read> Source for FromStd<T> {
    ghost device = { device_of T.remaining };

    fn fetch(&mut self, buffer: &mut [u8]) -> io::Result<usize> {
        let answer = self.inner.read(buffer);
        self.counts.count(buffer.len(), &answer);
        answer
    }
}

impl<T: Write> Sink for FromStd<T> {
    ghost device = { device_of T.contents };

    fn put(&mut self, bytes: &[u8]) -> io::Result<usize> {
        let answer = self.inner.write(bytes);
        self.counts.count(bytes.len(), &answer);
        answer
    }
}
