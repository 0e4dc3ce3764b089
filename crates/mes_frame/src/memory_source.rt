//! A reader of bytes in memory for tests, which can be slow and can fail. The writer is in
//! `memory_sink`.
ghost use Rattle.std.specs.Prelude.{◌≡◌, ◌≤◌, length, IfOk};
ghost use Rattle.std.specs.Io.KnownBytes.{ReadConsumes};
ghost use Rattle.mes_frame.specs.Counts.{CountsCall};
ghost use Rattle.mes_frame.specs.Memory.{source_of, SourceIs, SourceGives};

use crate::counts::Counts;
use crate::device::Source;
use std::io;

/// A reader of bytes in memory.
#[derive(Drop)]
pub struct MemorySource<'a> {
    bytes: &'a [u8],
    most: usize,
    good: usize,
    counts: Counts,
}

impl<'a> MemorySource<'a> {
    /// Creates a reader of `bytes` that returns at most `most` bytes a call, or 1 if `most` is 0.
    pub fn new(bytes: &'a [u8], most: usize) -> Self
        ensures { SourceIs bytes.now most usize.MAX result }
    {
        MemorySource::failing_after(bytes, most, usize::MAX)
    }

    /// Like [`MemorySource::new`], but after `good` bytes each call fails.
    pub fn failing_after(bytes: &'a [u8], most: usize, good: usize) -> Self
        ensures { SourceIs bytes.now most good result }
    {
        MemorySource {
            bytes,
            most,
            good,
            counts: Counts::default(),
        }
    }

    /// Returns the counts of calls.
    pub fn counts(&self) -> Counts
        ensures { result ≡ (source_of self.now).counts }
    {
        self.counts
    }

    fn give(&mut self, buffer: &mut [u8]) -> io::Result<usize>
        ensures within { IfOk result (λ n. n ≤ length buffer.new) }
        ensures bytes { ReadConsumes (source_of self.old).bytes (source_of self.new).bytes result buffer.new }
        ensures gives { SourceGives self.old self.new (length buffer.old) result }
        ensures counts { self.new.counts ≡ self.old.counts }
    {
        if self.good == 0 {
            return Err(io::Error::other("the memory source fails here"));
        }
        let most = self.most.max(1).min(self.good);
        let count = most.min(buffer.len()).min(self.bytes.len());
        buffer[..count].copy_from_slice(&self.bytes[..count]);
        self.bytes = &self.bytes[count..];
        self.good -= count;
        Ok(count)
    }
}

impl Source for MemorySource<'_> {
    ghost device = { source_of };

    fn fetch(&mut self, buffer: &mut [u8]) -> io::Result<usize>
        ensures within { IfOk result (λ n. n ≤ length buffer.new) }
        ensures bytes { ReadConsumes (source_of self.old).bytes (source_of self.new).bytes result buffer.new }
        ensures counted { CountsCall (source_of self.old).counts (source_of self.new).counts (length buffer.old)
            result }
        ensures gives { SourceGives self.old self.new (length buffer.old) result }
    {
        let answer = self.give(buffer);
        self.counts.count(buffer.len(), &answer);
        answer
    }
}
