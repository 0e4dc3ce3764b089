//! A writer into memory for tests, which can be slow, can stop and can fail. The reader is in
//! `memory_source`.
ghost use Rattle.std.specs.Prelude.{◌≡◌, ◌≤◌, length, Some, IfOk};
ghost use Rattle.std.specs.Io.KnownBytes.{WriteAppends};
ghost use Rattle.mes_frame.specs.Counts.{CountsCall};
ghost use Rattle.mes_frame.specs.Memory.{sink_of, SinkIs, SinkTakes};

use crate::counts::Counts;
use crate::device::Sink;
use std::alloc::Global;
use std::io;

/// The way in which a [`MemorySink`] stops after its `good` bytes.
#[derive(Clone, Copy, Debug, PartialEq, Eq)]
pub enum MemoryStop {
    /// Each call fails.
    Fails,
    /// Each call writes nothing.
    TakesNone,
}

/// A writer into memory. A call fails if an allocation fails.
#[derive(Drop)]
pub struct MemorySink {
    bytes: Vec<u8>,
    most: usize,
    good: usize,
    stop: MemoryStop,
    counts: Counts,
}

impl MemorySink {
    /// Creates a writer that takes at most `most` bytes a call.
    pub fn new(alloc: Global, most: usize) -> Self
        ensures { SinkIs most usize.MAX MemoryStop.TakesNone result }
    {
        MemorySink::stopping_after(alloc, most, usize::MAX, MemoryStop::TakesNone)
    }

    /// Like [`MemorySink::new`], but after `good` bytes each call does what `stop` says.
    pub fn stopping_after(alloc: Global, most: usize, good: usize, stop: MemoryStop) -> Self
        ensures { SinkIs most good stop result }
    {
        MemorySink {
            bytes: Vec::new(alloc),
            most,
            good,
            stop,
            counts: Counts::default(),
        }
    }

    /// Returns the counts of calls.
    pub fn counts(&self) -> Counts
        ensures { result ≡ (sink_of self.now).counts }
    {
        self.counts
    }

    /// Returns the bytes written.
    pub fn bytes(&self) -> &[u8]
        ensures { (sink_of self.now).bytes ≡ Some result.now }
    {
        self.bytes.as_slice()
    }

    fn take(&mut self, bytes: &[u8]) -> io::Result<usize>
        ensures within { IfOk result (λ n. n ≤ length bytes.now) }
        ensures bytes { WriteAppends (sink_of self.old).bytes (sink_of self.new).bytes result bytes.now }
        ensures takes { SinkTakes self.old self.new (length bytes.now) result }
        ensures counts { self.new.counts ≡ self.old.counts }
    {
        if self.good == 0 {
            match self.stop {
                MemoryStop::Fails => return Err(io::Error::other("the memory sink fails here")),
                MemoryStop::TakesNone => return Ok(0),
            }
        }
        let count = self.most.min(self.good).min(bytes.len());
        self.bytes.extend_from_slice(&bytes[..count])?;
        self.good -= count;
        Ok(count)
    }
}

impl Sink for MemorySink {
    ghost device = { sink_of };

    fn put(&mut self, bytes: &[u8]) -> io::Result<usize>
        ensures within { IfOk result (λ n. n ≤ length bytes.now) }
        ensures bytes { WriteAppends (sink_of self.old).bytes (sink_of self.new).bytes result bytes.now }
        ensures counted { CountsCall (sink_of self.old).counts (sink_of self.new).counts (length bytes.now)
            result }
        ensures takes { SinkTakes self.old self.new (length bytes.now) result }
    {
        let answer = self.take(bytes);
        self.counts.count(bytes.len(), &answer);
        answer
    }
}
