//! The size of the chunks that `convert` writes.
ghost use Rattle.std.specs.Prelude.{◌≡◌, ◌≤◌};
ghost use Rattle.std.specs.Option.{SomeIff};

use mes_frame::{MAX_CHUNK, MIN_CHUNK};
use std::marker::Model;

/// The size of written chunks: `MIN_CHUNK` to `MAX_CHUNK` bytes.
#[derive(Clone, Copy, Debug, PartialEq, Eq)]
pub struct ChunkSize {
    bytes: u32,
}

impl Model for ChunkSize {
    ghost use Rattle.std.specs.Prelude.{ℕ, ◌≤◌};
    ghost use Rattle.mes_frame.specs.declared.limits.TheConstants.{MIN_CHUNK, MAX_CHUNK};

    ghost Value = { ℕ };

    ghost view = { λ s. s.bytes };

    ghost invariant = { λ s. (MIN_CHUNK ≤ s.bytes) × (s.bytes ≤ MAX_CHUNK) };

    ghost inverse = { λ n. record { bytes = n } };
}

impl ChunkSize {
    /// Returns the size of chunks of `bytes` bytes, if it is in the range.
    pub fn new(bytes: u32) -> Option<ChunkSize>
        ensures { SomeIff result ((MIN_CHUNK ≤ bytes) × (bytes ≤ MAX_CHUNK)) bytes }
    {
        if MIN_CHUNK <= bytes && bytes <= MAX_CHUNK {
            Some(ChunkSize { bytes })
        } else {
            None
        }
    }

    /// Returns the size in bytes.
    pub fn get(self) -> u32
        ensures value { result ≡ self }
        ensures range { (MIN_CHUNK ≤ result) × (result ≤ MAX_CHUNK) }
    {
        self.bytes
    }
}
