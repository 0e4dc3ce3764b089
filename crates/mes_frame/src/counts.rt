//! The counts of a device's calls.
ghost use Rattle.std.specs.Prelude.{length};
ghost use Rattle.mes_frame.specs.Counts.{CountsCall};

use std::io;

/// Counts of a device's calls, of those that failed, and of those without effect. Each saturates at
/// 2^64 - 1.
#[derive(Clone, Copy, Debug, Default, PartialEq, Eq)]
pub struct Counts {
    /// Calls with a non-empty buffer.
    pub calls: u64,
    /// Calls that failed.
    pub failures: u64,
    /// Calls that succeeded but moved no byte of a non-empty buffer. For a reader, this means the
    /// end of the input.
    pub idle: u64,
}

impl Counts {
    /// Counts a call with a buffer of `len` bytes that returned `answer`.
    pub(crate) fn count(&mut self, len: usize, answer: &io::Result<usize>)
        ensures { CountsCall self.old self.new len answer.now }
    {
        if len > 0 {
            self.calls = self.calls.saturating_add(1);
        }
        match answer {
            Ok(moved) => {
                if len > 0 && *moved == 0 {
                    self.idle = self.idle.saturating_add(1);
                }
            }
            Err(_) => self.failures = self.failures.saturating_add(1),
        }
    }
}
