//! Faults at random.
ghost use Rattle.std.specs.Prelude.{◌≡◌, ◌<◌, ◌≤◌};
ghost use Rattle.mes_double_faults.specs.Random.{draw, event_draw, call_draw, random_event_fault, random_call_fault};

use crate::fault::{CallFault, EventFault};
use rand_core::{Rng, SeedableRng};
use rand_xoshiro::SplitMix64;

/// Faults at random, with the same ones for the same seed.
#[derive(Clone, Copy, Debug, PartialEq, Eq)]
pub struct RandomFaults {
    /// Decides which events and calls have faults.
    pub seed: u32,
    /// The number of events or calls out of 1,000 that have a fault on average, from 1 to 1,000.
    pub rate: u32,
}

impl RandomFaults {
    /// Returns what happens to the event of this number.
    pub fn of_event(&self, number: u64) -> Option<EventFault>
        ensures { result ≡ random_event_fault self.now number }
    {
        let word = drawn(self.seed, number.wrapping_mul(2));
        if word % 1_000 >= u64::from(self.rate) {
            return None;
        }
        match (word / 1_000) % 4 {
            0 => Some(EventFault::Lost),
            1 => Some(EventFault::Repeated),
            2 => Some(EventFault::Cut(((word / 4_000) % 1_000) as u32)),
            _ => Some(EventFault::Late(1)),
        }
    }

    /// Returns what happens to the call of this number.
    pub fn of_call(&self, number: u64) -> Option<CallFault>
        ensures { result ≡ random_call_fault self.now number }
    {
        let word = drawn(self.seed, number.wrapping_mul(2).wrapping_add(1));
        if word % 1_000 >= u64::from(self.rate) {
            return None;
        }
        match (word / 1_000) % 4 {
            0 => Some(CallFault::Busy),
            1 => Some(CallFault::Unanswered),
            2 => Some(CallFault::Slow(1)),
            _ => Some(CallFault::Reset),
        }
    }
}

/// Returns the word of this index for a seed: SplitMix64 over the seed's own word.
fn drawn(seed: u32, index: u64) -> u64
    ensures value { result ≡ draw seed index }
{
    let base = SplitMix64::seed_from_u64(u64::from(seed)).next_u64();
    SplitMix64::seed_from_u64(base.wrapping_add(index)).next_u64()
}
