//! Times in milliseconds.

use std::io;
use std::time::Duration;

/// Returns whether a time has come.
pub(crate) fn is_past(until: Option<u64>, now: u64) -> bool {
    match until {
        Some(until) => until <= now,
        None => false,
    }
}

/// Returns the earlier of two times; `None` is never.
pub(crate) fn earlier(one: Option<u64>, other: Option<u64>) -> Option<u64> {
    match (one, other) {
        (Some(one), Some(other)) => Some(one.min(other)),
        (Some(one), None) => Some(one),
        (None, other) => other,
    }
}

/// Returns the time since the start in milliseconds, or 0 if the clock failed.
pub(crate) fn millis(elapsed: io::Result<Duration>) -> u64 {
    match elapsed {
        Ok(elapsed) => u64::try_from(elapsed.as_millis()).unwrap_or(u64::MAX),
        Err(_) => 0,
    }
}
