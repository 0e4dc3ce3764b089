//! The limit on a record's size.
ghost use Rattle.std.specs.Prelude.{◌≡◌, ◌≤◌};
ghost use Rattle.std.specs.Option.{SomeIff};

use crate::limits::{DEFAULT_RECORD_LIMIT, MAX_RECORD_LIMIT, MIN_RECORD_LIMIT};
use std::marker::Model;

/// The maximum number of bytes of one record's data, from `MIN_RECORD_LIMIT` to `MAX_RECORD_LIMIT`.
#[derive(Clone, Copy, Debug, PartialEq, Eq)]
pub struct Limit {
    bytes: u32,
}

impl Model for Limit {
    ghost use Rattle.std.specs.Prelude.{ℕ, ◌≤◌};
    ghost use Rattle.mes_frame.specs.declared.limits.TheConstants.{MIN_RECORD_LIMIT, MAX_RECORD_LIMIT};

    ghost Value = { ℕ };

    ghost view = { λ l. l.bytes };

    ghost invariant = { λ l. (MIN_RECORD_LIMIT ≤ l.bytes) × (l.bytes ≤ MAX_RECORD_LIMIT) };

    ghost inverse = { λ n. record { bytes = n } };
}

// `USUAL` and `LARGEST` have the values of the constants in `limits`.
const _: () = prove!(
    Limit::USUAL.bytes == DEFAULT_RECORD_LIMIT && Limit::LARGEST.bytes == MAX_RECORD_LIMIT
);

impl Limit {
    /// The default limit, `DEFAULT_RECORD_LIMIT`.
    pub const USUAL: Limit = Limit {
        bytes: DEFAULT_RECORD_LIMIT,
    };

    /// The largest limit, `MAX_RECORD_LIMIT`.
    pub const LARGEST: Limit = Limit {
        bytes: MAX_RECORD_LIMIT,
    };

    /// Creates a limit of `bytes` bytes, or returns `None` out of range.
    pub fn new(bytes: u32) -> Option<Limit>
        ensures { SomeIff result ((MIN_RECORD_LIMIT ≤ bytes) × (bytes ≤ MAX_RECORD_LIMIT)) bytes }
    {
        if MIN_RECORD_LIMIT <= bytes && bytes <= MAX_RECORD_LIMIT {
            Some(Limit { bytes })
        } else {
            None
        }
    }

    /// Returns the limit in bytes.
    pub fn get(self) -> u32
        ensures { result ≡ self }
    {
        self.bytes
    }
}
