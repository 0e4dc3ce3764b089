//! The law of the limits. The function does nothing; its contract is the law.

ghost use Rattle.std.specs.Prelude.{◌≡◌};

use crate::limits::{MAX_LINE, MAX_LINE_BUFFER, MAX_READS};

/// Proves the limits: at most 4,294,967,296 reads of the input, and at most 65,536 bytes of
/// buffered output. The line of an error or a count has at most 672 bytes with its LF.
pub fn run_limits()
    ensures reads { MAX_READS ≡ 4294967296 }
    ensures line { MAX_LINE ≡ 672 }
    ensures lines { MAX_LINE_BUFFER ≡ 65536 }
{}
