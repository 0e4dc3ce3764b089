//! The law of the limits. The function does nothing; its contract is the law.

ghost use Rattle.std.specs.Prelude.{◌≡◌};

use crate::both_ends::LOOPBACK_STREAM;
use crate::interleaved::MAX_UNREAD;
use crate::serving::STREAM_CHUNK;

/// Proves the constants: chunks of 4,096 bytes, at most 4,096 unread bytes in `loopback`, and the
/// stream id 00000000-0000-4000-8000-000000000001 of `loopback`.
pub fn net_limits()
    ensures chunk { STREAM_CHUNK ≡ 4096 }
    ensures unread { MAX_UNREAD ≡ 4096 }
    ensures stream { LOOPBACK_STREAM ≡ 0x40008000000000000001 }
{}
