//! The limits that the contracts use, stated as the contract of an empty function.

ghost use Rattle.std.specs.Prelude.{◌≡◌};

use crate::limits::{MAX_BODY, MAX_FIELDS, MAX_HEAD, MAX_HOST, MAX_LENGTH_DIGITS, MAX_STREAM_ID};

/// Proves the values of the limits. A head has at most 16,384 bytes and 64 fields, and a body at
/// most 1,048,576 bytes. A Content-Length has at most 20 digits, a stream id at most 128 bytes, and
/// a host at most 255 bytes.
pub fn http_limits()
    ensures head { MAX_HEAD ≡ 16384 }
    ensures fields { MAX_FIELDS ≡ 64 }
    ensures body { MAX_BODY ≡ 1048576 }
    ensures digits { MAX_LENGTH_DIGITS ≡ 20 }
    ensures stream_id { MAX_STREAM_ID ≡ 128 }
    ensures host { MAX_HOST ≡ 255 }
{}
