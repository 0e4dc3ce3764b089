//! The limits of heads and bodies. `http_limits` states their values as a contract.

/// The maximum number of bytes of a head, with the empty line that ends it.
pub const MAX_HEAD: usize = 16_384;

/// The maximum number of field lines of a head.
pub const MAX_FIELDS: usize = 64;

/// The maximum number of bytes of a request's body: 1 MiB.
pub const MAX_BODY: u32 = 1_048_576;

/// The maximum number of bytes of a body that one call reads.
pub(crate) const MAX_BODY_READ: usize = 4096;

/// The maximum number of digits of a Content-Length, enough for 64-bit numbers.
pub const MAX_LENGTH_DIGITS: usize = 20;

/// The maximum number of bytes of a stream id.
pub const MAX_STREAM_ID: usize = 128;

/// The maximum number of bytes of a host.
pub const MAX_HOST: usize = 255;

/// The capacity for the number and the name of a fault, in bytes.
pub const MAX_HEAD_FAULT: usize = 24;

/// The capacity for the head of a response, in bytes.
pub(crate) const MAX_RESPONSE_HEAD: usize = 256;
