//! Limits of records and chunked bodies. A limit that a text also names, such as `--help`, is a
//! macro. It passes its literal to another macro: `max_record_limit!(concat "up to ")` is a text.

/// Passes the default record limit, 4 MiB, to a macro.
#[macro_export]
macro_rules! default_record_limit {
    ($reported:ident $($front:literal)?) => {
        $reported!($($front,)? 4_194_304)
    };
}

/// Passes the largest record limit, 64 MiB, to a macro.
#[macro_export]
macro_rules! max_record_limit {
    ($reported:ident $($front:literal)?) => {
        $reported!($($front,)? 67_108_864)
    };
}

/// Passes the maximum size of a written chunk, 16 MiB, to a macro.
#[macro_export]
macro_rules! max_chunk {
    ($reported:ident $($front:literal)?) => {
        $reported!($($front,)? 16_777_216)
    };
}

/// Expands to the number that a limit's macro passes.
macro_rules! number {
    ($number:literal) => {
        $number
    };
}

/// The smallest record limit, in bytes.
pub const MIN_RECORD_LIMIT: u32 = 1;

/// The default record limit, in bytes: 4 MiB.
pub const DEFAULT_RECORD_LIMIT: u32 = default_record_limit!(number);

/// The largest record limit, in bytes: 64 MiB.
pub const MAX_RECORD_LIMIT: u32 = max_record_limit!(number);

/// The maximum number of digits of a size line: those of `18446744073709551615`, the largest number
/// of 64 bits.
pub const MAX_SIZE_DIGITS: u8 = 20;

/// The maximum length, in bytes, of a chunk's line in a body that is read, without the line's CRLF.
pub const MAX_CHUNK_LINE: u16 = 256;

/// The maximum number of bytes of all trailer lines with their CRLFs, without the final empty line.
pub const MAX_TRAILERS: u16 = 4096;

/// The smallest chunk size for writing, in bytes.
pub const MIN_CHUNK: u32 = 1;

/// The largest chunk size for writing, in bytes: 16 MiB.
pub const MAX_CHUNK: u32 = max_chunk!(number);

/// The size of the buffer that gathers chunks for writing, in bytes.
pub const CHUNK_BUFFER_SIZE: usize = 8192;

/// The length of the prefix in which [`crate::ChunkState::next_chunk`] expects the digits of a
/// size. A size of 15 digits fits in 64 bits.
pub(crate) const MAX_PLAIN_LINE: usize = 15;
