//! Limits of one read and of the printed lines.

use mes_model_schema::MAX_PATH_TEXT;

/// The largest number of bytes of one read.
pub const MAX_READ: usize = 512;

/// The largest number of bytes after the end of the stream in a report: the bytes of one read.
pub const MAX_REST: usize = MAX_READ;

/// The capacity for the line of an error, in bytes: a path, two numbers of 20 digits and the words.
pub const MAX_FAULT_LINE: usize = MAX_PATH_TEXT + 128;

/// The capacity for the line of counts, in bytes: two numbers of 20 digits and the words.
pub const MAX_COUNT_LINE: usize = 64;

/// The largest number of remaining bytes of data in a short chunk.
pub(crate) const MAX_SHORT_CHUNK: u64 = 8;

/// The largest number of bytes of data that are joined from short chunks and decoded together.
pub(crate) const MAX_GATHERED: usize = 32;
