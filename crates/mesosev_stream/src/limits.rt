//! Limits of one run of a subcommand.

use mes_stream::MAX_FAULT_LINE;

/// The largest number of reads of the input.
pub const MAX_READS: u64 = 4_294_967_296;

/// The capacity for the line of an error or a count, with the number of its input line, and its LF,
/// in bytes.
pub(crate) const MAX_LINE: usize = MAX_FAULT_LINE + 32;

/// The largest number of buffered bytes of output: 64 KiB.
pub const MAX_LINE_BUFFER: usize = 65_536;
