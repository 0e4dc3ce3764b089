//! The errors of framing.

/// The reason why bytes are not records or not a chunked body, detected at the first byte that
/// cannot continue them.
#[derive(Clone, Copy, Debug, PartialEq, Eq)]
pub enum FrameFault {
    /// F1: a byte that a chunk's line cannot contain at this position, such as a LF without CR.
    BadChunkLine,
    /// F2: the byte after `MAX_CHUNK_LINE` bytes of a chunk's line, if neither it nor an earlier
    /// byte is a CR. Takes precedence over F1 and F3.
    ChunkLineTooLong,
    /// F3: the digit at which a chunk's size exceeds 2^64 - 1.
    ChunkTooLarge,
    /// F4: a byte other than CR LF after a chunk's data; after the last chunk, a LF without CR or a
    /// CR without LF.
    BadChunkEnd,
    /// F5: the byte after `MAX_TRAILERS` bytes of trailer lines with their CRLFs. Takes precedence
    /// over F4.
    TrailersTooLong,
    /// F7: in a size line, a byte that is neither a digit nor a LF after a digit.
    BadSizeLine,
    /// F8: the 21st digit of a size line.
    SizeLineTooLong,
    /// F9: the LF of a size line whose value exceeds the limit.
    RecordTooLarge,
}
