//! Framing of a Mesos event stream: RecordIO records and HTTP chunked bodies (RFC 9112 section
//! 7.1).
//!
//! [`RecordState`] and [`ChunkState`] decode one byte at a time, and skip runs of data in one call.
//! They do not allocate, and report an error at the first byte that cannot continue the input.
//! [`write_record`] and [`write_chunked`] encode, and report how many bytes were written if a write
//! fails.
//!
//! ```ignore
//! let mut state = RecordState::new(Limit::USUAL);
//! for byte in b"2\n{}" {
//!     let out = state.step(*byte); // Quiet, Quiet, then Byte { last: false }, Byte { last: true }
//! }
//! ```
//!
//! [`Source`] and [`Sink`] are the devices that bytes come from and go to. Tests are in the crate
//! `mes_frame_tests`, definitions in `specs/`.
#![tactic(auto)]

mod chunk;
mod chunk_buffer;
mod chunk_writer;
mod counts;
mod device;
mod fault;
mod limit;
mod limits;
mod memory_sink;
mod memory_source;
mod part_writer;
mod record;
mod record_writer;
mod size_line;
mod std_device;
mod theorems;
mod write;

pub use crate::chunk::{ChunkOut, ChunkState};
pub use crate::chunk_writer::write_chunked;
pub use crate::counts::Counts;
pub use crate::device::{Sink, Source};
pub use crate::fault::FrameFault;
pub use crate::limit::Limit;
pub use crate::limits::{
    CHUNK_BUFFER_SIZE, DEFAULT_RECORD_LIMIT, MAX_CHUNK, MAX_CHUNK_LINE, MAX_RECORD_LIMIT,
    MAX_SIZE_DIGITS, MAX_TRAILERS, MIN_CHUNK, MIN_RECORD_LIMIT,
};
pub use crate::memory_sink::{MemorySink, MemoryStop};
pub use crate::memory_source::MemorySource;
pub use crate::record::{RecordOut, RecordState};
pub use crate::record_writer::write_record;
pub use crate::std_device::FromStd;
pub use crate::theorems::{
    chunk_reading_is_unique, chunk_state_is_unique, frame_limits, framing_is_unique,
    record_is_unique, record_reading_is_unique, record_state_is_unique, written_is_read,
};
pub use crate::write::{WriteFault, WriteFaultKind, write_all};
