#![tactic(auto)]
//! Decodes and encodes event streams of the Apache Mesos v1 scheduler API: plain RecordIO, or
//! RecordIO in an HTTP chunked body (RFC 9112 section 7.1). Decodes JSON Lines too.
//!
//! [`Decoder`] takes a body in pieces of any size; [`read_stream`] and [`read_plain`] read a
//! device. They return every event before the first error, and the position of that error.
//! [`write_stream`] and [`write_plain`] encode, and write nothing unless every event can be
//! encoded.
//!
//!     let mut decoder = Decoder::new(rt.alloc(), Limit::USUAL);
//!     let step = decoder.next(piece); // step.used bytes of the piece were used
//!     match step.out {
//!         Decoded::Event(event) => handle(event), // continue with &piece[step.used..]
//!         Decoded::More => {} // give the next piece
//!         Decoded::End => return Ok(()),
//!         Decoded::Fault(fault) => return Err(fault),
//!     }
//!
//! Tests are in the crate `mes_stream_tests`, definitions in `specs/`.

mod chunked_body;
mod counted_reader;
mod decoder;
mod encode;
mod fault;
mod limits;
mod line;
mod line_body;
mod message;
mod message_reader;
mod packed_fault;
mod read_loop;
mod record_body;
mod record_error;
mod record_reader;
mod send;
mod send_fault_line;
mod step;
mod stream;
mod stream_reader;
mod theorems;

pub use chunked_body::ChunkedBody;
pub use counted_reader::{EndedRecord, Reading, ReadingStop};
pub use decoder::{Decoder, RecordDecoder};
pub use encode::{encode_all, encode_each, message_refs};
pub use fault::{Fault, Report, Stop};
pub use limits::{MAX_COUNT_LINE, MAX_FAULT_LINE, MAX_READ, MAX_REST};
pub use line::{count_line, counts_line, fault_line, push_number, push_word};
pub use line_body::LineBody;
pub use mes_msg::{EncodeFaultKind, SendFault};
pub use message::StreamMessage;
pub use message_reader::{CallReader, EventReader, MessageReader};
pub use packed_fault::PackedFault;
pub use read_loop::{Consumer, ReadsEnd, read_device};
pub use record_body::Body;
pub use record_error::RecordError;
pub use record_reader::RecordReader;
pub use send::{write_plain, write_stream};
pub use send_fault_line::{send_line, unsent_line};
pub use step::{Decoded, Step};
pub use stream::{read_messages, read_plain, read_stream};
pub use stream_reader::{Framing, StreamReader};
pub use theorems::{
    chunking_is_irrelevant, event_reading_is_unique, line_reading_is_unique, one_answer,
    one_decoding, one_line_outcome, one_plain_outcome, one_stream_outcome, plain_reading_is_unique,
    stream_limits, stream_reading_is_unique,
};
