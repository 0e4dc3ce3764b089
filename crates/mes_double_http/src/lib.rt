#![tactic(auto)]
//! The HTTP/1.1 heads of the scheduler API's calls and event streams (RFC 9112).
//!
//! A master reads requests with `read_request` and writes response heads; a client writes calls
//! with `write_call` and reads response heads. A head is read byte by byte, so that nothing after
//! it is consumed.
//!
//!     let request = read_request(alloc, &mut source)?;
//!     write_ok(&mut sink, &id)?;
//!
//! [`RequestReader`] reads consecutive requests from bytes that come in pieces, by the same rules.
//! It also reads the requests for the pages of a test master, and [`push_page_head`] appends the
//! head of the response with a page.
//!
//! The contracts of the readers promise that exactly a valid head and its body were read, or that
//! the error is the first fault ([`HeadFault`]). The tests check that a written call is read back.
//! The crate `mes_double_master` has the master's state. The tests are in `mes_double_http_tests`.

mod body;
mod call_writer;
mod content_length;
mod fault;
mod fields;
mod head;
mod host;
mod limits;
mod lines;
mod media_type;
mod page_request;
mod page_rules;
mod page_writer;
mod persistence;
mod request;
mod request_reader;
mod response;
mod response_writer;
mod rules;
mod stream_id;
mod target;
mod theorems;

pub use call_writer::write_call;
pub use fault::HeadFault;
pub use host::Host;
pub use limits::{
    MAX_BODY, MAX_FIELDS, MAX_HEAD, MAX_HEAD_FAULT, MAX_HOST, MAX_LENGTH_DIGITS, MAX_STREAM_ID,
};
pub use page_request::{NextPage, PageRequest};
pub use page_writer::{PageMedia, push_page_head};
pub use persistence::Persistence;
pub use request::{Request, read_request};
pub use request_reader::{NextRequest, RequestReader};
pub use response::{read_answer, read_head};
pub use response_writer::{push_ok, push_status, write_ok, write_status};
pub use stream_id::StreamId;
pub use theorems::http_limits;
