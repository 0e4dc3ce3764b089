//! The faults of heads and bodies.

ghost use Rattle.std.specs.Prelude.{◌≡◌, ◌≤◌, length};
ghost use Rattle.mes_double_http.specs.Faults.{head_fault_text, head_fault_title, response_status};

use crate::limits::MAX_HEAD_FAULT;
use arrayvec::ArrayString;
use http::StatusCode;
use itoa::Buffer;

/// The reason for which a head, or the body after it, is refused. The first that applies is
/// returned, in the order of the numbers. For the head of a request the order is H8, H9, H6, H10,
/// H11, H7.
#[derive(Clone, Copy, Debug, PartialEq, Eq)]
pub enum HeadFault {
    /// H1: the reader failed.
    Read,
    /// H2: `MAX_HEAD` bytes were read, and they may be the beginning of a longer head.
    HeadTooLong,
    /// H3: the bytes are not a head, there are more than `MAX_FIELDS` fields, the reader ended, or
    /// the status is less than 100.
    BadHead,
    /// H4: the status of the response is not the expected one; the variant has the status.
    Status(StatusCode),
    /// H5: the body is not chunked.
    NotChunked,
    /// H6: the media type of the body is not `application/json`.
    NotJson,
    /// H7: the stream id is missing, repeated or invalid.
    NoStreamId,
    /// H8: the target is not that of the scheduler API.
    WrongPath,
    /// H9: the method is not POST.
    WrongMethod,
    /// H10: the length of the body is missing, ambiguous or invalid.
    NoLength,
    /// H11: the body has more than `MAX_BODY` bytes.
    BodyTooLong,
    /// H12: the reader ended in the body.
    ShortBody,
    /// H13: an allocation failed.
    NoMemory,
}

impl HeadFault {
    /// Replaces `text` with the number and the name of the fault, and for `Status` also the status
    /// code: `H4 Status 403`. Does not allocate.
    pub fn text(&self, text: &mut ArrayString<MAX_HEAD_FAULT>)
        ensures { text.new.bytes ≡ head_fault_text self.now }
    {
        text.clear();
        text.push_str(self.title());
        if let HeadFault::Status(code) = self {
            text.push_str(" ");
            text.push_str(Buffer::new().format(code.as_u16()));
        }
    }

    /// Returns the status of a master's response to a request that is refused so. `None`: there is
    /// no response, because the connection or the memory failed.
    pub fn response(&self) -> Option<StatusCode>
        ensures { result ≡ response_status self.now }
    {
        match self {
            HeadFault::WrongPath => Some(StatusCode::NOT_FOUND),
            HeadFault::WrongMethod => Some(StatusCode::METHOD_NOT_ALLOWED),
            HeadFault::Read | HeadFault::ShortBody | HeadFault::NoMemory => None,
            _ => Some(StatusCode::BAD_REQUEST),
        }
    }

    /// Returns the number and the name of the fault.
    pub fn title(&self) -> &'static str
        ensures text { result.now ≡ head_fault_title self.now }
        ensures bound { length result.now ≤ 15 }
    {
        match self {
            HeadFault::Read => "H1 Read",
            HeadFault::HeadTooLong => "H2 HeadTooLong",
            HeadFault::BadHead => "H3 BadHead",
            HeadFault::Status(_) => "H4 Status",
            HeadFault::NotChunked => "H5 NotChunked",
            HeadFault::NotJson => "H6 NotJson",
            HeadFault::NoStreamId => "H7 NoStreamId",
            HeadFault::WrongPath => "H8 WrongPath",
            HeadFault::WrongMethod => "H9 WrongMethod",
            HeadFault::NoLength => "H10 NoLength",
            HeadFault::BodyTooLong => "H11 BodyTooLong",
            HeadFault::ShortBody => "H12 ShortBody",
            HeadFault::NoMemory => "H13 NoMemory",
        }
    }
}
