//! Writing of the heads of responses with a page. `response_writer.rt` writes those without a body.

ghost use Rattle.std.specs.Prelude.{◌≡◌, ◌++◌, ◌≤◌, length, OnOk, OnErr};
ghost use Rattle.mes_double_http.specs.Texts.{media_type, connection_line, page_head};

use crate::limits::MAX_RESPONSE_HEAD;
use crate::persistence::Persistence;
use arrayvec::ArrayString;
use itoa::Buffer;
use std::alloc::AllocError;

/// The media type of a page.
#[derive(Clone, Copy, Debug, PartialEq, Eq)]
pub enum PageMedia {
    /// HTML in UTF-8.
    Html,
    /// JSON.
    Json,
}

/// Appends the head of the response with a page: status 200, for a body of `size` bytes that
/// follows. A browser does not store the page, shows it in no frame of another page, and reads it
/// only as this media type. Errors: an allocation failed; `out` is unchanged.
pub fn push_page_head(
    out: &mut Vec<u8>,
    media: PageMedia,
    size: usize,
    persistence: Persistence,
) -> Result<(), AllocError>
    ensures ok { OnOk result (out.new.items ≡ out.old.items ++ page_head persistence media size) }
    ensures err { OnErr result (out.new.items ≡ out.old.items) }
{
    let head = page_head(media, size, persistence);
    out.extend_from_slice(head.as_str().as_bytes())
}

fn page_head(
    media: PageMedia,
    size: usize,
    persistence: Persistence,
) -> ArrayString<MAX_RESPONSE_HEAD>
    ensures { result.bytes ≡ page_head persistence media size }
{
    let mut head = ArrayString::new();
    head.push_str("HTTP/1.1 200 OK\r\nContent-Type: ");
    head.push_str(media_type(media));
    head.push_str("\r\nContent-Length: ");
    head.push_str(Buffer::new().format(size));
    head.push_str("\r\nCache-Control: no-store");
    head.push_str("\r\nContent-Security-Policy: frame-ancestors 'none'");
    head.push_str("\r\nX-Content-Type-Options: nosniff\r\n");
    head.push_str(connection_line(persistence));
    head.push_str("\r\n");
    head
}

fn media_type(media: PageMedia) -> &'static str
    ensures text { result.now ≡ media_type media }
    ensures bound { length result.now ≤ 24 }
{
    match media {
        PageMedia::Html => "text/html; charset=utf-8",
        PageMedia::Json => "application/json",
    }
}

/// Returns the line of the field `Connection`, or an empty text.
fn connection_line(persistence: Persistence) -> &'static str
    ensures text { result.now ≡ connection_line persistence }
    ensures bound { length result.now ≤ 24 }
{
    match persistence {
        Persistence::Close => "Connection: close\r\n",
        Persistence::Keep => "",
        Persistence::KeepAlive => "Connection: keep-alive\r\n",
    }
}
