//! Whether a connection stays open after a response (RFC 9112 section 9.3).

ghost use Rattle.std.specs.Prelude.{◌≡◌, length, map, All};
ghost use Rattle.httparse.specs.Spans.{IsHeaderWithin, header_bytes};
ghost use Rattle.mes_double_http.specs.Connections.{has_option, lists_option, persistence_by};

use crate::fields::same_text;
use crate::media_type::trim;
use httparse::spans::HeaderSpan;

/// What becomes of a connection after a response (RFC 9112 section 9.3).
#[derive(Clone, Copy, Debug, PartialEq, Eq)]
pub enum Persistence {
    /// The connection is closed, and the response says so.
    Close,
    /// The connection stays open: HTTP/1.1 without the option `close`.
    Keep,
    /// The connection stays open, and the response says so: HTTP/1.0 with the option `keep-alive`.
    KeepAlive,
}

/// Returns what becomes of the connection after the response to the request with these fields.
/// `version` is the minor version of HTTP/1.
pub(crate) fn persistence_of(bytes: &[u8], headers: &[HeaderSpan], version: u8) -> Persistence
    requires { All (IsHeaderWithin (length bytes.now)) headers.now }
    ensures { result ≡ persistence_by version (map (header_bytes bytes.now) headers.now) }
{
    if has_option(bytes, headers, b"close") {
        return Persistence::Close;
    }
    if version >= 1 {
        return Persistence::Keep;
    }
    if has_option(bytes, headers, b"keep-alive") {
        Persistence::KeepAlive
    } else {
        Persistence::Close
    }
}

/// Returns whether a field `Connection` lists the option.
fn has_option(bytes: &[u8], headers: &[HeaderSpan], option: &[u8]) -> bool
    requires { All (IsHeaderWithin (length bytes.now)) headers.now }
    ensures { result ≡ has_option option.now (map (header_bytes bytes.now) headers.now) }
{
    for header in headers {
        if same_text(header.name.of(bytes), b"connection")
            && lists_option(header.value.of(bytes), option)
        {
            return true;
        }
    }
    false
}

/// Returns whether the list, whose items are separated by commas, has the option as an item (RFC
/// 9110 section 5.6.1).
fn lists_option(value: &[u8], option: &[u8]) -> bool
    ensures { result ≡ lists_option option.now value.now }
{
    value
        .split(|byte| *byte == b',')
        .any(|item| same_text(trim(item), option))
}
