//! The rules for the fields of a request for a page: `Host`, `Origin`, and the body.

ghost use Rattle.std.specs.Prelude.{◌≡◌, ◌↔◌, ◌&&◌, ◌++◌, ◌≤◌, nat_le, ℕ, length, take, drop, map, codes, All, IsTrue, MatchOption};
ghost use Rattle.std.specs.Char.{is_ascii_digit};
ghost use Rattle.std.specs.List.{list_all};
ghost use Rattle.std.specs.Str.{str_eq_ignore_ascii_case};
ghost use Rattle.httparse.specs.Spans.{IsHeaderWithin, header_bytes};
ghost use Rattle.mes_double_http.specs.Fields.{values_named};
ghost use Rattle.mes_double_http.specs.Pages.{is_port, names_host, is_loopback, is_origin_of, is_local, HasNoBody, HasBody};
ghost use Rattle.mes_double_http.specs.Requests.{ReportsLength};

use crate::content_length::body_length;
use crate::fields::{Named, find_field, same_text};
use crate::limits::MAX_BODY;
use crate::page_request::Resource;
use crate::rules::is_json;
use httparse::spans::HeaderSpan;

/// Returns whether there is exactly one `Host`, which names this machine, and no `Origin` or only
/// that of the pages of this host.
pub(crate) fn is_local(bytes: &[u8], headers: &[HeaderSpan]) -> bool
    requires { All (IsHeaderWithin (length bytes.now)) headers.now }
    ensures { result ≡ is_local (map (header_bytes bytes.now) headers.now) }
{
    match find_field(bytes, headers, b"host") {
        Named::One(host) => is_loopback(host) && has_origin_of(bytes, headers, host),
        Named::Nothing | Named::More => false,
    }
}

/// Returns whether there is no `Origin`, or exactly one, which is that of the pages of this host.
fn has_origin_of(bytes: &[u8], headers: &[HeaderSpan], host: &[u8]) -> bool
    requires { All (IsHeaderWithin (length bytes.now)) headers.now }
    ensures { result
        ≡ is_origin_of host.now
        (values_named (codes "origin") (map (header_bytes bytes.now) headers.now)) }
{
    match find_field(bytes, headers, b"origin") {
        Named::Nothing => true,
        Named::One(value) => is_joined(value, b"http://", host),
        Named::More => false,
    }
}

/// Returns whether the value of a `Host` names this machine, with or without a port.
fn is_loopback(value: &[u8]) -> bool
    ensures { result ≡ is_loopback value.now }
{
    names_host(value, b"localhost")
        || names_host(value, b"127.0.0.1")
        || names_host(value, b"[::1]")
}

/// Returns whether the value of a `Host` is this host, with or without a port.
fn names_host(value: &[u8], host: &[u8]) -> bool
    ensures { result ≡ names_host host.now value.now }
{
    let (front, port) = split(value, host.len());
    same_text(front, host) && is_port(port)
}

/// Returns whether the text is these two, one after the other, except for the case of ASCII
/// letters.
fn is_joined(text: &[u8], first: &[u8], second: &[u8]) -> bool
    ensures { result ≡ str_eq_ignore_ascii_case text.now (first.now ++ second.now) }
{
    let (front, rest) = split(text, first.len());
    same_text(front, first) && same_text(rest, second)
}

/// Returns the first `count` bytes, or all if there are fewer, and the bytes after them.
fn split(text: &[u8], count: usize) -> (&[u8], &[u8])
    ensures front { result.0.now ≡ take count text.now }
    ensures rest { result.1.now ≡ drop count text.now }
{
    let place = text.len().min(count);
    (&text[..place], &text[place..])
}

/// Returns whether the text is empty, or a colon and 1 to 5 digits.
fn is_port(text: &[u8]) -> bool
    ensures { result ≡ is_port text.now }
{
    if text.is_empty() {
        return true;
    }
    text[0] == b':' && is_port_number(&text[1..])
}

/// Returns whether the text is 1 to 5 digits.
fn is_port_number(digits: &[u8]) -> bool
    ensures { result
        ≡ (nat_le 1 (length digits.now)
        && (nat_le (length digits.now) 5 && list_all is_ascii_digit digits.now)) }
{
    1 <= digits.len() && digits.len() <= 5 && are_digits(digits)
}

fn are_digits(text: &[u8]) -> bool
    ensures { result ≡ list_all is_ascii_digit text.now }
{
    text.iter().all(|byte| byte.is_ascii_digit())
}

/// Returns the length of the body that the fields announce, or `None` if a request for this
/// resource may not announce it.
pub(crate) fn length_for(resource: Resource, bytes: &[u8], headers: &[HeaderSpan]) -> Option<usize>
    requires { All (IsHeaderWithin (length bytes.now)) headers.now }
    ensures { MatchOption result
        ((n : ℕ) → HasBody resource (map (header_bytes bytes.now) headers.now) n → ⊥)
        (HasBody resource (map (header_bytes bytes.now) headers.now)) }
{
    match resource {
        Resource::Page | Resource::State => {
            if has_no_body(bytes, headers) {
                Some(0)
            } else {
                None
            }
        }
        Resource::Fault => {
            if is_json(bytes, headers) {
                few_bytes(bytes, headers)
            } else {
                None
            }
        }
    }
}

/// Returns the length of the body that the fields state, or `None` if the length is missing,
/// ambiguous, invalid, or more than `MAX_BODY`.
fn few_bytes(bytes: &[u8], headers: &[HeaderSpan]) -> Option<usize>
    requires { All (IsHeaderWithin (length bytes.now)) headers.now }
    ensures { MatchOption result
        ((n : ℕ) → ReportsLength (map (header_bytes bytes.now) headers.now) n → n ≤ MAX_BODY → ⊥)
        (λ n. ReportsLength (map (header_bytes bytes.now) headers.now) n × (n ≤ MAX_BODY)) }
{
    match body_length(bytes, headers) {
        Some(length) => {
            if length <= MAX_BODY {
                Some(length as usize)
            } else {
                None
            }
        }
        None => None,
    }
}

/// Returns whether the fields announce no body: no length, or the length 0.
fn has_no_body(bytes: &[u8], headers: &[HeaderSpan]) -> bool
    requires { All (IsHeaderWithin (length bytes.now)) headers.now }
    ensures { IsTrue result ↔ HasNoBody (map (header_bytes bytes.now) headers.now) }
{
    match find_field(bytes, headers, b"content-length") {
        Named::Nothing => match find_field(bytes, headers, b"transfer-encoding") {
            Named::Nothing => true,
            Named::One(_) | Named::More => false,
        },
        Named::One(_) | Named::More => match body_length(bytes, headers) {
            Some(length) => length == 0,
            None => false,
        },
    }
}
