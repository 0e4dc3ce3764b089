//! The length of a body, from the fields of its head (RFC 9112 section 6.3).

ghost use Rattle.std.specs.Prelude.{◌≡◌, ◌+◌, ℕ, min, length, map, All, MatchOption};
ghost use Rattle.httparse.specs.Spans.{IsHeaderWithin, header_bytes};
ghost use Rattle.mes_double_http.specs.Requests.{IsLength, ReportsLength};

use crate::fields::{Named, find_field};
use crate::limits::{MAX_BODY, MAX_LENGTH_DIGITS};
use httparse::spans::HeaderSpan;

/// Returns the length of the body that the fields state, or `MAX_BODY + 1` for any larger length;
/// `None` if the length is missing, ambiguous or invalid.
pub(crate) fn body_length(bytes: &[u8], headers: &[HeaderSpan]) -> Option<u32>
    requires { All (IsHeaderWithin (length bytes.now)) headers.now }
    ensures { MatchOption result
        ((n : ℕ) → ReportsLength (map (header_bytes bytes.now) headers.now) n → ⊥)
        (λ reported. (n : ℕ) × ReportsLength (map (header_bytes bytes.now) headers.now) n
        × (reported ≡ min n (MAX_BODY + 1))) }
{
    match find_field(bytes, headers, b"transfer-encoding") {
        Named::Nothing => {}
        Named::One(_) | Named::More => return None,
    }
    match find_field(bytes, headers, b"content-length") {
        Named::One(value) => length_of(value),
        Named::Nothing | Named::More => None,
    }
}

/// Returns the number in the value of a Content-Length, or `MAX_BODY + 1` for any larger number;
/// `None` if the value is invalid.
fn length_of(value: &[u8]) -> Option<u32>
    ensures { MatchOption result ((n : ℕ) → IsLength value.now n
        → ⊥) (λ reported. (n : ℕ) × IsLength value.now n × (reported ≡ min n (MAX_BODY + 1))) }
{
    if value.is_empty() || value.len() > MAX_LENGTH_DIGITS {
        return None;
    }
    let mut length: u32 = 0;
    for digit in value {
        if !digit.is_ascii_digit() {
            return None;
        }
        length = (length * 10 + u32::from(*digit - b'0')).min(MAX_BODY + 1);
    }
    Some(length)
}
