//! The media type of a body.

ghost use Rattle.std.specs.Prelude.{◌≡◌, ◌<◌, ◌==◌, length, reverse, position, IfSome};
ghost use Rattle.httparse.specs.Grammar.{is_ows, skip_ows, trim_ows};
ghost use Rattle.mes_double_http.specs.Fields.{before_semicolon, is_json_type};

use crate::fields::same_text;

/// Returns whether the value of a Content-Type is `application/json`, with or without parameters.
pub(crate) fn is_json_type(value: &[u8]) -> bool
    ensures { result ≡ is_json_type value.now }
{
    same_text(trim(before_semicolon(value)), b"application/json")
}

/// Returns the bytes before the first semicolon, or all bytes.
fn before_semicolon(value: &[u8]) -> &[u8]
    ensures { result.now ≡ before_semicolon value.now }
{
    match semicolon_in(value) {
        Some(place) => &value[..place],
        None => value,
    }
}

fn semicolon_in(value: &[u8]) -> Option<usize>
    ensures place { result ≡ position (λ b. b == 59) value.now }
    ensures bound { IfSome result (λ place. place < length value.now) }
{
    value.iter().position(|byte| *byte == b';')
}

/// Returns the text without spaces and tabs at its ends.
#[tactic(auto, unfolding(httparse::specs::Grammar::trim_ows))]
pub(crate) fn trim(text: &[u8]) -> &[u8]
    ensures { result.now ≡ trim_ows text.now }
{
    trim_end(trim_start(text))
}

fn trim_start(text: &[u8]) -> &[u8]
    ensures { result.now ≡ skip_ows text.now }
{
    let mut start = 0;
    while start < text.len() && is_ows(text[start]) {
        start += 1;
    }
    &text[start..]
}

fn trim_end(text: &[u8]) -> &[u8]
    ensures { result.now ≡ reverse (skip_ows (reverse text.now)) }
{
    let mut end = text.len();
    while end > 0 && is_ows(text[end - 1]) {
        end -= 1;
    }
    &text[..end]
}

fn is_ows(byte: u8) -> bool
    ensures { result ≡ is_ows byte }
{
    byte == b' ' || byte == b'\t'
}
