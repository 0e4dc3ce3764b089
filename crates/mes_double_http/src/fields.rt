//! Search for the fields of a head.

ghost use Rattle.std.specs.Prelude.{◌≡◌, length, map, All};
ghost use Rattle.httparse.specs.Spans.{IsHeaderWithin, header_bytes};
ghost use Rattle.std.specs.Str.{str_eq_ignore_ascii_case};
ghost use Rattle.mes_double_http.specs.Fields.{IsNamed, values_named};

use httparse::spans::HeaderSpan;

/// The values of the fields of a head that have a given name.
#[derive(Clone, Copy, Debug, PartialEq, Eq)]
pub(crate) enum Named<'b> {
    /// No field has the name.
    Nothing,
    /// One field has the name, with this value.
    One(&'b [u8]),
    /// At least two fields have the name.
    More,
}

/// Returns the values of the fields with this name.
pub(crate) fn find_field<'b>(bytes: &'b [u8], headers: &[HeaderSpan], name: &[u8]) -> Named<'b>
    requires { All (IsHeaderWithin (length bytes.now)) headers.now }
    ensures { IsNamed result (values_named name.now (map (header_bytes bytes.now) headers.now)) }
{
    let mut found = Named::Nothing;
    for header in headers {
        if same_text(header.name.of(bytes), name) {
            match found {
                Named::Nothing => found = Named::One(header.value.of(bytes)),
                _ => return Named::More,
            }
        }
    }
    found
}

/// Returns whether the texts are equal except for the case of ASCII letters.
pub(crate) fn same_text(text: &[u8], other: &[u8]) -> bool
    ensures { result ≡ str_eq_ignore_ascii_case text.now other.now }
{
    text.eq_ignore_ascii_case(other)
}
