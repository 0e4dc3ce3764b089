//! Scans the white space between tokens.
ghost use Rattle.std.specs.Prelude.{◌↔◌, ◌<◌, ◌≤◌, IsTrue, length, take, slice_index};
ghost use Rattle.std.specs.List.{AllByRecursion};
ghost use Rattle.mes_json.specs.Reader.{IsBlank};

/// Returns whether `byte` is white space (RFC 8259 section 2). The first comparison decides for
/// most bytes, which are above the space.
fn is_blank(byte: u8) -> bool
    ensures { IsTrue result ↔ IsBlank byte }
{
    byte <= b' ' && (byte == b' ' || byte == b'\n' || byte == b'\r' || byte == b'\t')
}

/// Returns the number of white space bytes at the front of `bytes`.
pub(crate) fn blank_run(bytes: &[u8]) -> usize
    ensures inside { result ≤ length bytes.now }
    ensures blank { AllByRecursion IsBlank (take result bytes.now) }
    ensures maximal { result < length bytes.now → IsBlank (slice_index bytes.now result) → ⊥ }
{
    for (place, byte) in bytes.iter().enumerate() {
        if !is_blank(*byte) {
            return place;
        }
    }
    bytes.len()
}
