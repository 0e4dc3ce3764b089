//! Scans the bytes of a text that need no escape in a JSON string.
ghost use Rattle.std.specs.Prelude.{◌≡◌, ◌↔◌, ◌+◌, ◌<◌, ◌≤◌, IsTrue, length, take, drop, slice_index};
ghost use Rattle.std.specs.List.{AllByRecursion};
ghost use Rattle.mes_json.specs.Canonical.{IsKept};

use crate::plain_scan::BLOCK;
use crate::write_string::is_escaped;
use std::simd::prelude::*;

/// Returns the number of bytes at the front of `bytes` that need no escape: all but control
/// characters, `"` and `\` (RFC 8259 section 7).
pub(crate) fn kept_run(bytes: &[u8]) -> usize
    ensures inside { result ≤ length bytes.now }
    ensures kept { AllByRecursion IsKept (take result bytes.now) }
    ensures maximal { result < length bytes.now → IsKept (slice_index bytes.now result) → ⊥ }
{
    let mut place = 0;
    while BLOCK <= bytes.len() - place {
        let front = kept_in_block(bytes, place);
        if front < BLOCK {
            return place + front;
        }
        place += BLOCK;
    }
    kept_by_byte(bytes, place)
}

/// Continues byte by byte from offset `from`. Returns the offset of the first byte that needs an
/// escape.
fn kept_by_byte(bytes: &[u8], from: usize) -> usize
    requires room { from ≤ length bytes.now }
    requires before { AllByRecursion IsKept (take from bytes.now) }
    ensures inside { result ≤ length bytes.now }
    ensures kept { AllByRecursion IsKept (take result bytes.now) }
    ensures stops { result < length bytes.now → IsKept (slice_index bytes.now result) → ⊥ }
{
    for place in from..bytes.len() {
        if !is_kept(bytes[place]) {
            return place;
        }
    }
    bytes.len()
}

/// Returns whether `byte` needs no escape.
fn is_kept(byte: u8) -> bool
    ensures { IsTrue result ↔ IsKept byte }
{
    !is_escaped(byte)
}

/// Returns the number of bytes at the front of the block at offset `place` that need no escape.
fn kept_in_block(bytes: &[u8], place: usize) -> usize
    requires { place + BLOCK ≤ length bytes.now }
    ensures inside { result ≤ BLOCK }
    ensures kept { AllByRecursion IsKept (take result (drop place bytes.now)) }
    ensures stops { result < BLOCK → IsKept (slice_index bytes.now (place + result)) → ⊥ }
{
    let block = u8x16::from_slice(&bytes[place..]);
    let marked = block.simd_lt(u8x16::splat(0x20))
        | block.simd_eq(u8x16::splat(b'"'))
        | block.simd_eq(u8x16::splat(b'\\'));
    let marks = marked.to_bitmask();
    if marks == 0 {
        BLOCK
    } else {
        marks.trailing_zeros() as usize
    }
}
