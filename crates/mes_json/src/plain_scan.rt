//! Scans the plain characters of a string: ASCII without an escape. Characters of all lengths are
//! scanned in `characters`.
ghost use Rattle.std.specs.Prelude.{◌≡◌, ◌↔◌, ◌+◌, ◌<◌, ◌≤◌, IsTrue, length, take, drop, slice_index};
ghost use Rattle.std.specs.List.{AllByRecursion};
ghost use Rattle.mes_json.specs.Reader.{IsPlain};

use std::simd::prelude::*;

/// The number of bytes compared in one step.
pub(crate) const BLOCK: usize = 16;

/// The number of bytes compared in one step when fewer than a block are left.
const HALF: usize = 8;

/// Returns the number of plain characters at the front of `bytes`. Most strings end in the first
/// block.
pub(crate) fn plain_run(bytes: &[u8]) -> usize
    ensures inside { result ≤ length bytes.now }
    ensures plain { AllByRecursion IsPlain (take result bytes.now) }
    ensures maximal { result < length bytes.now → IsPlain (slice_index bytes.now result) → ⊥ }
{
    let mut place = 0;
    while BLOCK <= bytes.len() - place {
        let front = first_in_block(bytes, place);
        if front < BLOCK {
            return place + front;
        }
        place += BLOCK;
    }
    if bytes.len() - place < HALF {
        return run_by_byte(bytes, place);
    }
    let front = first_in_half(bytes, place);
    if front < HALF {
        return place + front;
    }
    run_by_byte(bytes, place + HALF)
}

/// Continues byte by byte from offset `from`. Returns the offset of the first byte that is not
/// plain.
fn run_by_byte(bytes: &[u8], from: usize) -> usize
    requires room { from ≤ length bytes.now }
    requires before { AllByRecursion IsPlain (take from bytes.now) }
    ensures inside { result ≤ length bytes.now }
    ensures plain { AllByRecursion IsPlain (take result bytes.now) }
    ensures stops { result < length bytes.now → IsPlain (slice_index bytes.now result) → ⊥ }
{
    for place in from..bytes.len() {
        if !is_plain(bytes[place]) {
            return place;
        }
    }
    bytes.len()
}

/// Returns whether `byte` is a whole character that needs no escape in a string (RFC 8259 section
/// 7).
fn is_plain(byte: u8) -> bool
    ensures { IsTrue result ↔ IsPlain byte }
{
    byte >= 0x20 && byte < 0x80 && byte != b'"' && byte != b'\\'
}

/// Returns the number of plain characters at the front of the block at offset `place`.
#[inline(always)]
pub(crate) fn first_in_block(bytes: &[u8], place: usize) -> usize
    requires { place + BLOCK ≤ length bytes.now }
    ensures inside { result ≤ BLOCK }
    ensures plain { AllByRecursion IsPlain (take result (drop place bytes.now)) }
    ensures stops { result < BLOCK → IsPlain (slice_index bytes.now (place + result)) → ⊥ }
{
    let block = u8x16::from_slice(&bytes[place..]);
    let marked = block.simd_lt(u8x16::splat(0x20))
        | block.simd_ge(u8x16::splat(0x80))
        | block.simd_eq(u8x16::splat(b'"'))
        | block.simd_eq(u8x16::splat(b'\\'));
    let marks = marked.to_bitmask();
    if marks == 0 {
        BLOCK
    } else {
        marks.trailing_zeros() as usize
    }
}

/// Returns the number of plain characters at the front of the half block at offset `place`.
#[inline(always)]
fn first_in_half(bytes: &[u8], place: usize) -> usize
    requires { place + HALF ≤ length bytes.now }
    ensures inside { result ≤ HALF }
    ensures plain { AllByRecursion IsPlain (take result (drop place bytes.now)) }
    ensures stops { result < HALF → IsPlain (slice_index bytes.now (place + result)) → ⊥ }
{
    let half = u8x8::from_slice(&bytes[place..]);
    let marked = half.simd_lt(u8x8::splat(0x20))
        | half.simd_ge(u8x8::splat(0x80))
        | half.simd_eq(u8x8::splat(b'"'))
        | half.simd_eq(u8x8::splat(b'\\'));
    let marks = marked.to_bitmask();
    if marks == 0 {
        HALF
    } else {
        marks.trailing_zeros() as usize
    }
}
