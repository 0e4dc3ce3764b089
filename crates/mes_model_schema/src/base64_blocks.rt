//! Blocks of sixteen base64 letters (RFC 4648 section 4), decoded with SIMD; `base64_text` decodes
//! the rest.
ghost use Rattle.std.specs.Prelude.{◌≡◌, ◌<◌, ◌≤◌, ◌+◌, ◌-◌, ◌*◌, ◌/◌, length, take, drop, map};
ghost use Rattle.std.specs.Simd.Lanes.{Each1};
ghost use Rattle.base64.specs.GeneralPurpose.{encode_of};
ghost use Rattle.base64.specs.Engines.{standard};
ghost use Rattle.mes_model_schema.specs.LetterValues.{letter_of, value_of, IsLetter};

use std::simd::prelude::*;

/// By the lower four bits of a byte: a bit for each class of `BY_HIGH` in which such a byte is no
/// letter.
const BY_LOW: [u8; 16] = [
    0x15, 0x11, 0x11, 0x11, 0x11, 0x11, 0x11, 0x11, 0x11, 0x11, 0x13, 0x1A, 0x1B, 0x1B, 0x1B, 0x1A,
];

/// By the upper four bits of a byte: the class of the sixteen bytes that share those bits. 1: `+`
/// and `/`; 2: digits; 4: `A` to `O` or `a` to `o`; 8: `P` to `Z` or `p` to `z`; 16: no letters.
const BY_HIGH: [u8; 16] = [
    0x10, 0x10, 0x01, 0x02, 0x04, 0x08, 0x04, 0x08, 0x10, 0x10, 0x10, 0x10, 0x10, 0x10, 0x10, 0x10,
];

/// By the upper four bits of a letter: the number that is added to it to get its value, modulo 256.
/// Index 1 is for `/` alone.
const TO_VALUE: [u8; 16] = [0, 16, 19, 4, 191, 191, 185, 185, 0, 0, 0, 0, 0, 0, 0, 0];

/// Decodes the blocks before the first one that has a byte that is no letter, and returns their
/// number. Each block writes four bytes too many, which later bytes overwrite. So the last five
/// bytes of the text are not decoded.
#[inline(always)]
pub(crate) fn decode_blocks(text: &[u8], octets: &mut [u8]) -> usize
    requires { (length text.now + 3) / 4 * 3 ≡ length octets.old }
    ensures ahead { 4 * result ≤ (length text.now - 1) / 4 }
    ensures in_octets { 12 * result ≤ length octets.new }
    ensures front { take (16 * result) text.now
        ≡ encode_of standard (take (12 * result) octets.new) }
{
    let blocks = text.len().saturating_sub(5) / 16;
    for block in 0..blocks {
        let letters = u8x16::from_slice(&text[16 * block..]);
        if faults(letters) != 0 {
            return block;
        }
        packed(values(letters)).copy_to_slice(&mut octets[12 * block..]);
    }
    blocks
}

/// Returns a bit for each byte of a block that is no letter.
#[inline(always)]
fn faults(letters: u8x16) -> u64
    ensures { result ≡ 0 → Each1 IsLetter letters }
{
    let by_low = u8x16::from_array(BY_LOW).swizzle_dyn(letters & u8x16::splat(15));
    let by_high = u8x16::from_array(BY_HIGH).swizzle_dyn(letters >> u8x16::splat(4));
    (by_low & by_high).simd_ne(u8x16::splat(0)).to_bitmask()
}

/// Returns the values of the letters of a block.
#[inline(always)]
fn values(letters: u8x16) -> u8x16
    ensures { Each1 IsLetter letters → result ≡ map value_of letters }
{
    let solidus = letters.simd_eq(u8x16::splat(b'/'));
    let row = solidus.select(u8x16::splat(1), letters >> u8x16::splat(4));
    letters + u8x16::from_array(TO_VALUE).swizzle_dyn(row)
}

/// Packs sixteen 6-bit values into twelve bytes, followed by four unused bytes. Four values make a
/// 24-bit number, stored highest byte first.
#[inline(always)]
fn packed(values: u8x16) -> u8x16
    ensures lanes { length result ≡ 16 }
    ensures exact { Each1 (λ v. v < 64) values
        → map letter_of values ≡ encode_of standard (take 12 result) }
{
    let upper = values.dot4(u8x16::from_array([
        64, 1, 0, 0, 64, 1, 0, 0, 64, 1, 0, 0, 64, 1, 0, 0,
    ]));
    let lower = values.dot4(u8x16::from_array([
        0, 0, 64, 1, 0, 0, 64, 1, 0, 0, 64, 1, 0, 0, 64, 1,
    ]));
    let groups = (upper << u32x4::splat(12)) + lower;
    groups
        .to_le_bytes()
        .swizzle([2, 1, 0, 6, 5, 4, 10, 9, 8, 14, 13, 12, 3, 7, 11, 15])
}
