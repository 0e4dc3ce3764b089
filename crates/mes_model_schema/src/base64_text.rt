//! Padded base64 (RFC 4648 section 4). `base64_blocks` decodes the front of a text, the tables of
//! `base64_letters` decode the rest.
ghost use Rattle.std.specs.Prelude.{◌≡◌, ◌≤◌, ◌<◌, ◌+◌, ◌*◌, ◌/◌, length, take, drop, IfOk, IfErr, IfSome};
ghost use Rattle.std.specs.Int.{w32, to_le_bytes};
ghost use Rattle.base64.specs.GeneralPurpose.{IsBytes, IsDecodeFailure, encode_of};
ghost use Rattle.base64.specs.Engines.{standard};

use crate::base64_blocks::decode_blocks;
use crate::base64_letters::{FIRST, FOURTH, NO, SECOND, THIRD};
use base64::engine::general_purpose::STANDARD;
use base64::{DecodeAllocError, decoded_len_estimate};
use std::alloc::Global;

/// The padding byte, which fills the last group of a base64 text.
const PADDING: u8 = b'=';

/// Decodes a text. An invalid text is decoded again by the `base64` crate, which returns the error.
pub(crate) fn decoded(alloc: Global, text: &[u8]) -> Result<Vec<u8>, DecodeAllocError>
    ensures exact { IfOk result (λ v. text.now ≡ encode_of standard v.items) }
    ensures bytes { IfOk result (λ v. IsBytes v.items) }
    ensures err { IfErr result (λ e. IsDecodeFailure standard text.now e) }
{
    let mut octets = vec![in alloc; 0u8; decoded_len_estimate(text.len())]?;
    match decode_into(text, octets.as_mut_slice()) {
        Some(count) => {
            octets.truncate(count);
            Ok(octets)
        }
        None => {
            drop(octets);
            STANDARD.decode(alloc, text)
        }
    }
}

/// Decodes a text and returns the number of bytes, or `None` if the text is empty or invalid. After
/// `None` the caller uses the decoder of the `base64` crate.
fn decode_into(text: &[u8], octets: &mut [u8]) -> Option<usize>
    requires { (length text.now + 3) / 4 * 3 ≡ length octets.old }
    ensures exact { IfSome result (λ n. text.now ≡ encode_of standard (take n octets.new)) }
    ensures bytes { IfSome result (λ n. IsBytes (take n octets.new)) }
{
    let groups = decode_front(text, octets);
    let (count, bytes) = last_group(&text[4 * groups..])?;
    let place = 3 * groups;
    octets[place..place + 3].copy_from_slice(&bytes.to_le_bytes()[..3]);
    Some(place + count)
}

/// Decodes the groups before the last one, or before the first that has a byte that is no letter,
/// and returns their number. Each group after the blocks writes one byte too many, which the next
/// group overwrites.
#[inline(never)]
fn decode_front(text: &[u8], octets: &mut [u8]) -> usize
    requires { (length text.now + 3) / 4 * 3 ≡ length octets.old }
    ensures in_text { 4 * result ≤ length text.now }
    ensures in_octets { 3 * result ≤ length octets.new }
    ensures front { take (4 * result) text.now ≡ encode_of standard (take (3 * result) octets.new) }
{
    let blocks = decode_blocks(text, octets);
    let groups = text.len().saturating_sub(1) / 4;
    for group in 4 * blocks..groups {
        let bytes = group_bytes(text, 4 * group);
        if bytes >= NO {
            return group;
        }
        octets[3 * group..3 * group + 4].copy_from_slice(&bytes.to_le_bytes());
    }
    groups
}

/// Returns the sum of the table entries of four bytes, less than `NO` if all are letters.
fn group_bytes(text: &[u8], at: usize) -> u32
    requires { at + 4 ≤ length text.now }
    ensures { result < NO → take 4 (drop at text.now)
        ≡ encode_of standard (take 3 (to_le_bytes w32 result)) }
{
    FIRST[text[at] as usize]
        + SECOND[text[at + 1] as usize]
        + THIRD[text[at + 2] as usize]
        + FOURTH[text[at + 3] as usize]
}

/// Decodes the last group: returns the number of its bytes, and the sum of its table entries.
/// Returns `None` if the group is invalid, or has unused bits that are not zero.
fn last_group(text: &[u8]) -> Option<(usize, u32)>
    ensures four { IfSome result (λ r. length text.now ≡ 4) }
    ensures few { IfSome result (λ r. r.0 ≤ 3) }
    ensures exact { IfSome result (λ r. text.now
        ≡ encode_of standard (take r.0 (to_le_bytes w32 r.1))) }
{
    if text.len() != 4 {
        return None;
    }
    if text[3] != PADDING {
        let bytes = group_bytes(text, 0);
        return if bytes < NO { Some((3, bytes)) } else { None };
    }
    let bytes = FIRST[text[0] as usize] + SECOND[text[1] as usize];
    if text[2] == PADDING {
        return if bytes < 0x100 {
            Some((1, bytes))
        } else {
            None
        };
    }
    let bytes = bytes + THIRD[text[2] as usize];
    if bytes < 0x1_0000 {
        Some((2, bytes))
    } else {
        None
    }
}
