//! Scans the characters of a string that are written without an escape. Characters of one byte are
//! scanned in `plain_scan`.
ghost use Rattle.std.specs.Prelude.{◌↔◌, ◌≤◌, IsTrue, length, take, slice_index};
ghost use Rattle.mes_json.specs.Reader.{StandAlone};

use crate::plain_scan::plain_run;

/// The maximum number of bytes of a UTF-8 character.
const LONGEST: usize = 4;

/// Returns the length of a prefix of whole characters without an escape (RFC 8259 section 7), not
/// always the longest.
#[inline(always)]
pub(crate) fn character_run(bytes: &[u8]) -> usize
    ensures inside { result ≤ length bytes.now }
    ensures whole { StandAlone (take result bytes.now) }
{
    let plain = plain_run(bytes);
    if plain == bytes.len() || bytes[plain] < 0x80 {
        return plain;
    }
    further(bytes, plain)
}

/// Continues from offset `from`, after characters without an escape. Not inlined, since most
/// strings end at that offset.
#[inline(never)]
fn further(bytes: &[u8], from: usize) -> usize
    requires inside { from ≤ length bytes.now }
    requires whole { StandAlone (take from bytes.now) }
    ensures inside { result ≤ length bytes.now }
    ensures whole { StandAlone (take result bytes.now) }
{
    let mut place = from;
    while place < bytes.len() && bytes[place] >= 0x80 {
        let wide = wide_run(&bytes[place..]);
        if wide == 0 {
            return place;
        }
        place += wide;
        place += plain_run(&bytes[place..]);
    }
    place
}

/// Returns the length of a prefix of multi-byte characters (RFC 3629 section 4) with single spaces
/// between them. Leaves the last three bytes, so that no character needs a check of the length.
fn wide_run(bytes: &[u8]) -> usize
    ensures inside { result ≤ length bytes.now }
    ensures whole { StandAlone (take result bytes.now) }
{
    if bytes.len() < LONGEST {
        return 0;
    }
    let last = bytes.len() - LONGEST;
    let mut place = 0;
    while place <= last {
        let wide = wide_character(&bytes[place..]);
        if wide == 0 {
            return place;
        }
        place += wide;
    }
    place
}

/// Returns the length of the first character, if it is a multi-byte character or a space before
/// one; otherwise 0.
#[inline(always)]
fn wide_character(bytes: &[u8]) -> usize
    requires { LONGEST ≤ length bytes.now }
    ensures inside { result ≤ length bytes.now }
    ensures whole { StandAlone (take result bytes.now) }
{
    match bytes[0] {
        0xC2..=0xDF => of_two(bytes),
        0xE0..=0xEF => of_three(bytes),
        0xF0..=0xF4 => of_four(bytes),
        _ => space_between(bytes),
    }
}

/// Accepts a space before a multi-byte character: to end the run between two words would cost more.
#[inline(always)]
#[tactic(auto, using(crate::proofs::CharacterLemmas::leads_nowhere, crate::proofs::CharacterLemmas::space_stands))]
fn space_between(bytes: &[u8]) -> usize
    requires { LONGEST ≤ length bytes.now }
    ensures inside { result ≤ length bytes.now }
    ensures whole { StandAlone (take result bytes.now) }
{
    if bytes[1] >= 0x80 && bytes[0] == b' ' {
        1
    } else {
        0
    }
}

#[inline(always)]
#[tactic(auto, using(crate::proofs::CharacterLemmas::leads_nowhere, crate::proofs::CharacterLemmas::two_stand))]
fn of_two(bytes: &[u8]) -> usize
    requires room { LONGEST ≤ length bytes.now }
    requires lead { (0xC2 ≤ slice_index bytes.now 0) × (slice_index bytes.now 0 ≤ 0xDF) }
    ensures inside { result ≤ length bytes.now }
    ensures whole { StandAlone (take result bytes.now) }
{
    if goes_on(bytes[1]) { 2 } else { 0 }
}

/// Accepts a character of three bytes, unless it is overlong (0xE0) or a surrogate (0xED).
#[inline(always)]
#[tactic(auto, using(crate::proofs::CharacterLemmas::leads_nowhere, crate::proofs::CharacterLemmas::three_stand))]
fn of_three(bytes: &[u8]) -> usize
    requires room { LONGEST ≤ length bytes.now }
    requires lead { (0xE0 ≤ slice_index bytes.now 0) × (slice_index bytes.now 0 ≤ 0xEF) }
    ensures inside { result ≤ length bytes.now }
    ensures whole { StandAlone (take result bytes.now) }
{
    if !goes_on(bytes[1]) || !goes_on(bytes[2]) {
        return 0;
    }
    match bytes[0] {
        0xE0 if bytes[1] < 0xA0 => 0,
        0xED if bytes[1] > 0x9F => 0,
        _ => 3,
    }
}

/// Accepts a character of four bytes, unless it is overlong (0xF0) or above U+10FFFF (0xF4).
#[inline(always)]
#[tactic(auto, using(crate::proofs::CharacterLemmas::leads_nowhere, crate::proofs::CharacterLemmas::four_stand))]
fn of_four(bytes: &[u8]) -> usize
    requires room { LONGEST ≤ length bytes.now }
    requires lead { (0xF0 ≤ slice_index bytes.now 0) × (slice_index bytes.now 0 ≤ 0xF4) }
    ensures inside { result ≤ length bytes.now }
    ensures whole { StandAlone (take result bytes.now) }
{
    if !goes_on(bytes[1]) || !goes_on(bytes[2]) || !goes_on(bytes[3]) {
        return 0;
    }
    match bytes[0] {
        0xF0 if bytes[1] < 0x90 => 0,
        0xF4 if bytes[1] > 0x8F => 0,
        _ => 4,
    }
}

/// Returns whether `byte` is a continuation byte.
#[inline(always)]
fn goes_on(byte: u8) -> bool
    ensures { IsTrue result ↔ (0x80 ≤ byte) × (byte ≤ 0xBF) }
{
    byte >= 0x80 && byte <= 0xBF
}
