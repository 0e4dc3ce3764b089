//! The states within an escape of a string (RFC 8259 section 7).
ghost use Rattle.std.specs.Prelude.{◌≡◌, ◌<◌, ◌≤◌, ◌⊎◌, Some, length, take, slice_index, IfSome};
ghost use Rattle.std.specs.Option.{OnSome};
ghost use Rattle.mes_json.specs.Escape.{HasBounds, hex_of, short_of, two_digits, four_digits, pair_of, escape_step, made_of};
ghost use Rattle.mes_json.specs.Escape.Escape.{backslash};
ghost use Rattle.mes_json.specs.Escape.Move.{on};
ghost use Rattle.mes_json.specs.EscapeView.{escape_view, move_view};

/// The part of an escape that has been read.
#[derive(Clone, Copy)]
pub(crate) enum Escape {
    Backslash,
    /// `\u`.
    Unit0,
    /// `\u` and one digit, with its value.
    Unit1(u8),
    /// `\u` and two digits, with their value; not the first two digits of a low surrogate.
    Unit2(u8),
    /// `\u` and three digits, with their value.
    Unit3(u16),
    /// The escape of a high surrogate.
    High(u16),
    /// The escape of a high surrogate, and a backslash.
    HighBackslash(u16),
    /// The escape of a high surrogate, and `\u`.
    Low0(u16),
    /// The escape of a high surrogate, `\u` and the digit D.
    Low1(u16),
    /// The escape of a high surrogate, `\u` and two digits of a low surrogate, with the digits'
    /// value.
    Low2 { high: u16, value: u8 },
    /// The escape of a high surrogate, `\u` and three digits of a low surrogate, with the digits'
    /// value.
    Low3 { high: u16, value: u16 },
}

/// The effect of a byte in an escape.
pub(crate) enum Move {
    /// The escape continues.
    On(Escape),
    /// The escape ends and represents this character.
    Makes(char),
    /// No escape continues with the byte.
    Refused,
}

fn hex(byte: u8) -> Option<u8>
    ensures value { result ≡ hex_of byte }
    ensures small { IfSome result (λ x. x < 16) }
{
    match byte {
        b'0'..=b'9' => Some(byte - b'0'),
        b'A'..=b'F' => Some(byte - b'A' + 10),
        b'a'..=b'f' => Some(byte - b'a' + 10),
        _ => None,
    }
}

/// Returns the effect of a byte other than `u` after the backslash.
fn short(byte: u8) -> Move
    ensures { move_view result ≡ short_of byte }
{
    match byte {
        b'"' | b'\\' | b'/' => Move::Makes(byte as char),
        b'b' => Move::Makes('\u{8}'),
        b'f' => Move::Makes('\u{C}'),
        b'n' => Move::Makes('\n'),
        b'r' => Move::Makes('\r'),
        b't' => Move::Makes('\t'),
        _ => Move::Refused,
    }
}

/// Returns the effect of the second digit; `value` is that of both digits.
fn two_digits(value: u8) -> Move
    ensures { move_view result ≡ two_digits value }
{
    match value {
        0xDC..=0xDF => Move::Refused,
        _ => Move::On(Escape::Unit2(value)),
    }
}

/// Returns the effect of the fourth digit; `value` is that of all four digits.
fn four_digits(value: u16) -> Move
    requires { (value < 0xDC00) ⊎ (0xE000 ≤ value) }
    ensures { move_view result ≡ four_digits value }
{
    match value {
        0xD800..=0xDBFF => Move::On(Escape::High(value)),
        _ => Move::Makes(unsafe { char::from_u32_unchecked(u32::from(value)) }),
    }
}

/// Returns the character of a surrogate pair.
fn pair(high: u16, low: u16) -> char
    requires high { (0xD800 ≤ high) × (high ≤ 0xDBFF) }
    requires low { (0xDC00 ≤ low) × (low ≤ 0xDFFF) }
    ensures { result ≡ pair_of high low }
{
    let code = 0x1_0000 + (u32::from(high) - 0xD800) * 0x400 + (u32::from(low) - 0xDC00);
    unsafe { char::from_u32_unchecked(code) }
}

/// Returns the character of a whole escape at the front of `bytes`, and the number of bytes used.
/// The bytes follow the backslash. Accepts one letter, or `u` and four digits that are no
/// surrogate.
#[inline(always)]
pub(crate) fn whole_escape(bytes: &[u8]) -> Option<(char, usize)>
    ensures inside { IfSome result (λ e. e.1 ≤ length bytes.now) }
    ensures makes { IfSome result (λ e. made_of (on backslash) (take e.1 bytes.now) ≡ Some e.0) }
{
    if bytes.is_empty() {
        return None;
    }
    if bytes[0] == b'u' {
        return Some((unit(bytes)?, 5));
    }
    match short(bytes[0]) {
        Move::Makes(character) => Some((character, 1)),
        Move::On(_) | Move::Refused => None,
    }
}

/// Returns the character of `u` and four digits at the front of `bytes`, unless it is a surrogate.
#[inline(always)]
fn unit(bytes: &[u8]) -> Option<char>
    requires begins { (0 < length bytes.now) × (slice_index bytes.now 0 ≡ 117) }
    ensures inside { OnSome result (5 ≤ length bytes.now) }
    ensures makes { IfSome result (λ c. made_of (on backslash) (take 5 bytes.now) ≡ Some c) }
{
    if bytes.len() < 5 {
        return None;
    }
    let front = hex(bytes[1])? * 16 + hex(bytes[2])?;
    let back = hex(bytes[3])? * 16 + hex(bytes[4])?;
    char::from_u32(u32::from(front) * 256 + u32::from(back))
}

impl Escape {
    #[inline(always)]
    pub(crate) fn step(self, byte: u8) -> Move
        requires { HasBounds (escape_view self) }
        ensures { move_view result ≡ escape_step (escape_view self) byte }
    {
        match (self, hex(byte)) {
            (Escape::Backslash, _) if byte == b'u' => Move::On(Escape::Unit0),
            (Escape::Backslash, _) => short(byte),
            (Escape::High(high), _) if byte == b'\\' => Move::On(Escape::HighBackslash(high)),
            (Escape::HighBackslash(high), _) if byte == b'u' => Move::On(Escape::Low0(high)),
            (Escape::Unit0, Some(digit)) => Move::On(Escape::Unit1(digit)),
            (Escape::Unit1(value), Some(digit)) => two_digits(value * 16 + digit),
            (Escape::Unit2(value), Some(digit)) => Move::On(Escape::Unit3(
                u16::from(value) * 16 + u16::from(digit),
            )),
            (Escape::Unit3(value), Some(digit)) => four_digits(value * 16 + u16::from(digit)),
            (Escape::Low0(high), Some(13)) => Move::On(Escape::Low1(high)),
            (Escape::Low1(high), Some(digit)) if digit >= 12 => Move::On(Escape::Low2 {
                high,
                value: 13 * 16 + digit,
            }),
            (Escape::Low2 { high, value }, Some(digit)) => Move::On(Escape::Low3 {
                high,
                value: u16::from(value) * 16 + u16::from(digit),
            }),
            (Escape::Low3 { high, value }, Some(digit)) => Move::Makes(pair(
                high,
                value * 16 + u16::from(digit),
            )),
            _ => Move::Refused,
        }
    }
}
