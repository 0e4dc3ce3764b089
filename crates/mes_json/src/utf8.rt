//! The states between and within the characters of a string (RFC 3629 section 4, RFC 8259 section
//! 7).
ghost use Rattle.std.specs.Prelude.{◌≡◌, ◌≤◌, option_map};
ghost use Rattle.mes_json.specs.Machine.{lead, after_byte};
ghost use Rattle.mes_json.specs.Reader.{mid_view};

use crate::escape::Escape;

/// The part of a character that has been read.
#[derive(Clone, Copy)]
pub(crate) enum Utf8State {
    /// No byte of a character: the next byte begins a character or an escape, or ends the string.
    Between,
    /// A part of a character: `more` bytes are expected, the next byte from `least` to `most`.
    Within { more: u8, least: u8, most: u8 },
    /// A part of an escape.
    Escape(Escape),
}

impl Utf8State {
    /// Returns the state after the first byte of a character, or `None` if no character begins with
    /// `byte`.
    #[inline(always)]
    pub(crate) fn lead(byte: u8) -> Option<Utf8State>
        ensures { option_map mid_view result ≡ lead byte }
    {
        let (more, least, most) = match byte {
            0x00..=0x7F => return Some(Utf8State::Between),
            0xC2..=0xDF => (1, 0x80, 0xBF),
            0xE0 => (2, 0xA0, 0xBF),
            0xED => (2, 0x80, 0x9F),
            0xE1..=0xEF => (2, 0x80, 0xBF),
            0xF0 => (3, 0x90, 0xBF),
            0xF1..=0xF3 => (3, 0x80, 0xBF),
            0xF4 => (3, 0x80, 0x8F),
            _ => return None,
        };
        Some(Utf8State::Within { more, least, most })
    }

    /// Returns the state after a further byte of a character, if `more` bytes were expected before
    /// that byte.
    #[inline(always)]
    pub(crate) fn after(more: u8) -> Utf8State
        ensures { mid_view result ≡ after_byte more }
    {
        if more < 2 {
            Utf8State::Between
        } else {
            Utf8State::Within {
                more: more - 1,
                least: 0x80,
                most: 0xBF,
            }
        }
    }
}
