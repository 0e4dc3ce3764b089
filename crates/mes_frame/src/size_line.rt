//! Writes size lines, each at the end of a buffer that has room for the longest one.
ghost use Rattle.std.specs.Prelude.{◌≡◌, ◌<◌, false, [], ◌∷◌, ◌++◌, decimal};
ghost use Rattle.std.specs.Fmt.{digits, digit_glyph};

use itoa::write_digits;

/// The length of a record's longest size line: 20 digits and LF.
pub(crate) const MAX_RECORD_LINE: usize = 21;

/// The length of a chunk's longest line: 16 digits and CRLF.
pub(crate) const MAX_CHUNK_LINE_WRITTEN: usize = 18;

// Returns the size line of a record of `size` bytes.
pub(crate) fn record_line(size: u64, buffer: &mut [u8; MAX_RECORD_LINE]) -> &[u8]
    ensures { result.now ≡ decimal size ++ 10 ∷ [] }
{
    buffer[20] = b'\n';
    let start = write_digits(size, buffer, 20);
    &buffer[start..]
}

// Returns the line of a chunk of `size` bytes, with lower-case hexadecimal digits.
pub(crate) fn chunk_line(size: u64, buffer: &mut [u8; MAX_CHUNK_LINE_WRITTEN]) -> &[u8]
    ensures { result.now ≡ digits 16 false size ++ 13 ∷ 10 ∷ [] }
{
    buffer[16] = b'\r';
    buffer[17] = b'\n';
    let mut start = 16;
    let mut rest = size;
    loop {
        start -= 1;
        buffer[start] = hex_digit((rest % 16) as u8);
        rest /= 16;
        if rest == 0 {
            break;
        }
    }
    &buffer[start..]
}

fn hex_digit(digit: u8) -> u8
    requires { digit < 16 }
    ensures { result ≡ digit_glyph false digit }
{
    if digit < 10 {
        b'0' + digit
    } else {
        b'a' + (digit - 10)
    }
}
