//! Counting of the complete lines of an incomplete head.

ghost use Rattle.std.specs.Prelude.{◌≡◌};
ghost use Rattle.httparse.specs.Pieces.{is_newline};
ghost use Rattle.mes_double_http.specs.Heads.{from_start_line, field_lines};

/// Returns the number of complete lines after the start line.
pub(crate) fn field_lines(taken: &[u8]) -> usize
    ensures { result ≡ field_lines taken.now }
{
    let lines = from_start_line(taken)
        .iter()
        .filter(|byte| **byte == b'\n')
        .count();
    lines.saturating_sub(1)
}

/// Returns the bytes from the start line on, without the empty lines before it.
fn from_start_line(taken: &[u8]) -> &[u8]
    ensures { result.now ≡ from_start_line taken.now }
{
    let mut start = 0;
    while start < taken.len() && is_newline(taken[start]) {
        start += 1;
    }
    &taken[start..]
}

fn is_newline(byte: u8) -> bool
    ensures { result ≡ is_newline byte }
{
    byte == b'\r' || byte == b'\n'
}
