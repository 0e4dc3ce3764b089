//! The bytes that the text of an example row (`rows.rt`) represents.

use crate::outcome::Reported;
use arrayvec::ArrayVec;

// The maximum length of the input or output of an example row, in bytes.
const BYTES_MOST: usize = 2_048;

/// A buffer of at most `BYTES_MOST` bytes that does not allocate.
pub(crate) type Bytes = ArrayVec<u8, BYTES_MOST>;

/// Converts the text of an example row into bytes: `|` becomes CR LF, `~` becomes LF.
pub(crate) fn bytes_of(text: &str) -> Result<Bytes, Reported> {
    let mut bytes = ArrayVec::new();
    for byte in text.as_bytes() {
        if !has_added(&mut bytes, *byte) {
            return Err(Reported::fault("too many bytes"));
        }
    }
    Ok(bytes)
}

// Appends the bytes that `byte` represents. Returns whether the buffer had space.
fn has_added(bytes: &mut Bytes, byte: u8) -> bool {
    let added = match byte {
        b'|' => bytes.try_extend_from_slice(b"\r\n"),
        b'~' => bytes.try_extend_from_slice(b"\n"),
        other => bytes.try_extend_from_slice(&[other]),
    };
    added.is_ok()
}
