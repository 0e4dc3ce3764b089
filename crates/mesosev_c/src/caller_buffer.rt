//! Copying of a text into a caller's buffer.

ghost use Rattle.std.specs.Prelude.{◌≡◌, length};
ghost use Rattle.mesosev_c.specs.Rooms.{with_text};

/// Copies as much of `text` as fits to the front of `room`, the caller's buffer. The rest of `room`
/// is unchanged.
pub(crate) fn put_text(text: &[u8], room: &mut [u8])
    ensures { room.new ≡ with_text room.old text.now }
{
    let count = text.len().min(room.len());
    room[..count].copy_from_slice(&text[..count]);
}
