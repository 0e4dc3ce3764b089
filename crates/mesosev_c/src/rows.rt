//! Rows of a caller's buffer, one for each decoded event.

ghost use Rattle.std.specs.Prelude.{◌≡◌, map};
ghost use Rattle.mesosev_c.specs.Rows.{without_text};

/// A row describes one of many decoded events; their texts are concatenated in one buffer.
///
/// Has the memory layout of a `mes_event`, with the text's offset in place of the pointer.
#[repr(C)]
#[derive(Clone, Copy, Debug, PartialEq, Eq)]
pub struct Row {
    /// The number of the event's type.
    pub kind: u32,
    /// The offset of the event's text in the concatenated texts, in bytes.
    pub start: u64,
    /// The length of the event's text in bytes; 0 if it has none.
    pub size: u64,
}

/// Sets the offset and the length of the text to 0 in each row, after the texts were lost.
pub(crate) fn forget_texts(rows: &mut [Row])
    ensures { rows.new ≡ map without_text rows.old }
{
    for row in rows.iter_mut() {
        row.start = 0;
        row.size = 0;
    }
}
