//! Appending of an event's canonical text to those of earlier events.

ghost use Rattle.std.specs.Prelude.{◌≡◌};
ghost use Rattle.mesosev_c.specs.EventTexts.{AppendsText};

use mes_frame::Limit;
use mes_model_schema::Part;
use mes_model_schema::json::MAX_NESTING;
use mes_msg::Event;
use std::alloc::Global;

/// The outcome of appending an event's text.
#[derive(Clone, Copy, Debug, PartialEq, Eq)]
pub(crate) enum Appended {
    /// The text was appended.
    Whole,
    /// The event's text nests too deep or is too large; the earlier texts are unchanged.
    Unfit,
    /// An allocation failed, and the earlier texts are cleared too.
    Lost,
}

/// Appends the canonical text of an event to `texts`, if it nests at most `MAX_NESTING` deep and
/// has at most `Limit::LARGEST` bytes.
pub(crate) fn append_text(alloc: Global, event: &Event, texts: &mut Vec<u8>) -> Appended
    ensures { AppendsText event.now texts.old.items texts.new.items result }
{
    let start = texts.len();
    let Ok(depth) = event.write_json(alloc, texts) else {
        texts.clear();
        return Appended::Lost;
    };
    if depth <= MAX_NESTING as u64 && texts.len() - start <= Limit::LARGEST.get() as usize {
        return Appended::Whole;
    }
    texts.truncate(start);
    Appended::Unfit
}
