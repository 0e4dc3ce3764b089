//! The reader's fast path for short strings: one block of bytes has all characters and the closing
//! quotation mark.
ghost use Rattle.std.specs.Prelude.{◌≡◌, ◌⊎◌, ◌+◌, ◌<◌, ◌≤◌, true, false, length, take, drop, slice_index, IfSome};
ghost use Rattle.mes_json.specs.Reader.{Fits, HasRoom, Puts, Reached, RunsTo, StandAlone, Stays, string_node, within_string};

use crate::plain_scan::{BLOCK, first_in_block};
use crate::reader::Reader;
use crate::reader_state::{Purpose, ReaderState};
use crate::tape::{Node, text_span};

impl Reader {
    /// Returns the number of characters of a short string that continues at `from`. In a short
    /// string all characters are plain, and the block at `from` includes the closing quotation
    /// mark. Returns `None` for any other string, or if there is no capacity for a block and a
    /// node.
    #[inline(always)]
    pub(crate) fn short_run(&self, bytes: &[u8], from: usize) -> Option<usize>
        requires { from ≤ length bytes.now }
        ensures block { IfSome result (λ count. (count < BLOCK)
            × (from + BLOCK ≤ length bytes.now)) }
        ensures whole { IfSome result (λ count. StandAlone (take count (drop from bytes.now))) }
        ensures quote { IfSome result (λ count. slice_index bytes.now (from + count) ≡ 34) }
        ensures room { IfSome result (λ _. HasRoom self.now) }
    {
        if bytes.len() - from < BLOCK || !self.text.has_block() || !self.nodes.has_room() {
            return None;
        }
        let count = first_in_block(bytes, from);
        if count == BLOCK || bytes[from + count] != b'"' {
            return None;
        }
        Some(count)
    }

    /// Reads a string of `count` characters that is a value, from its opening quotation mark at
    /// `from`. Reads nothing if the texts would exceed `MAX_TEXTS`.
    #[inline(always)]
    pub(crate) fn take_short_text(&mut self, bytes: &[u8], from: usize, count: usize) -> usize
        requires at { self.old.at ≡ ReaderState.Value }
        requires begins { slice_index bytes.now from ≡ 34 }
        requires few { count < BLOCK }
        requires block { from + 1 + BLOCK ≤ length bytes.now }
        requires whole { StandAlone (take count (drop (from + 1) bytes.now)) }
        requires ends { slice_index bytes.now (from + 1 + count) ≡ 34 }
        requires room { HasRoom self.old }
        requires fits { Fits self.old }
        requires reached { Reached self.old }
        ensures { RunsTo self.old bytes.now from result self.new }
    {
        if self.put_short(
            Purpose::Value,
            &bytes[from + 1..],
            count,
            ReaderState::After,
        ) {
            from + 1 + count + 1
        } else {
            from
        }
    }

    /// Like `take_short_text`, for a name and its colon.
    #[inline(always)]
    pub(crate) fn take_short_name(&mut self, bytes: &[u8], from: usize, count: usize) -> usize
        requires at { (self.old.at ≡ ReaderState.FirstName) ⊎ (self.old.at ≡ ReaderState.Name) }
        requires begins { slice_index bytes.now from ≡ 34 }
        requires few { count < BLOCK }
        requires block { from + 1 + BLOCK ≤ length bytes.now }
        requires whole { StandAlone (take count (drop (from + 1) bytes.now)) }
        requires ends { slice_index bytes.now (from + 1 + count) ≡ 34 }
        requires following { from + 1 + count + 1 < length bytes.now }
        requires colon { slice_index bytes.now (from + 1 + count + 1) ≡ 58 }
        requires room { HasRoom self.old }
        requires fits { Fits self.old }
        requires reached { Reached self.old }
        ensures { RunsTo self.old bytes.now from result self.new }
    {
        if self.put_short(Purpose::Name, &bytes[from + 1..], count, ReaderState::Value) {
            from + 1 + count + 1 + 1
        } else {
            from
        }
    }

    /// Appends a string of the first `count` bytes, and its node. Returns false, without a change,
    /// if the texts would exceed `MAX_TEXTS`.
    #[inline(always)]
    fn put_short(&mut self, purpose: Purpose, bytes: &[u8], count: usize, at: ReaderState) -> bool
        requires few { count < BLOCK }
        requires block { BLOCK ≤ length bytes.now }
        requires room { HasRoom self.old }
        ensures puts { result ≡ true → Puts (within_string purpose (take count bytes.now) self.old)
            self.old.nesting.items
            (string_node purpose (within_string purpose (take count bytes.now) self.old)) at
            self.new }
        ensures stays { result ≡ false → Stays self.old self.new }
    {
        let start = self.text.len();
        let Ok((from, to)) = text_span(start, self.text.end_following(count)) else {
            return false;
        };
        self.text.append_block(bytes, count);
        self.nodes.put_leaf(match purpose {
            Purpose::Name => Node::Name { from, to },
            Purpose::Value => Node::Text { from, to },
        });
        self.start = start;
        self.at = at;
        true
    }
}
