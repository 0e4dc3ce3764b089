//! The reader's fast path for a number and the byte after it. A number that arrives in pieces is
//! read byte by byte.
ghost use Rattle.std.specs.Prelude.{◌≡◌, ◌<◌, ◌≤◌, true, false, Some, None, length, take, slice_index};
ghost use Rattle.mes_fixed.specs.Automaton.{letter_of, number_next, is_final};
ghost use Rattle.mes_json.specs.Machine.{step};
ghost use Rattle.mes_json.specs.Lengths.{unreported};
ghost use Rattle.mes_json.specs.Reader.{Fits, Reached, RunsTo, Begins, Puts, Stays, outer, state_view, with_value};

use crate::digits::number_run;
use crate::limits::MAX_NESTING;
use crate::memory::NoMemory;
use crate::nesting::Open;
use crate::reader::Reader;
use crate::reader_state::ReaderState;
use crate::tape::{Node, text_span};
use mes_fixed::automaton::{NumberState, may_end};

impl Reader {
    /// Reads a number, as far as the number reaches in `bytes`, and a comma or the end of the
    /// innermost object or array after the number.
    pub(crate) fn take_number(&mut self, bytes: &[u8], from: usize) -> usize
        requires at { self.old.at ≡ ReaderState.Value }
        requires inside { from < length bytes.now }
        requires fits { Fits self.old }
        requires reached { Reached self.old }
        ensures { RunsTo self.old bytes.now from result self.new }
    {
        let rest = &bytes[from..];
        let (count, part) = number_run(rest);
        if !self.begin_digits(rest, count, part) {
            return from;
        }
        self.take_following_number(part, bytes, from + count)
    }

    /// Begins a number with the first `count` of `bytes`. Returns false, without a change, if
    /// `count` is 0 or an allocation fails.
    #[inline(always)]
    fn begin_digits(&mut self, bytes: &[u8], count: usize, part: NumberState) -> bool
        requires { count ≤ length bytes.now }
        ensures some { result ≡ true → 0 < count }
        ensures begins { result ≡ true → Begins self.old (take count bytes.now)
            (ReaderState.Digits part) self.new }
        ensures stays { result ≡ false → Stays self.old self.new }
    {
        let start = self.text.len();
        if self.text.append_front(bytes, count) == 0 {
            return false;
        }
        self.start = start;
        self.at = ReaderState::Digits(part);
        true
    }

    /// Reads a comma, or the end of the innermost object or array, after a number. Leaves the
    /// number open at any other byte, or if an allocation fails.
    #[inline(always)]
    fn take_following_number(&mut self, part: NumberState, bytes: &[u8], from: usize) -> usize
        requires at { self.old.at ≡ ReaderState.Digits part }
        requires inside { from ≤ length bytes.now }
        requires ends { from < length bytes.now
            → number_next part (letter_of (slice_index bytes.now from)) ≡ None }
        requires fits { Fits self.old }
        requires reached { Reached self.old }
        ensures { RunsTo self.old bytes.now from result self.new }
    {
        if from == bytes.len() || !may_end(part) {
            return from;
        }
        if self.end_number_before(part, bytes[from]) {
            from + 1
        } else {
            from
        }
    }

    /// Ends a number with the byte after it, if that is a comma or ends the innermost object or
    /// array, and no allocation fails.
    #[inline(always)]
    fn end_number_before(&mut self, part: NumberState, byte: u8) -> bool
        requires at { self.old.at ≡ ReaderState.Digits part }
        requires whole { is_final part ≡ true }
        requires ends { number_next part (letter_of byte) ≡ None }
        requires fits { Fits self.old }
        requires reached { Reached self.old }
        ensures gives { result ≡ true → step MAX_NESTING (state_view self.old) byte
            ≡ Some (state_view self.new) }
        ensures fits { result ≡ true → Fits self.new }
        ensures stays { result ≡ false → Stays self.old self.new }
    {
        let Ok((from, to)) = text_span(self.start, self.text.len()) else {
            return false;
        };
        let number = Node::Number { from, to };
        match (self.innermost(), byte) {
            (Some(Open::Object), b',') => self.put_before(number, ReaderState::Name),
            (Some(Open::Array), b',') => self.put_before(number, ReaderState::Value),
            (Some(Open::Object), b'}') => self.close_following(number),
            (Some(Open::Array), b']') => self.close_following(number),
            _ => false,
        }
    }

    /// Appends the node of a value before a comma. Returns false if an allocation fails.
    #[inline(always)]
    fn put_before(&mut self, node: Node, at: ReaderState) -> bool
        requires { unreported node ≡ node }
        ensures puts { result ≡ true → Puts self.old self.old.nesting.items node at self.new }
        ensures stays { result ≡ false → Stays self.old self.new }
    {
        if let Err(NoMemory) = self.nodes.put(node) {
            return false;
        }
        self.at = at;
        true
    }

    /// Appends the node of the last value of the innermost object or array, and the node of the
    /// end. Returns false if an allocation fails.
    #[inline(always)]
    fn close_following(&mut self, node: Node) -> bool
        requires { unreported node ≡ node }
        ensures puts { result ≡ true → Puts (with_value node self.old)
            (outer self.old.nesting.items) Node.End ReaderState.After self.new }
        ensures stays { result ≡ false → Stays self.old self.new }
    {
        if let Err(NoMemory) = self.nodes.put_both(node, Node::End) {
            return false;
        }
        self.nesting.pop();
        self.at = ReaderState::After;
        true
    }
}
