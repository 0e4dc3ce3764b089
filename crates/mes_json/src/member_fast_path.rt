//! The reader's fast path after a string in an object: a value, the end of an object or array, a
//! comma with a name. Any other bytes are read one at a time.
ghost use Rattle.std.specs.Prelude.{◌≡◌, ◌⊎◌, ◌<◌, ◌≤◌, [], ◌∷◌, ◌++◌, true, false, Some, length, slice_index};
ghost use Rattle.mes_json.specs.Machine.{step};
ghost use Rattle.mes_json.specs.Reader.{Fits, Puts, Reached, RunsTo, Stays, innermost, outer, state_view};

use crate::limits::MAX_NESTING;
use crate::nesting::Open;
use crate::reader::Reader;
use crate::reader_state::{Purpose, ReaderState};
use crate::tape::Node;
use crate::utf8::Utf8State;

impl Reader {
    /// Reads the expected tokens from offset `from` on, and the strings between them. Stops before
    /// a token for which an allocation fails. Returns the offset after the bytes read.
    pub(crate) fn take_members(&mut self, bytes: &[u8], from: usize) -> usize
        requires inside { from ≤ length bytes.now }
        requires fits { Fits self.old }
        requires reached { Reached self.old }
        ensures { RunsTo self.old bytes.now from result self.new }
    {
        let mut place = from;
        while place < bytes.len() {
            let next = self.take_token(bytes, place);
            if next == place {
                return place;
            }
            place = next;
        }
        place
    }

    /// Reads the token that is expected at `from`, if it is present, and a member that begins after
    /// that token.
    #[inline(always)]
    fn take_token(&mut self, bytes: &[u8], from: usize) -> usize
        requires inside { from < length bytes.now }
        requires fits { Fits self.old }
        requires reached { Reached self.old }
        ensures { RunsTo self.old bytes.now from result self.new }
    {
        let following = match self.at {
            ReaderState::Value => self.take_value(bytes, from),
            ReaderState::After => self.take_after(bytes, from),
            _ => from,
        };
        self.take_member(bytes, following)
    }

    /// Reads a string, the first byte of an object, or a number, if one is present at `from`.
    #[inline(always)]
    fn take_value(&mut self, bytes: &[u8], from: usize) -> usize
        requires at { self.old.at ≡ ReaderState.Value }
        requires inside { from < length bytes.now }
        requires fits { Fits self.old }
        requires reached { Reached self.old }
        ensures { RunsTo self.old bytes.now from result self.new }
    {
        match bytes[from] {
            b'"' => self.take_text(bytes, from),
            b'{' => { if self.open_object() { from + 1 } else { from } }
            b'-' | b'0'..=b'9' => self.take_number(bytes, from),
            _ => from,
        }
    }

    /// Reads the byte after a value: a comma, or the end of the innermost object or array.
    #[inline(always)]
    fn take_after(&mut self, bytes: &[u8], from: usize) -> usize
        requires at { self.old.at ≡ ReaderState.After }
        requires inside { from < length bytes.now }
        requires fits { Fits self.old }
        requires reached { Reached self.old }
        ensures { RunsTo self.old bytes.now from result self.new }
    {
        if self.enter_following(bytes[from]) {
            from + 1
        } else {
            from
        }
    }

    /// Reads a name at `from`, if a name is expected and present, the colon after the name, and a
    /// string after the colon.
    #[inline(always)]
    fn take_member(&mut self, bytes: &[u8], from: usize) -> usize
        requires inside { from ≤ length bytes.now }
        requires fits { Fits self.old }
        requires reached { Reached self.old }
        ensures { RunsTo self.old bytes.now from result self.new }
    {
        match self.at {
            ReaderState::FirstName | ReaderState::Name
                if from < bytes.len() && bytes[from] == b'"' => {
                let following = self.take_name(bytes, from);
                self.take_following_text(bytes, following)
            }
            _ => from,
        }
    }

    /// Reads a name from its opening quotation mark at `from` on, and the colon after the name.
    #[inline(always)]
    fn take_name(&mut self, bytes: &[u8], from: usize) -> usize
        requires at { (self.old.at ≡ ReaderState.FirstName) ⊎ (self.old.at ≡ ReaderState.Name) }
        requires inside { from < length bytes.now }
        requires quote { slice_index bytes.now from ≡ 34 }
        requires fits { Fits self.old }
        requires reached { Reached self.old }
        ensures { RunsTo self.old bytes.now from result self.new }
    {
        if let Some(count) = self.short_run(bytes, from + 1) {
            let following = from + 1 + count + 1;
            if following < bytes.len() && bytes[following] == b':' {
                return self.take_short_name(bytes, from, count);
            }
        }
        self.take_any_name(bytes, from)
    }

    /// Like `take_name`, for any name. Not inlined, since most names are short.
    #[inline(never)]
    fn take_any_name(&mut self, bytes: &[u8], from: usize) -> usize
        requires at { (self.old.at ≡ ReaderState.FirstName) ⊎ (self.old.at ≡ ReaderState.Name) }
        requires inside { from < length bytes.now }
        requires quote { slice_index bytes.now from ≡ 34 }
        requires fits { Fits self.old }
        requires reached { Reached self.old }
        ensures { RunsTo self.old bytes.now from result self.new }
    {
        self.begin_name();
        self.take_string(Purpose::Name, bytes, from + 1)
    }

    /// Reads the string at `from`, if a value is expected and a string is present.
    #[inline(always)]
    fn take_following_text(&mut self, bytes: &[u8], from: usize) -> usize
        requires inside { from ≤ length bytes.now }
        requires fits { Fits self.old }
        requires reached { Reached self.old }
        ensures { RunsTo self.old bytes.now from result self.new }
    {
        match self.at {
            ReaderState::Value if from < bytes.len() && bytes[from] == b'"' => self.take_text(
                bytes, from,
            ),
            _ => from,
        }
    }

    /// Reads a string that is a value, from its opening quotation mark at `from`.
    #[inline(always)]
    fn take_text(&mut self, bytes: &[u8], from: usize) -> usize
        requires at { self.old.at ≡ ReaderState.Value }
        requires inside { from < length bytes.now }
        requires quote { slice_index bytes.now from ≡ 34 }
        requires fits { Fits self.old }
        requires reached { Reached self.old }
        ensures { RunsTo self.old bytes.now from result self.new }
    {
        match self.short_run(bytes, from + 1) {
            Some(count) => self.take_short_text(bytes, from, count),
            None => self.take_any_text(bytes, from),
        }
    }

    /// Like `take_text`, for any string. Not inlined, since most strings are short.
    #[inline(never)]
    fn take_any_text(&mut self, bytes: &[u8], from: usize) -> usize
        requires at { self.old.at ≡ ReaderState.Value }
        requires inside { from < length bytes.now }
        requires quote { slice_index bytes.now from ≡ 34 }
        requires fits { Fits self.old }
        requires reached { Reached self.old }
        ensures { RunsTo self.old bytes.now from result self.new }
    {
        self.begin_text();
        self.take_string(Purpose::Value, bytes, from + 1)
    }

    /// Reads the byte after a value, if that byte is a comma, or if it ends the innermost object or
    /// array and no allocation fails.
    #[inline(always)]
    fn enter_following(&mut self, byte: u8) -> bool
        requires at { self.old.at ≡ ReaderState.After }
        requires fits { Fits self.old }
        ensures gives { result ≡ true → step MAX_NESTING (state_view self.old) byte
            ≡ Some (state_view self.new) }
        ensures fits { result ≡ true → Fits self.new }
        ensures stays { result ≡ false → Stays self.old self.new }
    {
        match (self.innermost(), byte) {
            (Some(Open::Object), b',') => {
                self.expect_name();
                true
            }
            (Some(Open::Object), b'}') => self.close_object(),
            (Some(Open::Array), b',') => {
                self.expect_item();
                true
            }
            (Some(Open::Array), b']') => self.close_array(),
            _ => false,
        }
    }
}

// Steps over single bytes that cannot be an error. If the allocation of a node fails, a step
// changes nothing.
impl Reader {
    #[inline(always)]
    fn begin_text(&mut self)
        requires at { self.old.at ≡ ReaderState.Value }
        requires fits { Fits self.old }
        ensures gives { step MAX_NESTING (state_view self.old) 34 ≡ Some (state_view self.new) }
        ensures fits { Fits self.new }
        ensures at { self.new.at ≡ ReaderState.Quoted Purpose.Value Utf8State.Between }
    {
        self.begin(ReaderState::Quoted(Purpose::Value, Utf8State::Between));
    }

    #[inline(always)]
    fn begin_name(&mut self)
        requires at { (self.old.at ≡ ReaderState.FirstName) ⊎ (self.old.at ≡ ReaderState.Name) }
        requires fits { Fits self.old }
        ensures gives { step MAX_NESTING (state_view self.old) 34 ≡ Some (state_view self.new) }
        ensures fits { Fits self.new }
        ensures at { self.new.at ≡ ReaderState.Quoted Purpose.Name Utf8State.Between }
    {
        self.begin(ReaderState::Quoted(Purpose::Name, Utf8State::Between));
    }

    /// Reads the comma after a member.
    #[inline(always)]
    fn expect_name(&mut self)
        requires at { self.old.at ≡ ReaderState.After }
        requires fits { Fits self.old }
        requires inside { innermost self.old.nesting.items ≡ Some Open.Object }
        ensures gives { step MAX_NESTING (state_view self.old) 44 ≡ Some (state_view self.new) }
        ensures fits { Fits self.new }
        ensures at { self.new.at ≡ ReaderState.Name }
    {
        self.at = ReaderState::Name;
    }

    /// Reads the comma after an item.
    #[inline(always)]
    fn expect_item(&mut self)
        requires at { self.old.at ≡ ReaderState.After }
        requires fits { Fits self.old }
        requires inside { innermost self.old.nesting.items ≡ Some Open.Array }
        ensures gives { step MAX_NESTING (state_view self.old) 44 ≡ Some (state_view self.new) }
        ensures fits { Fits self.new }
    {
        self.at = ReaderState::Value;
    }

    #[inline(always)]
    fn open_object(&mut self) -> bool
        requires at { self.old.at ≡ ReaderState.Value }
        requires fits { Fits self.old }
        ensures gives { result ≡ true → step MAX_NESTING (state_view self.old) 123
            ≡ Some (state_view self.new) }
        ensures fits { result ≡ true → Fits self.new }
        ensures at { result ≡ true → self.new.at ≡ ReaderState.FirstName }
        ensures stays { result ≡ false → Stays self.old self.new }
    {
        self.open()
    }

    /// Opens an object. Returns false, without a change, at the nesting limit or if an allocation
    /// fails.
    #[inline(always)]
    fn open(&mut self) -> bool
        ensures room { result ≡ true → length self.old.nesting.items < MAX_NESTING }
        ensures puts { result ≡ true → Puts self.old (self.old.nesting.items ++ Open.Object
            ∷ []) (Node.Map 0) ReaderState.FirstName self.new }
        ensures stays { result ≡ false → Stays self.old self.new }
    {
        if self.nesting.is_full() {
            return false;
        }
        if let Err(_) = self.nodes.put(Node::Map { length: 0 }) {
            return false;
        }
        self.nesting.push(Open::Object);
        self.at = ReaderState::FirstName;
        true
    }

    #[inline(always)]
    fn close_object(&mut self) -> bool
        requires at { self.old.at ≡ ReaderState.After }
        requires fits { Fits self.old }
        requires inside { innermost self.old.nesting.items ≡ Some Open.Object }
        ensures gives { result ≡ true → step MAX_NESTING (state_view self.old) 125
            ≡ Some (state_view self.new) }
        ensures fits { result ≡ true → Fits self.new }
        ensures stays { result ≡ false → Stays self.old self.new }
    {
        self.close()
    }

    #[inline(always)]
    fn close_array(&mut self) -> bool
        requires at { self.old.at ≡ ReaderState.After }
        requires fits { Fits self.old }
        requires inside { innermost self.old.nesting.items ≡ Some Open.Array }
        ensures gives { result ≡ true → step MAX_NESTING (state_view self.old) 93
            ≡ Some (state_view self.new) }
        ensures fits { result ≡ true → Fits self.new }
        ensures stays { result ≡ false → Stays self.old self.new }
    {
        self.close()
    }

    /// Closes the innermost object or array after a value. Returns false, without a change, if an
    /// allocation fails.
    #[inline(always)]
    fn close(&mut self) -> bool
        requires { self.old.at ≡ ReaderState.After }
        ensures puts { result ≡ true → Puts self.old (outer self.old.nesting.items) Node.End
            ReaderState.After self.new }
        ensures stays { result ≡ false → Stays self.old self.new }
    {
        if let Err(_) = self.nodes.put(Node::End) {
            return false;
        }
        self.nesting.pop();
        true
    }
}
