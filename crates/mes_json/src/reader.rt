//! The reader, which reads a JSON text byte by byte and writes a tape. Its steps are in
//! `reader_steps`, its fast paths in `short_string`, `member_fast_path` and `number_fast_path`.
ghost use Rattle.std.specs.Prelude.{◌≡◌, ◌+◌, ◌<◌, ◌≤◌, [], ◌∷◌, length, option_map, slice_index, encode_utf8, IfOk, IfErr, OnOk, OnErr};
ghost use Rattle.mes_json.specs.declared.push_error.PushError.TheVariants.{NoMemory as no_memory};
ghost use Rattle.mes_json.specs.Machine.{start, finish};
ghost use Rattle.mes_json.specs.Tokens.{tokens};
ghost use Rattle.mes_json.specs.Lengths.{unreported};
ghost use Rattle.mes_json.specs.Reader.{Fits, Reached, EndsWhole, Gives, IsWhole, RunsTo, Enters, Puts, Keeps, Stays, Begins, innermost, outer, string_node, following_string, state_view};

use crate::characters::character_run;
use crate::digits::{continues_number, digit_run};
use crate::escape::{Escape, Move, whole_escape};
use crate::fault::TextFaultKind;
use crate::limits::MAX_NESTING;
use crate::memory::NoMemory;
use crate::nesting::Open;
use crate::node_buffer::Nodes;
use crate::push_error::PushError;
use crate::reader_state::{Purpose, ReaderState};
use crate::tape::{Node, Tape, text_span};
use crate::text_buffer::Texts;
use crate::utf8::Utf8State;
use crate::whitespace::blank_run;
use arrayvec::ArrayVec;
use mes_fixed::automaton::{NumberState, may_end};
use std::alloc::Global;
use std::mem;

/// The part of a JSON text that has been read.
#[derive(Drop)]
pub(crate) struct Reader {
    pub(crate) at: ReaderState,
    /// The open objects and arrays, the innermost last.
    pub(crate) nesting: ArrayVec<Open, MAX_NESTING, Global>,
    /// The offset in `text` of the string or number that is being read.
    pub(crate) start: usize,
    /// The texts of the strings and numbers, concatenated.
    pub(crate) text: Texts,
    pub(crate) nodes: Nodes,
}

impl Reader {
    /// Creates an empty reader. Does not allocate.
    pub(crate) fn new(alloc: Global) -> Reader
        ensures fits { Fits result }
        ensures start { state_view result ≡ start }
    {
        Reader::within(alloc, Texts::new(alloc), Vec::new(alloc))
    }

    /// Creates an empty reader in the given memory.
    pub(crate) fn within(alloc: Global, text: Texts, nodes: Vec<Node>) -> Reader
        requires text { text.items ≡ [] }
        requires nodes { nodes.items ≡ [] }
        ensures fits { Fits result }
        ensures start { state_view result ≡ start }
    {
        Reader {
            at: ReaderState::Value,
            nesting: ArrayVec::new_in(alloc),
            start: 0,
            text,
            nodes: Nodes::within(nodes),
        }
    }

    /// Reads one byte. After an error the reader must not be used.
    #[inline(always)]
    pub(crate) fn step(&mut self, byte: u8) -> Result<(), PushError>
        requires fits { Fits self.old }
        requires reached { Reached self.old }
        ensures gives { Gives result (state_view self.old) byte (state_view self.new) }
        ensures fits { OnOk result (Fits self.new) }
    {
        match self.at {
            ReaderState::Value => self.value(byte),
            ReaderState::FirstItem => self.first_item(byte),
            ReaderState::FirstName => self.first_name(byte),
            ReaderState::Name => self.name(byte),
            ReaderState::Colon => self.colon(byte),
            ReaderState::After => self.after(byte),
            ReaderState::Quoted(purpose, mid) => self.quoted(purpose, mid, byte),
            ReaderState::Literal(word) => self.literal(word, byte),
            ReaderState::Digits(part) => self.digits(part, byte),
        }
    }

    /// Reads the bytes after offset `place`, whose byte was read last. Reads first a run of bytes
    /// that need no check byte by byte, then the expected tokens after that run. Stops before bytes
    /// for which an allocation fails. Returns the offset after the bytes read.
    #[inline(always)]
    pub(crate) fn take_run(&mut self, bytes: &[u8], place: usize) -> usize
        requires inside { place < length bytes.now }
        requires fits { Fits self.old }
        requires reached { Reached self.old }
        ensures { RunsTo self.old bytes.now (place + 1) result self.new }
    {
        let end = self.take_alike(bytes, place);
        self.take_members(bytes, end)
    }

    /// Reads a run of bytes after `place`: characters of a string with the closing quotation mark
    /// and a name's colon, digits of a number, or white space.
    #[inline(always)]
    fn take_alike(&mut self, bytes: &[u8], place: usize) -> usize
        requires inside { place < length bytes.now }
        requires fits { Fits self.old }
        requires reached { Reached self.old }
        ensures { RunsTo self.old bytes.now (place + 1) result self.new }
    {
        let from = place + 1;
        match self.at {
            ReaderState::Quoted(purpose, mid) => match mid {
                Utf8State::Between => self.take_string(purpose, bytes, from),
                Utf8State::Escape(escape) => self.take_escape(purpose, escape, bytes, from),
                Utf8State::Within { .. } => from,
            },
            ReaderState::Digits(part) if continues_number(part) => {
                let rest = &bytes[from..];
                from + self.text.append_front(rest, digit_run(rest))
            }
            ReaderState::Digits(_) | ReaderState::Literal(_) => from,
            ReaderState::Value
            | ReaderState::FirstItem
            | ReaderState::FirstName
            | ReaderState::Name
            | ReaderState::Colon
            | ReaderState::After => {
                if bytes[place] > b' ' {
                    return from;
                }
                from + blank_run(&bytes[from..])
            }
        }
    }

    /// Reads the characters of a string from `from` on, the closing quotation mark, and a name's
    /// colon.
    #[inline(always)]
    pub(crate) fn take_string(&mut self, purpose: Purpose, bytes: &[u8], from: usize) -> usize
        requires at { self.old.at ≡ ReaderState.Quoted purpose Utf8State.Between }
        requires inside { from ≤ length bytes.now }
        requires fits { Fits self.old }
        requires reached { Reached self.old }
        ensures { RunsTo self.old bytes.now from result self.new }
    {
        let end = self.take_characters(purpose, bytes, from);
        if end == bytes.len() {
            return end;
        }
        match bytes[end] {
            b'"' => self.take_end(purpose, bytes, end),
            b'\\' => self.take_escapes(purpose, bytes, end),
            _ => end,
        }
    }

    /// Reads the characters of a string from `from` on that are written without an escape.
    #[inline(always)]
    fn take_characters(&mut self, purpose: Purpose, bytes: &[u8], from: usize) -> usize
        requires at { self.old.at ≡ ReaderState.Quoted purpose Utf8State.Between }
        requires inside { from ≤ length bytes.now }
        requires fits { Fits self.old }
        ensures runs { RunsTo self.old bytes.now from result self.new }
        ensures at { self.new.at ≡ ReaderState.Quoted purpose Utf8State.Between }
    {
        let rest = &bytes[from..];
        from + self.text.append_front(rest, character_run(rest))
    }

    /// Reads the closing quotation mark of a string at `from`, and a name's colon.
    #[inline(always)]
    fn take_end(&mut self, purpose: Purpose, bytes: &[u8], from: usize) -> usize
        requires at { self.old.at ≡ ReaderState.Quoted purpose Utf8State.Between }
        requires inside { from < length bytes.now }
        requires quote { slice_index bytes.now from ≡ 34 }
        requires fits { Fits self.old }
        requires reached { Reached self.old }
        ensures { RunsTo self.old bytes.now from result self.new }
    {
        match self.close_string(purpose) {
            Ok(()) => self.take_colon(bytes, from + 1),
            Err(NoMemory) => from,
        }
    }

    /// Reads whole escapes from `from` on, the characters between and after them, the closing
    /// quotation mark, and a name's colon. Not inlined, since most strings have no escape.
    #[inline(never)]
    fn take_escapes(&mut self, purpose: Purpose, bytes: &[u8], from: usize) -> usize
        requires at { self.old.at ≡ ReaderState.Quoted purpose Utf8State.Between }
        requires inside { from ≤ length bytes.now }
        requires fits { Fits self.old }
        requires reached { Reached self.old }
        ensures { RunsTo self.old bytes.now from result self.new }
    {
        let mut place = from;
        while place < bytes.len() && bytes[place] == b'\\' {
            let Some((character, taken)) = whole_escape(&bytes[place + 1..]) else {
                return place;
            };
            if let Err(NoMemory) = self.append_character(
                character,
                ReaderState::Quoted(purpose, Utf8State::Between),
            ) {
                return place;
            }
            place = self.take_characters(purpose, bytes, place + 1 + taken);
        }
        if place == bytes.len() || bytes[place] != b'"' {
            return place;
        }
        self.take_end(purpose, bytes, place)
    }

    /// Reads the rest of an escape from `from` on, and the string after it. Stops before a byte
    /// that is an error.
    fn take_escape(&mut self, purpose: Purpose, first: Escape, bytes: &[u8], from: usize) -> usize
        requires at { self.old.at ≡ ReaderState.Quoted purpose (Utf8State.Escape first) }
        requires inside { from ≤ length bytes.now }
        requires fits { Fits self.old }
        requires reached { Reached self.old }
        ensures { RunsTo self.old bytes.now from result self.new }
    {
        let mut place = from;
        let mut escape = first;
        while place < bytes.len() {
            match escape.step(bytes[place]) {
                Move::On(next) => escape = next,
                Move::Makes(character) => {
                    return match self.append_character(
                        character,
                        ReaderState::Quoted(purpose, Utf8State::Between),
                    ) {
                        Ok(()) => self.take_string(purpose, bytes, place + 1),
                        Err(NoMemory) => place,
                    };
                }
                Move::Refused => return place,
            }
            self.at = ReaderState::Quoted(purpose, Utf8State::Escape(escape));
            place += 1;
        }
        place
    }

    /// Reads the colon at `from`, if a colon is expected and present.
    #[inline(always)]
    fn take_colon(&mut self, bytes: &[u8], from: usize) -> usize
        requires inside { from ≤ length bytes.now }
        requires fits { Fits self.old }
        ensures { RunsTo self.old bytes.now from result self.new }
    {
        match self.at {
            ReaderState::Colon if from < bytes.len() && bytes[from] == b':' => {
                self.at = ReaderState::Value;
                from + 1
            }
            _ => from,
        }
    }

    /// Returns the number of buffered bytes of strings and numbers.
    pub(crate) fn held(&self) -> u64
        ensures { result ≡ length self.now.text.items }
    {
        self.text.len() as u64
    }

    /// Returns the tape, if the bytes read are a whole value. Afterwards the reader must be reset.
    #[inline(always)]
    pub(crate) fn take_tape(&mut self, alloc: Global) -> Result<Option<Tape>, NoMemory>
        requires fits { Fits self.old }
        requires reached { Reached self.old }
        ensures ok { IfOk result (λ tape. tape
            ≡ option_map tokens (finish (state_view self.old))) }
        ensures err { OnErr result (IsWhole (state_view self.old)) }
    {
        if self.ends()? {
            let text = mem::replace(&mut self.text, Texts::new(alloc));
            let nodes = self.nodes.take(alloc);
            Ok(Some(Tape::new(text, nodes)))
        } else {
            Ok(None)
        }
    }

    /// Like `take_tape`, but consumes the reader.
    pub(crate) fn into_tape(mut self, alloc: Global) -> Result<Option<Tape>, NoMemory>
        requires fits { Fits self }
        requires reached { Reached self }
        ensures ok { IfOk result (λ tape. tape ≡ option_map tokens (finish (state_view self))) }
        ensures err { OnErr result (IsWhole (state_view self)) }
    {
        self.take_tape(alloc)
    }

    /// Resets to an empty reader in the given memory.
    #[inline(always)]
    pub(crate) fn restart(&mut self, text: Texts, nodes: Vec<Node>)
        requires text { text.items ≡ [] }
        requires nodes { nodes.items ≡ [] }
        ensures fits { Fits self.new }
        ensures start { state_view self.new ≡ start }
    {
        self.at = ReaderState::Value;
        self.nesting.clear();
        self.start = 0;
        self.text = text;
        self.nodes.restart(nodes);
    }

    /// Ends an open number. Returns whether the text may end after the bytes read.
    fn ends(&mut self) -> Result<bool, NoMemory>
        requires fits { Fits self.old }
        requires reached { Reached self.old }
        ensures ok { IfOk result (λ whole. EndsWhole whole (finish (state_view self.old)) self.new) }
        ensures err { OnErr result (IsWhole (state_view self.old)) }
    {
        match self.at {
            ReaderState::After => Ok(self.nesting.is_empty()),
            // No node is made for a number in an open object or array.
            ReaderState::Digits(part) if may_end(part) && self.nesting.is_empty() => {
                self.end_number()?;
                Ok(true)
            }
            _ => Ok(false),
        }
    }
}

// Methods for the open objects and arrays.
impl Reader {
    #[inline(always)]
    pub(crate) fn innermost(&self) -> Option<Open>
        ensures { result ≡ innermost self.now.nesting.items }
    {
        self.nesting.as_slice().last().copied()
    }

    #[inline(always)]
    pub(crate) fn enter(
        &mut self,
        open_one: Open,
        node: Node,
        at: ReaderState,
    ) -> Result<(), PushError>
        requires { unreported node ≡ node }
        ensures { Enters result self.old open_one node at self.new }
    {
        if self.nesting.is_full() {
            return Err(PushError::Refused(TextFaultKind::Depth));
        }
        self.nesting.push(open_one);
        self.put(node, at)
    }

    #[inline(always)]
    pub(crate) fn leave(&mut self) -> Result<(), PushError>
        ensures ok { OnOk result (Puts self.old (outer self.old.nesting.items) Node.End
            ReaderState.After self.new) }
        ensures err { IfErr result (λ e. e ≡ no_memory) }
    {
        self.nesting.pop();
        self.put(Node::End, ReaderState::After)
    }
}

// Methods that change the tape.
impl Reader {
    /// Begins the text of a string or a number.
    #[inline(always)]
    pub(crate) fn begin(&mut self, at: ReaderState)
        ensures { Begins self.old [] at self.new }
    {
        self.start = self.text.len();
        self.at = at;
    }

    #[inline(always)]
    pub(crate) fn end_string(&mut self, purpose: Purpose) -> Result<(), PushError>
        requires { self.old.start ≤ length self.old.text.items }
        ensures ok { OnOk result (Puts self.old self.old.nesting.items
            (string_node purpose self.old) (following_string purpose) self.new) }
        ensures err { IfErr result (λ e. e ≡ no_memory) }
    {
        Ok(self.close_string(purpose)?)
    }

    /// Like `end_string`, with `NoMemory` as the only error.
    #[inline(always)]
    fn close_string(&mut self, purpose: Purpose) -> Result<(), NoMemory>
        requires { self.old.start ≤ length self.old.text.items }
        ensures ok { OnOk result (Puts self.old self.old.nesting.items
            (string_node purpose self.old) (following_string purpose) self.new) }
        ensures err { OnErr result (Stays self.old self.new) }
    {
        let (from, to) = text_span(self.start, self.text.len())?;
        match purpose {
            Purpose::Name => {
                self.nodes.put(Node::Name { from, to })?;
                self.at = ReaderState::Colon;
            }
            Purpose::Value => {
                self.nodes.put(Node::Text { from, to })?;
                self.at = ReaderState::After;
            }
        }
        Ok(())
    }

    /// Begins a number with its first byte.
    pub(crate) fn begin_number(&mut self, byte: u8, part: NumberState) -> Result<(), PushError>
        ensures ok { OnOk result (Begins self.old (byte ∷ []) (ReaderState.Digits part) self.new) }
        ensures err { IfErr result (λ e. e ≡ no_memory) }
    {
        self.begin(ReaderState::Digits(part));
        self.keep(byte, ReaderState::Digits(part))
    }

    pub(crate) fn end_number(&mut self) -> Result<(), NoMemory>
        requires { self.old.start ≤ length self.old.text.items }
        ensures ok { OnOk result (Puts self.old self.old.nesting.items
            (Node.Number self.old.start (length self.old.text.items)) ReaderState.After self.new) }
        ensures err { OnErr result (Stays self.old self.new) }
    {
        let (from, to) = text_span(self.start, self.text.len())?;
        self.nodes.put(Node::Number { from, to })?;
        self.at = ReaderState::After;
        Ok(())
    }

    /// Appends a byte to the string or number that is being read.
    #[inline(always)]
    pub(crate) fn keep(&mut self, byte: u8, at: ReaderState) -> Result<(), PushError>
        ensures ok { OnOk result (Keeps self.old (byte ∷ []) at self.new) }
        ensures err { IfErr result (λ e. e ≡ no_memory) }
    {
        self.text.push(byte)?;
        self.at = at;
        Ok(())
    }

    /// Appends a character to the string that is being read.
    #[inline(always)]
    pub(crate) fn keep_character(
        &mut self,
        character: char,
        at: ReaderState,
    ) -> Result<(), PushError>
        ensures ok { OnOk result (Keeps self.old (encode_utf8 character) at self.new) }
        ensures err { IfErr result (λ e. e ≡ no_memory) }
    {
        Ok(self.append_character(character, at)?)
    }

    /// Like `keep_character`, with `NoMemory` as the only error.
    #[inline(always)]
    fn append_character(&mut self, character: char, at: ReaderState) -> Result<(), NoMemory>
        ensures ok { OnOk result (Keeps self.old (encode_utf8 character) at self.new) }
        ensures err { OnErr result (Stays self.old self.new) }
    {
        let code = u32::from(character);
        if code < 0x80 {
            self.text.push(code as u8)?;
        } else {
            let mut bytes = [0; 4];
            let text = character.encode_utf8(&mut bytes);
            self.text.extend_from_slice(text.as_bytes())?;
        }
        self.at = at;
        Ok(())
    }

    #[inline(always)]
    pub(crate) fn put(&mut self, node: Node, at: ReaderState) -> Result<(), PushError>
        requires { unreported node ≡ node }
        ensures ok { OnOk result (Puts self.old self.old.nesting.items node at self.new) }
        ensures err { IfErr result (λ e. e ≡ no_memory) }
    {
        self.nodes.put(node)?;
        self.at = at;
        Ok(())
    }
}
