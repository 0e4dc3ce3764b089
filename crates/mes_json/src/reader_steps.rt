//! The reader's steps: one method for each state, which reads the next byte.
ghost use Rattle.std.specs.Prelude.{◌≡◌, List, OnOk};
ghost use Rattle.std.specs.Option.{is_some};
ghost use Rattle.mes_json.specs.Tree.{Tree};
ghost use Rattle.mes_json.specs.Machine.{Frame, kind_of, on_after};
ghost use Rattle.mes_json.specs.Reader.{Fits, Reached, Gives, opens, state_view};

use crate::byte_class::ByteClass;
use crate::escape::{Escape, Move};
use crate::fault::TextFaultKind;
use crate::literal::{LiteralState, LiteralStep};
use crate::nesting::Open;
use crate::push_error::PushError;
use crate::reader::Reader;
use crate::reader_state::{Purpose, ReaderState};
use crate::tape::Node;
use crate::utf8::Utf8State;
use mes_fixed::automaton::{NumberState, may_end, next_state};

impl Reader {
    #[inline(always)]
    pub(crate) fn value(&mut self, byte: u8) -> Result<(), PushError>
        requires at { self.old.at ≡ ReaderState.Value }
        requires fits { Fits self.old }
        ensures gives { Gives result (state_view self.old) byte (state_view self.new) }
        ensures fits { OnOk result (Fits self.new) }
    {
        match ByteClass::of(byte) {
            ByteClass::Blank => Ok(()),
            ByteClass::Quote => {
                self.begin(ReaderState::Quoted(Purpose::Value, Utf8State::Between));
                Ok(())
            }
            ByteClass::Opening => self.enter(
                Open::Object,
                Node::Map { length: 0 },
                ReaderState::FirstName,
            ),
            ByteClass::OpeningArray => self.enter(
                Open::Array,
                Node::List { length: 0 },
                ReaderState::FirstItem,
            ),
            ByteClass::Literal(word) => {
                self.at = ReaderState::Literal(word);
                Ok(())
            }
            ByteClass::Digits(part) => self.begin_number(byte, part),
            _ => Err(PushError::Refused(TextFaultKind::Byte)),
        }
    }

    #[inline(always)]
    pub(crate) fn first_item(&mut self, byte: u8) -> Result<(), PushError>
        requires at { self.old.at ≡ ReaderState.FirstItem }
        requires fits { Fits self.old }
        ensures gives { Gives result (state_view self.old) byte (state_view self.new) }
        ensures fits { OnOk result (Fits self.new) }
    {
        match ByteClass::of(byte) {
            ByteClass::Blank => Ok(()),
            ByteClass::ClosingArray => self.leave(),
            _ => {
                self.at = ReaderState::Value;
                self.value(byte)
            }
        }
    }

    #[inline(always)]
    pub(crate) fn first_name(&mut self, byte: u8) -> Result<(), PushError>
        requires at { self.old.at ≡ ReaderState.FirstName }
        requires fits { Fits self.old }
        ensures gives { Gives result (state_view self.old) byte (state_view self.new) }
        ensures fits { OnOk result (Fits self.new) }
    {
        match ByteClass::of(byte) {
            ByteClass::Blank => Ok(()),
            ByteClass::Quote => {
                self.begin(ReaderState::Quoted(Purpose::Name, Utf8State::Between));
                Ok(())
            }
            ByteClass::Closing => self.leave(),
            _ => Err(PushError::Refused(TextFaultKind::Byte)),
        }
    }

    #[inline(always)]
    pub(crate) fn name(&mut self, byte: u8) -> Result<(), PushError>
        requires at { self.old.at ≡ ReaderState.Name }
        requires fits { Fits self.old }
        ensures gives { Gives result (state_view self.old) byte (state_view self.new) }
        ensures fits { OnOk result (Fits self.new) }
    {
        match ByteClass::of(byte) {
            ByteClass::Blank => Ok(()),
            ByteClass::Quote => {
                self.begin(ReaderState::Quoted(Purpose::Name, Utf8State::Between));
                Ok(())
            }
            _ => Err(PushError::Refused(TextFaultKind::Byte)),
        }
    }

    #[inline(always)]
    pub(crate) fn colon(&mut self, byte: u8) -> Result<(), PushError>
        requires at { self.old.at ≡ ReaderState.Colon }
        requires fits { Fits self.old }
        ensures gives { Gives result (state_view self.old) byte (state_view self.new) }
        ensures fits { OnOk result (Fits self.new) }
    {
        match ByteClass::of(byte) {
            ByteClass::Blank => Ok(()),
            ByteClass::Colon => {
                self.at = ReaderState::Value;
                Ok(())
            }
            _ => Err(PushError::Refused(TextFaultKind::Byte)),
        }
    }

    #[inline(always)]
    pub(crate) fn after(&mut self, byte: u8) -> Result<(), PushError>
        requires at { self.old.at ≡ ReaderState.After }
        requires fits { Fits self.old }
        ensures gives { Gives result (state_view self.old) byte (state_view self.new) }
        ensures fits { OnOk result (Fits self.new) }
    {
        match ByteClass::of(byte) {
            ByteClass::Blank => Ok(()),
            ByteClass::Comma => match self.innermost() {
                Some(Open::Object) => {
                    self.at = ReaderState::Name;
                    Ok(())
                }
                Some(Open::Array) => {
                    self.at = ReaderState::Value;
                    Ok(())
                }
                None => Err(PushError::Refused(TextFaultKind::Byte)),
            },
            ByteClass::Closing => match self.innermost() {
                Some(Open::Object) => self.leave(),
                Some(Open::Array) => Err(PushError::Refused(TextFaultKind::Byte)),
                None => Err(PushError::Refused(TextFaultKind::Byte)),
            },
            ByteClass::ClosingArray => match self.innermost() {
                Some(Open::Array) => self.leave(),
                Some(Open::Object) => Err(PushError::Refused(TextFaultKind::Byte)),
                None => Err(PushError::Refused(TextFaultKind::Byte)),
            },
            _ => Err(PushError::Refused(TextFaultKind::Byte)),
        }
    }

    /// Returns whether `byte` may follow a value: white space, a comma, or the end of the innermost
    /// object or array.
    #[inline(always)]
    fn may_follow(&self, byte: u8) -> bool
        ensures { (frames : List Frame) (value : Tree) → self.now.nesting.items ≡ opens frames
            → result ≡ is_some (on_after frames value (kind_of byte)) }
    {
        match ByteClass::of(byte) {
            ByteClass::Blank => true,
            ByteClass::Comma => match self.innermost() {
                Some(Open::Object) => true,
                Some(Open::Array) => true,
                None => false,
            },
            ByteClass::Closing => match self.innermost() {
                Some(Open::Object) => true,
                Some(Open::Array) => false,
                None => false,
            },
            ByteClass::ClosingArray => match self.innermost() {
                Some(Open::Array) => true,
                Some(Open::Object) => false,
                None => false,
            },
            _ => false,
        }
    }

    #[inline(always)]
    pub(crate) fn quoted(
        &mut self,
        purpose: Purpose,
        mid: Utf8State,
        byte: u8,
    ) -> Result<(), PushError>
        requires at { self.old.at ≡ ReaderState.Quoted purpose mid }
        requires fits { Fits self.old }
        requires reached { Reached self.old }
        ensures gives { Gives result (state_view self.old) byte (state_view self.new) }
        ensures fits { OnOk result (Fits self.new) }
    {
        match mid {
            Utf8State::Between => match byte {
                b'"' => self.end_string(purpose),
                b'\\' => {
                    self.at = ReaderState::Quoted(purpose, Utf8State::Escape(Escape::Backslash));
                    Ok(())
                }
                0..=0x1F => Err(PushError::Refused(TextFaultKind::Byte)),
                _ => match Utf8State::lead(byte) {
                    Some(next) => self.keep(byte, ReaderState::Quoted(purpose, next)),
                    None => Err(PushError::Refused(TextFaultKind::Byte)),
                },
            },
            Utf8State::Within { more, least, most } => {
                if byte < least || byte > most {
                    return Err(PushError::Refused(TextFaultKind::Byte));
                }
                self.keep(byte, ReaderState::Quoted(purpose, Utf8State::after(more)))
            }
            Utf8State::Escape(escape) => self.escaped(purpose, escape, byte),
        }
    }

    #[inline(always)]
    fn escaped(&mut self, purpose: Purpose, escape: Escape, byte: u8) -> Result<(), PushError>
        requires at { self.old.at ≡ ReaderState.Quoted purpose (Utf8State.Escape escape) }
        requires fits { Fits self.old }
        requires reached { Reached self.old }
        ensures gives { Gives result (state_view self.old) byte (state_view self.new) }
        ensures fits { OnOk result (Fits self.new) }
    {
        match escape.step(byte) {
            Move::On(next) => {
                self.at = ReaderState::Quoted(purpose, Utf8State::Escape(next));
                Ok(())
            }
            Move::Makes(character) => {
                self.keep_character(character, ReaderState::Quoted(purpose, Utf8State::Between))
            }
            Move::Refused => Err(PushError::Refused(TextFaultKind::Byte)),
        }
    }

    pub(crate) fn literal(&mut self, word: LiteralState, byte: u8) -> Result<(), PushError>
        requires at { self.old.at ≡ ReaderState.Literal word }
        requires fits { Fits self.old }
        ensures gives { Gives result (state_view self.old) byte (state_view self.new) }
        ensures fits { OnOk result (Fits self.new) }
    {
        match word.next(byte) {
            Some(LiteralStep::More(next)) => {
                self.at = ReaderState::Literal(next);
                Ok(())
            }
            Some(LiteralStep::Null) => self.put(Node::Null, ReaderState::After),
            Some(LiteralStep::Bool(truth)) => self.put(Node::Bool(truth), ReaderState::After),
            None => Err(PushError::Refused(TextFaultKind::Byte)),
        }
    }

    #[inline(always)]
    pub(crate) fn digits(&mut self, part: NumberState, byte: u8) -> Result<(), PushError>
        requires at { self.old.at ≡ ReaderState.Digits part }
        requires fits { Fits self.old }
        requires reached { Reached self.old }
        ensures gives { Gives result (state_view self.old) byte (state_view self.new) }
        ensures fits { OnOk result (Fits self.new) }
    {
        match next_state(part, byte) {
            Some(next) => self.keep(byte, ReaderState::Digits(next)),
            // Whether the byte may follow the number is known before the number's node is made.
            None => {
                if !may_end(part) || !self.may_follow(byte) {
                    return Err(PushError::Refused(TextFaultKind::Byte));
                }
                self.end_number()?;
                self.after(byte)
            }
        }
    }
}
