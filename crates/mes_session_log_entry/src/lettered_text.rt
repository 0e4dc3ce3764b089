//! Incremental reading of a record's data: a letter and, after some letters, the JSON text of a
//! message.

ghost use Rattle.std.specs.Prelude.{◌≡◌, ◌≢◌, ℕ, ◌+◌, ◌^◌, ◌<◌, ◌≤◌, List, [], ◌∷◌, ◌++◌, length, take, IsTrue, ◌↔◌, OnOk, IfOk, IfErr};
ghost use Rattle.mes_json.specs.Inner.{inner};
ghost use Rattle.mes_msg.specs.Texts.{IsTextOf};
ghost use Rattle.mes_session_log_entry.specs.Entries.{BeginsMessage, IsWholeMessage};
ghost use Rattle.mes_stream.specs.Refusals.{IsJson};
ghost use Rattle.mes_session_log_entry.specs.Lettered.{HasText, HoldsLettered, LetteredBreaks, HoldsAt, IsTextRefusal, SpellsLettered, kept_text};
ghost use Rattle.mes_json.specs.declared.lexer.Lexer.{Lexer as LexerValue};

use crate::record_letters::{CALL, EVENT};
use mes_json::{Lexer, NoMemoryAt, lexer_bound};
use mes_model_schema::{MAX_PATH_STEPS, Part, PathBuilder};
use mes_msg::{Call, Event};
use mes_stream::RecordError;
use std::alloc::Global;

#[derive(Drop)]
pub(crate) enum Lettered {
    /// The letter of an event and then the event's text.
    Event(Event),
    /// The letter of a call and then the call's text.
    Call(Call),
    /// A single byte that is neither the letter of an event nor that of a call.
    Alone(u8),
}

// The position in the data of a record.
#[derive(Clone, Copy, Debug, PartialEq, Eq)]
enum Place {
    // Before the first byte.
    Start,
    // After the letter of an event; the lexer has the text so far.
    Event,
    // After the letter of a call; the lexer has the text so far.
    Call,
    // After a single byte that is neither of these two letters.
    Alone(u8),
    // After more than one byte, of which the first is neither of these two letters.
    More,
}

/// The incremental reader of the data of consecutive records. It passes the text after a letter to
/// a lexer, and buffers no bytes itself.
#[derive(Drop)]
pub(crate) struct LetteredReader {
    alloc: Global,
    place: Place,
    lexer: Lexer,
}

impl LetteredReader {
    /// Returns a reader before the first record. Does not allocate.
    pub(crate) fn new(alloc: Global) -> LetteredReader
        ensures { HoldsLettered result [] }
    {
        LetteredReader {
            alloc,
            place: Place::Start,
            lexer: Lexer::new(alloc),
        }
    }

    pub(crate) fn push_run(&mut self, bytes: &[u8]) -> Result<(), NoMemoryAt>
        // On success: all of `bytes` is consumed.
        ensures ok { OnOk result ((r : List ℕ) → HoldsLettered self.old r
            → HoldsLettered self.new (r ++ bytes.now)) }
        // Each error: an allocation failed at byte `taken` of `bytes`.
        ensures err { IfErr result (λ refused. 0 < length bytes.now
            → refused.taken < length bytes.now) }
        // The data as far as that byte begin like an event or a call.
        ensures begins { (r : List ℕ) → HoldsLettered self.old r
            → IfErr result (λ refused. BeginsMessage (r ++ take (refused.taken + 1) bytes.now)) }
    {
        if !self.is_at_start() {
            return self.push_after(bytes);
        }
        let Some((letter, text)) = bytes.split_first() else {
            return Ok(());
        };
        self.place = offset_after(*letter);
        if text.is_empty() {
            return Ok(());
        }
        match self.push_after(text) {
            Ok(()) => Ok(()),
            Err(refused) => Err(NoMemoryAt {
                taken: refused.taken + 1,
            }),
        }
    }

    // Returns whether no byte of the data is consumed yet.
    fn is_at_start(&self) -> bool
        ensures { IsTrue result ↔ (self.now.place ≡ Place.Start) }
    {
        match self.place {
            Place::Start => true,
            Place::Event => false,
            Place::Call => false,
            Place::Alone(_) => false,
            Place::More => false,
        }
    }

    // Consumes bytes of the data that follow the first byte.
    fn push_after(&mut self, bytes: &[u8]) -> Result<(), NoMemoryAt>
        ensures ok { OnOk result ((r : List ℕ) → r ≢ [] → HoldsLettered self.old r
            → HoldsLettered self.new (r ++ bytes.now)) }
        ensures err { IfErr result (λ refused. 0 < length bytes.now
            → refused.taken < length bytes.now) }
        ensures begins { (r : List ℕ) → r ≢ [] → HoldsLettered self.old r
            → IfErr result (λ refused. BeginsMessage (r ++ take (refused.taken + 1) bytes.now)) }
    {
        match self.place {
            Place::Event => self.lexer.push_run(bytes),
            Place::Call => self.lexer.push_run(bytes),
            Place::Alone(_) => {
                if !bytes.is_empty() {
                    self.place = Place::More;
                }
                Ok(())
            }
            Place::More => Ok(()),
            Place::Start => Ok(()),
        }
    }

    /// Ends the data of the record and returns their value or their fault.
    pub(crate) fn finish(&mut self) -> Result<Lettered, RecordError>
        ensures ok { (r : List ℕ) → HoldsLettered self.old r → length r < 2 ^ 64
            → IfOk result (SpellsLettered r) }
        ensures err { (r : List ℕ) → HoldsLettered self.old r → length r < 2 ^ 64
            → IfErr result (LetteredBreaks r) }
        // Data that are not a whole event or call have an error of their own.
        ensures memory { (r : List ℕ) → HoldsLettered self.old r → (IsWholeMessage r → ⊥)
            → IfErr result (λ why. why ≢ RecordError.NoMemory) }
        // On success: the reader is ready for the next record.
        ensures next { OnOk result (HoldsLettered self.new []) }
    {
        let place = self.place;
        self.place = Place::Start;
        match place {
            Place::Event => {
                let event = end_text(self.alloc, &mut self.lexer)?;
                Ok(Lettered::Event(event))
            }
            Place::Call => {
                let call = end_text(self.alloc, &mut self.lexer)?;
                Ok(Lettered::Call(call))
            }
            Place::Alone(letter) => {
                self.lexer = Lexer::new(self.alloc);
                Ok(Lettered::Alone(letter))
            }
            Place::More => Err(RecordError::BadEntry),
            Place::Start => Err(RecordError::BadEntry),
        }
    }

    /// Frees the text that the lexer buffers. The reader is as at the beginning of a record.
    pub(crate) fn release(&mut self)
        ensures kept { kept_text self.new ≡ 0 }
        ensures holds { HoldsLettered self.new [] }
    {
        self.place = Place::Start;
        self.lexer = Lexer::new(self.alloc);
        lexer_bound(&self.lexer);
    }

    /// Returns the number of buffered bytes of texts and numbers, without spare capacity.
    pub(crate) fn held(&self) -> u64
        ensures count { result ≡ kept_text self.now }
        ensures most { (r : List ℕ) → HoldsLettered self.now r → result ≤ inner r }
    {
        lexer_bound(&self.lexer);
        self.lexer.held()
    }
}

// Returns the position after the first byte of the data.
fn offset_after(letter: u8) -> Place
    ensures { (lexer : LexerValue) → HasText lexer [] → HoldsAt result lexer (letter ∷ []) }
{
    if letter == EVENT {
        Place::Event
    } else if letter == CALL {
        Place::Call
    } else {
        Place::Alone(letter)
    }
}

// Reads the lexer's text as a message, and resets the lexer for the next text.
fn end_text<T: Part>(alloc: Global, lexer: &mut Lexer) -> Result<T, RecordError>
    requires { T.STEPS ≤ MAX_PATH_STEPS }
    ensures ok { (text : List ℕ) → HasText lexer.old text → length text < 2 ^ 64
        → IfOk result (IsTextOf T.kind text) }
    ensures err { (text : List ℕ) → HasText lexer.old text → length text < 2 ^ 64
        → IfErr result (IsTextRefusal T.kind text) }
    ensures memory { (text : List ℕ) → HasText lexer.old text → (IsJson text → ⊥)
        → IfErr result (λ why. why ≢ RecordError.NoMemory) }
    ensures next { OnOk result (HasText lexer.new []) }
{
    let tape = lexer.take()?;
    let message = T::read_from(alloc, &tape.root(), &PathBuilder::new())?;
    lexer.reuse(tape);
    Ok(message)
}
