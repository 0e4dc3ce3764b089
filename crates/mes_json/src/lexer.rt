#![tactic(auto, unfolding(crate::specs::Lexer::HasLexed, crate::specs::Lexer::IsOutOfMemory, crate::specs::Lexer::held))]
//! Reads JSON texts that arrive in pieces. Whole texts are read in `whole_text`; the state machine
//! is in `reader`.
ghost use Rattle.std.specs.Prelude.{◌≡◌, ◌≢◌, ◌<◌, ℕ, List, [], ◌∷◌, ◌++◌, ◌+◌, length, take, Err, IfOk, IfErr, OnErr, MatchResult};
ghost use Rattle.mes_json.specs.Tree.{Tree};
ghost use Rattle.mes_json.specs.Grammar.{IsText};
ghost use Rattle.mes_json.specs.Machine.{start};
ghost use Rattle.mes_json.specs.Reader.{Fits, state_view};
ghost use Rattle.mes_json.specs.Tokens.{tokens};
ghost use Rattle.mes_json.specs.Place.{Begins};
ghost use Rattle.mes_json.specs.View.{view};
ghost use Rattle.mes_json.specs.Lexer.{HasLexed, HasNoMemory, IsOutOfMemory, IsLexFault, IsPossible, Represents, Reports, held};
ghost use Rattle.mes_json.specs.declared.fault.ReadFault.TheVariants.{NoMemory as no_memory};

use crate::fault::{ReadFault, TextFault, TextFaultKind};
use crate::limits::MAX_NESTING;
use crate::memory::{NoMemory, NoMemoryAt};
use crate::push_error::PushError;
use crate::push_run::RunStop;
use crate::reader::Reader;
use crate::tape::{Node, Tape};
use crate::text_buffer::Texts;
use crate::value::Json;
use std::alloc::Global;
use std::marker::Model;

/// The state of a lexer after the bytes pushed so far.
#[derive(Drop)]
enum LexerState {
    /// Some JSON text begins with the bytes pushed.
    Reading(Reader),
    /// No JSON text begins with the bytes pushed.
    Faulty(TextFault),
    OutOfMemory,
}

/// A reader of one JSON text (RFC 8259 section 2) whose bytes arrive one at a time or in runs.
/// Results are those of [`crate::read_text`]. In contracts `HasLexed` relates a lexer to the bytes
/// pushed.
#[derive(Drop)]
pub struct Lexer {
    alloc: Global,
    /// The number of bytes pushed before an error, saturating at 2^64 - 1.
    count: u64,
    state: LexerState,
}

// Not inlined, so that the stack frame of `push` has no space for the state dropped here.
impl LexerState {
    #[inline(never)]
    fn fail(&mut self, fault: TextFault)
        ensures { self.new ≡ LexerState.Faulty fault }
    {
        *self = LexerState::Faulty(fault);
    }

    #[inline(never)]
    fn run_out_of_memory(&mut self)
        ensures { self.new ≡ LexerState.OutOfMemory }
    {
        *self = LexerState::OutOfMemory;
    }
}

impl LexerState {
    /// Returns the tape of the value that the `count` bytes pushed represent, or their error. The
    /// state must be reset afterwards.
    #[inline(always)]
    fn take(&mut self, alloc: Global, count: u64) -> Result<Tape, ReadFault>
        requires { IsPossible (count, self.old) }
        ensures read { (p : List ℕ) → Represents count self.old p
            → IfOk result (λ tape. (t : Tree) × IsText MAX_NESTING p t × (tape ≡ tokens t)) }
        ensures only { (p : List ℕ) → Represents count self.old p → (t : Tree)
            → IsText MAX_NESTING p t
            → MatchResult result (λ tape. tape ≡ tokens t) (λ e. e ≡ ReadFault.NoMemory) }
        ensures fault { (p : List ℕ) → Represents count self.old p
            → IfErr result (λ e. IsLexFault MAX_NESTING p e) }
        ensures reported { (p : List ℕ) → Represents count self.old p
            → ((t : Tree) → IsText MAX_NESTING p t → ⊥)
            → (HasNoMemory self.old → ⊥) → result ≢ Err ReadFault.NoMemory }
        ensures memory { HasNoMemory self.old → result ≡ Err ReadFault.NoMemory }
    {
        match self {
            LexerState::Reading(reader) => match reader.take_tape(alloc)? {
                Some(tape) => Ok(tape),
                None => Err(ReadFault::Text(TextFault {
                    byte: count,
                    why: TextFaultKind::End,
                })),
            },
            LexerState::Faulty(fault) => Err(ReadFault::Text(*fault)),
            LexerState::OutOfMemory => Err(ReadFault::NoMemory),
        }
    }

    /// Resets to an empty lexer in the given memory. An existing reader is reset in place.
    #[inline(always)]
    fn restart(&mut self, alloc: Global, texts: Texts, nodes: Vec<Node>)
        requires texts { texts.items ≡ [] }
        requires nodes { nodes.items ≡ [] }
        ensures represents { Represents 0 self.new [] }
        ensures memory { HasNoMemory self.new → ⊥ }
    {
        match self {
            LexerState::Reading(reader) => reader.restart(texts, nodes),
            LexerState::Faulty(_) | LexerState::OutOfMemory => {
                *self = LexerState::Reading(Reader::within(alloc, texts, nodes));
            }
        }
    }
}

impl Model for Lexer {
    ghost use Rattle.std.specs.Prelude.{ℕ};
    ghost use Rattle.mes_json.specs.declared.lexer.LexerState.{LexerState};

    ghost Value = { ℕ × LexerState };

    ghost use Rattle.mes_json.specs.Lexer.{IsPossible};

    ghost view = { λ l. (l.count, l.state) };

    ghost invariant = { λ l. IsPossible (l.count, l.state) };
}

impl Lexer {
    /// Creates an empty lexer. Does not allocate.
    pub fn new(alloc: Global) -> Lexer
        ensures lexed { HasLexed result [] }
        ensures memory { IsOutOfMemory result → ⊥ }
    {
        Lexer::begin(alloc, Reader::new(alloc))
    }

    /// Creates an empty lexer in the memory of `tape`. A buffer above `MAX_REUSED_CAPACITY` bytes
    /// is freed. Does not allocate.
    pub fn reusing(alloc: Global, tape: Tape) -> Lexer
        ensures lexed { HasLexed result [] }
        ensures memory { IsOutOfMemory result → ⊥ }
    {
        let (texts, nodes) = tape.into_room(alloc);
        Lexer::begin(alloc, Reader::within(alloc, texts, nodes))
    }

    fn begin(alloc: Global, reader: Reader) -> Lexer
        requires fits { Fits reader }
        requires start { state_view reader ≡ start }
        ensures lexed { HasLexed result [] }
        ensures memory { IsOutOfMemory result → ⊥ }
    {
        Lexer {
            alloc,
            count: 0,
            state: LexerState::Reading(reader),
        }
    }

    /// Pushes one byte. After an error in the text, bytes are ignored, and [`Lexer::finish`]
    /// returns the error. Returns `NoMemory` if an allocation fails now or failed before.
    #[inline(never)]
    pub fn push(&mut self, byte: u8) -> Result<(), NoMemory>
        ensures lexed { (p : List ℕ) → HasLexed self.old p → HasLexed self.new (p ++ byte ∷ []) }
        ensures reports { Reports result self.new }
        ensures stays { IsOutOfMemory self.old → IsOutOfMemory self.new }
        // On the first error: some text begins with the bytes pushed and this one.
        ensures begins { (p : List ℕ) → HasLexed self.old p → (IsOutOfMemory self.old → ⊥)
            → OnErr result (Begins MAX_NESTING (p ++ byte ∷ [])) }
    {
        match &mut self.state {
            LexerState::Reading(reader) => match reader.step(byte) {
                Ok(()) => {
                    self.count = self.count.saturating_add(1);
                    Ok(())
                }
                Err(PushError::Refused(why)) => {
                    self.state.fail(TextFault {
                        byte: self.count,
                        why,
                    });
                    Ok(())
                }
                Err(PushError::NoMemory) => {
                    self.state.run_out_of_memory();
                    Err(NoMemory)
                }
            },
            LexerState::Faulty(_) => Ok(()),
            LexerState::OutOfMemory => Err(NoMemory),
        }
    }

    /// Pushes a run of bytes with the effect of `push` for each, but copies plain characters of a
    /// string together. Returns `NoMemoryAt` if an allocation fails now or failed before.
    #[inline(always)]
    pub fn push_run(&mut self, bytes: &[u8]) -> Result<(), NoMemoryAt>
        ensures lexed { (p : List ℕ) → HasLexed self.old p → HasLexed self.new (p ++ bytes.now) }
        ensures reports { Reports result self.new }
        ensures stays { IsOutOfMemory self.old → IsOutOfMemory self.new }
        // On error: `taken` is the offset of the first byte not pushed.
        ensures taken { IfErr result (λ refused. 0 < length bytes.now
            → refused.taken < length bytes.now) }
        // On the first error: some text begins with the bytes pushed and the byte at `taken`.
        ensures begins { (p : List ℕ) → HasLexed self.old p → (IsOutOfMemory self.old → ⊥)
            → IfErr result (λ refused.
            Begins MAX_NESTING (p ++ take (refused.taken + 1) bytes.now)) }
        ensures again { IsOutOfMemory self.old → IfErr result (λ refused. refused.taken ≡ 0) }
    {
        match &mut self.state {
            LexerState::Reading(reader) => match reader.take_bytes(bytes) {
                Ok(()) => {
                    self.count = self.count.saturating_add(bytes.len() as u64);
                    Ok(())
                }
                Err(RunStop { place, stop }) => match stop {
                    PushError::Refused(why) => {
                        self.state = LexerState::Faulty(TextFault {
                            byte: self.count.saturating_add(place as u64),
                            why,
                        });
                        Ok(())
                    }
                    PushError::NoMemory => {
                        self.state = LexerState::OutOfMemory;
                        Err(NoMemoryAt { taken: place })
                    }
                },
            },
            LexerState::Faulty(_) => Ok(()),
            LexerState::OutOfMemory => Err(NoMemoryAt { taken: 0 }),
        }
    }

    /// Returns the number of buffered bytes of strings and numbers, without spare capacity.
    /// [`crate::lexer_bound`] gives their maximum.
    pub fn held(&self) -> u64
        ensures count { result ≡ held self.now }
        // 0 after an error in the text or a failed allocation.
        ensures fault { (p : List ℕ) → HasLexed self.now p → (Begins MAX_NESTING p → ⊥)
            → result ≡ 0 }
        ensures memory { IsOutOfMemory self.now → result ≡ 0 }
    {
        match &self.state {
            LexerState::Reading(reader) => reader.held(),
            LexerState::Faulty(_) => 0,
            LexerState::OutOfMemory => 0,
        }
    }

    /// Ends the text. Returns the tree of the text, or the first error of its bytes.
    pub fn finish(self) -> Result<Json, ReadFault>
        // On success: the bytes pushed are a JSON text of the value returned.
        ensures read { (p : List ℕ) → HasLexed self p
            → IfOk result (λ json. IsText MAX_NESTING p (view json)) }
        // Every JSON text is read, unless an allocation fails.
        ensures only { (p : List ℕ) → HasLexed self p → (t : Tree) → IsText MAX_NESTING p t
            → MatchResult result (λ json. view json ≡ t) (λ e. e ≡ ReadFault.NoMemory) }

        // On error: the offset of the first error, saturating at 2^64 - 1, and its reason; or
        // `NoMemory`.
        ensures fault { (p : List ℕ) → HasLexed self p
            → IfErr result (λ e. IsLexFault MAX_NESTING p e) }

        // If no push failed, bytes that are no text give their error rather than `NoMemory`. After
        // a failed push, `NoMemory` is returned.
        ensures reported { (p : List ℕ) → HasLexed self p
            → ((t : Tree) → IsText MAX_NESTING p t → ⊥)
            → (IsOutOfMemory self → ⊥) → result ≢ Err ReadFault.NoMemory }
        ensures memory { IsOutOfMemory self → result ≡ Err ReadFault.NoMemory }
    {
        let alloc = self.alloc;
        let tape = self.end()?;
        Ok(tape.root().to_json(alloc)?)
    }

    /// Ends the text. Returns the tape of the text, or the first error of its bytes.
    pub fn end(mut self) -> Result<Tape, ReadFault>
        // On success: the bytes are a JSON text of the value that has the tape's tokens.
        ensures read { (p : List ℕ) → HasLexed self p
            → IfOk result (λ tape. (t : Tree) × IsText MAX_NESTING p t × (tape ≡ tokens t)) }
        // Every JSON text is read, unless an allocation fails.
        ensures only { (p : List ℕ) → HasLexed self p → (t : Tree) → IsText MAX_NESTING p t
            → MatchResult result (λ tape. tape ≡ tokens t) (λ e. e ≡ ReadFault.NoMemory) }

        // On error: as in `finish`.
        ensures fault { (p : List ℕ) → HasLexed self p
            → IfErr result (λ e. IsLexFault MAX_NESTING p e) }
        // If no push failed, bytes that are no text give their error rather than `NoMemory`. After
        // a failed push, `NoMemory` is returned.
        ensures reported { (p : List ℕ) → HasLexed self p
            → ((t : Tree) → IsText MAX_NESTING p t → ⊥)
            → (IsOutOfMemory self → ⊥) → result ≢ Err ReadFault.NoMemory }
        ensures memory { IsOutOfMemory self → result ≡ Err ReadFault.NoMemory }
    {
        self.take()
    }

    /// Like [`Lexer::end`], but also resets the lexer in place, so that only the tape moves.
    /// [`Lexer::reuse`] returns the tape's memory to the lexer.
    #[inline(always)]
    pub fn take(&mut self) -> Result<Tape, ReadFault>
        // On success: as in `end`.
        ensures read { (p : List ℕ) → HasLexed self.old p
            → IfOk result (λ tape. (t : Tree) × IsText MAX_NESTING p t × (tape ≡ tokens t)) }
        // Every JSON text is read, unless an allocation fails.
        ensures only { (p : List ℕ) → HasLexed self.old p → (t : Tree) → IsText MAX_NESTING p t
            → MatchResult result (λ tape. tape ≡ tokens t) (λ e. e ≡ ReadFault.NoMemory) }
        // On error: as in `finish`.
        ensures fault { (p : List ℕ) → HasLexed self.old p
            → IfErr result (λ e. IsLexFault MAX_NESTING p e) }
        // If no push failed, bytes that are no text give their error rather than `NoMemory`. After
        // a failed push, `NoMemory` is returned.
        ensures reported { (p : List ℕ) → HasLexed self.old p
            → ((t : Tree) → IsText MAX_NESTING p t → ⊥)
            → (IsOutOfMemory self.old → ⊥) → result ≢ Err ReadFault.NoMemory }
        ensures refused { IsOutOfMemory self.old → result ≡ Err ReadFault.NoMemory }
        ensures lexed { HasLexed self.new [] }
        ensures memory { IsOutOfMemory self.new → ⊥ }
    {
        let alloc = self.alloc;
        let tape = self.state.take(alloc, self.count);
        self.state
            .restart(alloc, Texts::new(alloc), Vec::new(alloc));
        self.count = 0;
        tape
    }

    /// Resets to an empty lexer in the memory of `tape`. A buffer above `MAX_REUSED_CAPACITY` bytes
    /// is freed. Does not allocate.
    #[inline(always)]
    pub fn reuse(&mut self, tape: Tape)
        ensures lexed { HasLexed self.new [] }
        ensures memory { IsOutOfMemory self.new → ⊥ }
    {
        let alloc = self.alloc;
        let (texts, nodes) = tape.into_room(alloc);
        self.state.restart(alloc, texts, nodes);
        self.count = 0;
    }
}
