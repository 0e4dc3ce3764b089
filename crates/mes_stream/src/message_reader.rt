//! Decodes the data of records as events or as calls.

ghost use Rattle.std.specs.Prelude.{◌≡◌, ◌≢◌, ℕ, ◌^◌, ◌<◌, ◌≤◌, List, [], ◌∷◌, ◌++◌, length, OnOk, OnErr, IfOk, IfErr};
ghost use Rattle.mes_json.specs.Inner.{inner};
ghost use Rattle.mes_msg.specs.Texts.{IsTextOf};
ghost use Rattle.mes_stream.specs.Refusals.{IsMessageRefusal, IsJson};
ghost use Rattle.mes_stream.specs.MessageData.{HoldsData, kept_data};

use crate::message::StreamMessage;
use crate::record_error::RecordError;
use crate::record_reader::RecordReader;
use mes_json::{Lexer, NoMemory, NoMemoryAt, TextFault, TextFaultKind, lexer_bound};
use mes_msg::{Call, Event};
use std::alloc::Global;
use std::marker::PhantomData;

/// Decodes the data of records as messages of one type. Lexes the JSON as the bytes arrive, and
/// reuses the memory of a record for the next one.
#[derive(Drop)]
pub struct MessageReader<M> {
    alloc: Global,
    lexer: Lexer,
    of: PhantomData<M>,
}

/// Decodes the data of records as events.
pub type EventReader = MessageReader<Event>;

/// Decodes the data of records as calls.
pub type CallReader = MessageReader<Call>;

impl<M: StreamMessage> MessageReader<M> {
    /// Returns a reader before the first record. Does not allocate.
    pub fn new(alloc: Global) -> MessageReader<M>
        ensures { HoldsData result [] }
    {
        MessageReader {
            alloc,
            lexer: Lexer::new(alloc),
            of: PhantomData,
        }
    }
}

impl<M: StreamMessage> RecordReader for MessageReader<M> {
    type Value = M;

    ghost holds = { HoldsData };

    ghost spells = { IsTextOf M.kind };

    ghost breaks = { IsMessageRefusal M.kind };

    ghost whole = { IsJson };

    ghost kept = { kept_data };

    ghost max_held = { inner };

    #[inline(always)]
    fn push_run(&mut self, bytes: &[u8]) -> Result<(), NoMemoryAt> {
        self.lexer.push_run(bytes)
    }

    fn finish(&mut self) -> Result<M, RecordError> {
        let tape = self.lexer.take()?;
        let message = M::read_root(self.alloc, &tape.root())?;
        self.lexer.reuse(tape);
        Ok(message)
    }

    #[inline(always)]
    fn finish_into(&mut self, messages: &mut Vec<M>) -> Result<(), RecordError> {
        let tape = self.lexer.take()?;
        let message = M::read_root(self.alloc, &tape.root())?;
        if let Err(_) = add(messages, message) {
            return Err(RecordError::NoMemory);
        }
        self.lexer.reuse(tape);
        Ok(())
    }

    fn empty_record_error(&self) -> RecordError {
        RecordError::Text(TextFault {
            byte: 0,
            why: TextFaultKind::End,
        })
    }

    fn release(&mut self) {
        self.lexer = Lexer::new(self.alloc);
        lexer_bound(&self.lexer);
    }

    fn held(&self) -> u64 {
        lexer_bound(&self.lexer);
        self.lexer.held()
    }
}

/// Appends a message. Not inlined, so that the message is moved as a whole and not field by field.
#[inline(never)]
fn add<M: Drop>(messages: &mut Vec<M>, message: M) -> Result<(), NoMemory>
    ensures ok { OnOk result (messages.new.items ≡ messages.old.items ++ message ∷ []) }
    ensures err { OnErr result (messages.new.items ≡ messages.old.items) }
{
    match messages.push(message) {
        Ok(()) => Ok(()),
        Err(_) => Err(NoMemory),
    }
}
