//! Reads whole JSON texts. Texts in pieces are read in `lexer`.
ghost use Rattle.std.specs.Prelude.{◌≡◌, IfOk, IfErr, MatchResult};
ghost use Rattle.mes_json.specs.Tree.{Tree};
ghost use Rattle.mes_json.specs.Grammar.{IsText};
ghost use Rattle.mes_json.specs.Place.{IsReadFault};
ghost use Rattle.mes_json.specs.Tokens.{tokens};
ghost use Rattle.mes_json.specs.View.{view};

use crate::fault::{ReadFault, TextFault, TextFaultKind};
use crate::limits::MAX_NESTING;
use crate::reader::Reader;
use crate::tape::Tape;
use crate::value::Json;
use std::alloc::Global;

/// Reads `bytes` as one JSON text (RFC 8259 section 2) with at most `MAX_NESTING` levels of arrays
/// and objects. An escaped lone surrogate, ill-formed UTF-8 and a byte order mark are errors.
pub fn read_text(alloc: Global, bytes: &[u8]) -> Result<Json, ReadFault>
    // On success: the bytes are a JSON text of the value returned.
    ensures read { IfOk result (λ json. IsText MAX_NESTING bytes.now (view json)) }
    // Every JSON text is read, unless an allocation fails.
    ensures only { (t : Tree) → IsText MAX_NESTING bytes.now t
        → MatchResult result (λ json. view json ≡ t) (λ e. e ≡ ReadFault.NoMemory) }

    // On error: the offset is the length of the longest prefix that some text begins with; or
    // `NoMemory`.
    ensures fault { IfErr result (λ e. IsReadFault MAX_NESTING bytes.now e) }
{
    let tape = read_tape(alloc, bytes)?;
    Ok(tape.root().to_json(alloc)?)
}

/// Like [`read_text`], but returns a tape and builds no tree.
pub fn read_tape(alloc: Global, bytes: &[u8]) -> Result<Tape, ReadFault>
    // On success: the bytes are a JSON text of the value that has the tape's tokens.
    ensures read { IfOk result (λ tape. (t : Tree) × IsText MAX_NESTING bytes.now t
        × (tape ≡ tokens t)) }
    // Every JSON text is read, unless an allocation fails.
    ensures only { (t : Tree) → IsText MAX_NESTING bytes.now t
        → MatchResult result (λ tape. tape ≡ tokens t) (λ e. e ≡ ReadFault.NoMemory) }

    // On error: as in `read_text`.
    ensures fault { IfErr result (λ e. IsReadFault MAX_NESTING bytes.now e) }
{
    let mut reader = Reader::new(alloc);
    reader.take_all(bytes)?;
    match reader.into_tape(alloc)? {
        Some(tape) => Ok(tape),
        None => Err(ReadFault::Text(TextFault {
            byte: bytes.len() as u64,
            why: TextFaultKind::End,
        })),
    }
}
