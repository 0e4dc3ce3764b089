//! Writes the canonical text of an event or a call. `record.rt` reads such a text.
ghost use Rattle.std.specs.Prelude.{◌≡◌, IfOk, IfErr, OnOk, MatchResult};
ghost use Rattle.mes_msg_record.specs.Texts.{IsTextOf, canonical_of, Fits, IsRefusalOf};

use mes_frame::Limit;
use mes_model_schema::Part;
use mes_model_schema::json::{MAX_NESTING, NoMemory};
use std::alloc::Global;

/// The reason for which an event or a call has no canonical text within the limit.
#[derive(Debug, Drop)]
pub enum EncodeFault {
    /// The objects and arrays nest deeper than `MAX_NESTING`.
    TooDeep,
    /// The nesting is allowed, but the text has more bytes than the limit.
    TooLarge,
    /// An allocation failed.
    NoMemory,
}

impl From<NoMemory> for EncodeFault {
    ghost use Rattle.std.specs.Prelude.{◌≡◌};
    ghost use Rattle.mes_msg_record.specs.declared.canon.EncodeFault.TheVariants.{NoMemory as no_memory};

    ghost from_gives = { λ _ e. e ≡ no_memory };

    fn from(_refused: NoMemory) -> EncodeFault {
        EncodeFault::NoMemory
    }
}

/// Returns the canonical text of an event or a call. The text nests at most `MAX_NESTING` deep and
/// has at most `limit` bytes.
pub fn canonical_bytes<T: Part>(
    value: &T,
    alloc: Global,
    limit: Limit,
) -> Result<Vec<u8>, EncodeFault>
    ensures text { IfOk result (λ text. text.items ≡ canonical_of T.kind value.now) }
    ensures fits { IfOk result (λ _. Fits T.kind value.now limit) }
    ensures again { IfOk result (λ text. IsTextOf T.kind text.items value.now) }
    // If the value has a canonical text within the limit, the only error is a failed allocation.
    ensures only { Fits T.kind value.now limit
        → MatchResult result (λ text. text.items ≡ canonical_of T.kind value.now) (λ e. e
        ≡ EncodeFault.NoMemory) }
    ensures err { IfErr result (IsRefusalOf T.kind value.now limit) }
{
    let mut text = Vec::new(alloc);
    canonical_into(value, alloc, limit, &mut text)?;
    Ok(text)
}

/// Like [`canonical_bytes`], but replaces the contents of `text` and reuses its memory. After an
/// error the contents of `text` are unspecified.
pub fn canonical_into<T: Part>(
    value: &T,
    alloc: Global,
    limit: Limit,
    text: &mut Vec<u8>,
) -> Result<(), EncodeFault>
    ensures text { OnOk result (text.new.items ≡ canonical_of T.kind value.now) }
    ensures fits { OnOk result (Fits T.kind value.now limit) }
    ensures again { OnOk result (IsTextOf T.kind text.new.items value.now) }
    // If the value has a canonical text within the limit, the only error is a failed allocation.
    ensures only { Fits T.kind value.now limit
        → MatchResult result (λ _. text.new.items ≡ canonical_of T.kind value.now) (λ e. e
        ≡ EncodeFault.NoMemory) }
    ensures err { IfErr result (IsRefusalOf T.kind value.now limit) }
{
    text.clear();
    let depth = value.write_json(alloc, text)?;
    if depth > MAX_NESTING as u64 {
        return Err(EncodeFault::TooDeep);
    }
    if text.len() > limit.get() as usize {
        return Err(EncodeFault::TooLarge);
    }
    Ok(())
}
