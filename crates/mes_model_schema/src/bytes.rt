//! Binary data, in JSON a string of padded base64; `base64_text` and `base64_blocks` decode it.

ghost use Rattle.std.specs.Prelude.{◌≡◌, [], IsTrue, ◌↔◌, length, IfOk, OnOk};
ghost use Rattle.mes_json.specs.View.{view};
ghost use Rattle.mes_model_schema.specs.Binary.{base64_bytes};
ghost use Rattle.mes_model_schema.specs.BinaryLaws.{lawful_base64_bytes};
ghost use Rattle.mes_model_schema.specs.Kinds.{Returns};

use crate::base64_text::decoded;
use crate::field::FieldFaultKind;
use crate::part::{Part, PartFault};
use crate::path_builder::PathBuilder;
use crate::plain_values::text_in;
use crate::refusal::refusal_at;
use base64::DecodeAllocError;
use base64::engine::general_purpose::STANDARD;
use mes_json::{Element, Json, NoMemory, Text};
use std::alloc::Global;
use std::hash::{Hash, Hasher};
use std::marker::Model;

/// Owned bytes, in JSON a string of padded base64 (RFC 4648 section 4). In contracts their value is
/// a list of bytes.
#[derive(Debug, Drop)]
pub struct Bytes {
    octets: Vec<u8>,
}

impl Model for Bytes {
    ghost use Rattle.std.specs.Prelude.{ℕ, List};

    ghost Value = { List ℕ };

    ghost view = { λ b. b.octets.items };
}

impl Bytes {
    /// Takes over a vector of bytes. Does not allocate.
    pub fn new(octets: Vec<u8>) -> Bytes
        ensures { result ≡ octets.items }
    {
        Bytes { octets }
    }

    /// Borrows the bytes.
    pub fn as_slice(&self) -> &[u8]
        ensures { result.now ≡ self.now }
    {
        self.octets.as_slice()
    }

    /// Returns the vector with the bytes, without a copy.
    pub fn into_vec(self) -> Vec<u8>
        ensures { result.items ≡ self }
    {
        let Bytes { octets } = self;
        octets
    }

    /// Returns the number of bytes.
    pub fn len(&self) -> usize
        ensures { result ≡ length self.now }
    {
        self.octets.len()
    }

    /// Returns whether there are no bytes.
    pub fn is_empty(&self) -> bool
        ensures { IsTrue result ↔ self.now ≡ [] }
    {
        self.octets.is_empty()
    }
}

impl PartialEq for Bytes {
    ghost use Rattle.std.proofs.Common.{rules};
    ghost use Rattle.std.specs.Cmp.Rules.{comparing};
    ghost use Rattle.std.specs.Prelude.{bytes_eq};

    ghost eq = { bytes_eq };

    ghost laws = { Prim.search (comparing, rules) };

    fn eq(&self, other: &Bytes) -> bool {
        self.as_slice() == other.as_slice()
    }
}

impl Eq for Bytes {
    ghost use Rattle.std.proofs.Common.{rules};
    ghost use Rattle.std.specs.Cmp.Rules.{comparing};

    ghost laws = { Prim.search (comparing, rules) };
}

impl Hash for Bytes {
    ghost use Rattle.std.proofs.Common.{rules};
    ghost use Rattle.std.specs.Cmp.Rules.{hashing};
    ghost use Rattle.std.specs.Hash as fed;

    ghost hash_input = { fed.slice fed.u8 };

    ghost respects_eq = { Prim.search (hashing, rules) };

    fn hash<H: Hasher>(&self, state: &mut H) {
        self.as_slice().hash(state);
    }
}

impl Part for Bytes {
    ghost kind = { base64_bytes };

    ghost STEPS = { 0 };

    const STEPS: u32 = 0;

    ghost lawful = { lawful_base64_bytes };

    fn read_from(
        alloc: Global,
        element: &Element<'_>,
        path: &PathBuilder<'_>,
    ) -> Result<Bytes, PartFault> {
        let text = text_in(alloc, element, path)?;
        match decoded(alloc, text.as_bytes()) {
            Ok(octets) => Ok(Bytes::new(octets)),
            Err(DecodeAllocError::DecodeError(_)) => {
                Err(refusal_at(alloc, path, FieldFaultKind::BadBase64))
            }
            Err(DecodeAllocError::OutOfMemory) => Err(PartFault::NoMemory),
        }
    }

    fn tree(&self, alloc: Global) -> Result<Json, NoMemory> {
        base64_tree(alloc, self.as_slice())
    }

    fn copy(&self, alloc: Global) -> Result<Bytes, NoMemory> {
        Ok(Bytes::new(Vec::from_slice(alloc, self.as_slice())?))
    }

    fn reads_back(&self) {
        octets_read_back(self.as_slice());
    }
}

/// Builds the JSON string of the base64 text of `octets`.
fn base64_tree(alloc: Global, octets: &[u8]) -> Result<Json, NoMemory>
    ensures tree { IfOk result (λ t. view t ≡ base64_bytes.tree octets.now) }
    ensures back { OnOk result (Returns base64_bytes octets.now) }
{
    let text = STANDARD.encode(alloc, octets)?;
    Ok(Json::Text(Text::new(text)))
}

/// Shows that bytes are read back from their base64 text.
fn octets_read_back(octets: &[u8])
    ensures { Returns base64_bytes octets.now }
{}
