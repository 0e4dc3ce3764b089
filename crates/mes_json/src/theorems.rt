//! Facts about all bytes, stated as contracts of functions that do nothing.
ghost use Rattle.std.specs.Prelude.{◌≡◌, ◌⊎◌, ◌≤◌, ◌++◌, ℕ, List, length};
ghost use Rattle.mes_json.specs.Tree.{Tree, depth};
ghost use Rattle.mes_json.specs.Canonical.{canonical};
ghost use Rattle.mes_json.specs.Writable.{IsWritable};
ghost use Rattle.mes_json.specs.Grammar.{IsText};
ghost use Rattle.mes_json.specs.Place.{Begins, IsFault};
ghost use Rattle.mes_json.specs.Inner.{inner};
ghost use Rattle.mes_json.specs.Lexer.{HasLexed, IsOutOfMemory, IsBounded, HoldsNothing};
ghost use Rattle.mes_json.specs.declared.fault.TextFault.{TextFault as Fault};

use crate::lexer::Lexer;
use crate::limits::{MAX_INLINE_TEXT, MAX_NESTING, MAX_REUSED_CAPACITY, MAX_TEXTS};

/// Proves that bytes are a JSON text of exactly one tree, or have exactly one first error.
pub fn text_reading_is_unique()
    // The bytes are a text or have a first error. The tree and the error are each unique.
    ensures some { (d : ℕ) (b : List ℕ)
        → ((t : Tree) × IsText d b t) ⊎ ((f : Fault) × IsFault d b f) }
    ensures tree { (d : ℕ) (b : List ℕ) (t u : Tree) → IsText d b t → IsText d b u → t ≡ u }
    ensures fault { (d : ℕ) (b : List ℕ) (f g : Fault) → IsFault d b f → IsFault d b g → f ≡ g }
{}

/// Proves that the canonical text of a tree is a JSON text of that tree, within the nesting limit.
pub fn canonical_text()
    ensures { (d : ℕ) (t : Tree) → IsWritable t → depth t ≤ d → IsText d (canonical t) t }
{}

/// Proves that a lexer buffers at most the bytes inside strings and numbers, and at most one node a
/// byte.
pub fn lexer_bound(lexer: &Lexer)
    ensures { (p : List ℕ) → HasLexed lexer.now p → IsBounded lexer.now p }
{}

/// Proves that a lexer buffers nothing after an error in the text or a failed allocation.
pub fn lexer_releases(lexer: &Lexer)
    ensures fault { (p : List ℕ) → HasLexed lexer.now p → (Begins MAX_NESTING p → ⊥)
        → HoldsNothing lexer.now }
    ensures memory { IsOutOfMemory lexer.now → HoldsNothing lexer.now }
{}

/// Proves that the number of bytes inside strings and numbers never exceeds the number of bytes,
/// and never decreases as bytes are added.
pub fn inner_grows()
    ensures grows { (p q : List ℕ) → inner p ≤ inner (p ++ q) }
    ensures within { (p : List ℕ) → inner p ≤ length p }
{}

/// Proves the limits: 128 levels of nesting, and the limits on the memory of texts and tapes.
pub fn json_limits()
    ensures nesting { MAX_NESTING ≡ 128 }
    ensures memory { (MAX_INLINE_TEXT ≡ 16) × (MAX_TEXTS ≡ 4294967295)
        × (MAX_REUSED_CAPACITY ≡ 16777216) }
{}
