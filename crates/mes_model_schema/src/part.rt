//! The trait of messages and of the values in them.

ghost use Rattle.std.specs.Prelude.{◌≡◌, ℕ, ◌+◌, ◌≤◌, length, IfOk, OnOk};
ghost use Rattle.mes_json.specs.Tree.{Tree};
ghost use Rattle.mes_json.specs.Tokens.{BeginsWith};
ghost use Rattle.mes_json.specs.View.{view};
ghost use Rattle.mes_model_schema.specs.Appended.{Appends};
ghost use Rattle.mes_model_schema.specs.Kinds.{Kind, Lawful, Returns};
ghost use Rattle.mes_model_schema.specs.Parts.{Gives};
ghost use Rattle.mes_model_schema.specs.declared.part.PartFault.TheVariants.{NoMemory as no_memory};

use crate::boxed::BoxedFault;
use crate::limits::MAX_PATH_STEPS;
use crate::path::Path;
use crate::path_builder::PathBuilder;
use mes_json::{Element, Json, NoMemory, Tape, write_text};
use std::alloc::{AllocError, AllocFailed, Global};

/// The reason for which a value was not read.
#[derive(Debug, Drop)]
pub enum PartFault {
    /// The JSON value is not a value of the type. The fault has the path and the reason.
    Field(BoxedFault),
    /// An allocation failed.
    NoMemory,
}

impl From<NoMemory> for PartFault {
    ghost from_gives = { λ _ e. e ≡ no_memory };

    fn from(_refused: NoMemory) -> PartFault {
        PartFault::NoMemory
    }
}

impl From<AllocError> for PartFault {
    ghost from_gives = { λ _ e. e ≡ no_memory };

    fn from(_refused: AllocError) -> PartFault {
        PartFault::NoMemory
    }
}

impl<T: Drop> From<AllocFailed<T>> for PartFault {
    ghost from_gives = { λ _ e. e ≡ no_memory };

    fn from(_refused: AllocFailed<T>) -> PartFault {
        PartFault::NoMemory
    }
}

/// A message, or a value that a message may have.
pub trait Part: Drop {
    ghost kind: { Kind Self };

    ghost STEPS: { ℕ };

    /// The most steps from a value of this type to a fault in the value.
    const STEPS: u32;

    /// Reads the value at `element`, whose path is `path`, or returns the first fault.
    fn read_from(
        alloc: Global,
        element: &Element<'_>,
        path: &PathBuilder<'_>,
    ) -> Result<Self, PartFault>
        requires { length path.now + STEPS ≤ MAX_PATH_STEPS }
        ensures { (t : Tree) → BeginsWith element.now t → Gives (kind.read path.now t) result };

    /// Reads the value from a JSON tree whose path is `path`, or returns the first fault. Builds a
    /// token tape of the tree first.
    final fn read(alloc: Global, json: &Json, path: &Path) -> Result<Self, PartFault>
        requires { length path.now + STEPS ≤ MAX_PATH_STEPS }
        ensures { Gives (kind.read path.now (view json.now)) result }
    {
        let tape = Tape::of_json(alloc, json)?;
        Self::read_from(alloc, &tape.root(), &PathBuilder::along(path))
    }

    /// Builds the JSON tree that the value is written as.
    fn tree(&self, alloc: Global) -> Result<Json, NoMemory>
        ensures tree { IfOk result (λ t. view t ≡ kind.tree self.now) }
        // On success: the value is read back from the tree.
        ensures back { OnOk result (Returns kind self.now) };

    /// Appends the canonical text of the value's tree and returns its nesting depth. On `NoMemory`
    /// the content of `out` is unspecified.
    fn write_json(&self, alloc: Global, out: &mut Vec<u8>) -> Result<u64, NoMemory>
        ensures text { IfOk result (λ deep. Appends out.old.items (kind.tree self.now) out.new.items
            deep) }
        // On success: the value is read back from the tree.
        ensures back { OnOk result (Returns kind self.now) }
    {
        let tree = self.tree(alloc)?;
        write_text(&tree, out)?;
        Ok(tree.depth())
    }

    /// Copies the value.
    fn copy(&self, alloc: Global) -> Result<Self, NoMemory>
        ensures { IfOk result (λ v. v ≡ self.now) };

    /// Shows that the value is read back from the tree that it is written as. Does not allocate.
    fn reads_back(&self)
        ensures { Returns kind self.now };

    ghost lawful: { Lawful kind STEPS };
}
