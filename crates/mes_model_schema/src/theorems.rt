//! Laws of every [`Part`], stated as contracts of generic functions, most of which are empty.

ghost use Rattle.std.specs.Prelude.{◌≡◌, ℕ, ◌+◌, ◌≤◌, List as list, Ok, length, IfOk, IfErr};
ghost use Rattle.mes_json.specs.Tree.{Tree};
ghost use Rattle.mes_model_schema.specs.Paths.{Place};
ghost use Rattle.mes_json.specs.View.{view};
ghost use Rattle.mes_model_schema.specs.Kinds.{Settled, Within, Reaches, Returns};
ghost use Rattle.mes_model_schema.specs.Lists.{list_of};
ghost use Rattle.mes_model_schema.specs.EitherLists.{either_list};
ghost use Rattle.mes_model_schema.specs.Rows.{ReturnsEach};
ghost use Rattle.mes_model_schema.specs.Parts.{Gives, IsFirstFault};

use crate::limits::{MAX_PATH_NAME, MAX_PATH_STEPS, MAX_PATH_TEXT, MAX_ROWS};
use crate::list::List;
use crate::part::{Part, PartFault};
use crate::path::Path;
use crate::path_builder::PathBuilder;
use crate::read_row::read_items;
use mes_json::{Json, Tape};
use std::alloc::Global;

/// Any tree, at any path, has exactly one value of the type or exactly one first fault.
pub fn one_answer<T: Part>()
    ensures { (at : list Place) (t : Tree) → Settled T.kind at t }
{}

/// A fault of a tree has a path of at most `STEPS` steps from that tree. Some tree other than
/// `null` has a fault of exactly `STEPS` steps.
pub fn most_steps<T: Part>()
    ensures within { Within T.kind T.STEPS }
    ensures reached { Reaches T.kind T.STEPS }
{}

/// A value that is read back from its own tree is read back at any path.
pub fn returned<T: Part>()
    ensures { (at : list Place) (value : T) → Returns T.kind value
        → T.kind.read at (T.kind.tree value) ≡ Ok value }
{}

/// Shows that the value is read back from the tree that it is written as. Does not allocate.
pub fn value_returned<T: Part>(value: &T)
    ensures { Returns T.kind value.now }
{
    value.reads_back();
}

/// Any tree, at any path, has exactly one list of values of the type or exactly one first fault.
pub fn list_reading_is_unique<T: Part>()
    ensures { (at : list Place) (t : Tree) → Settled (list_of T.kind) at t }
{}

/// A list is read back from its own tree at any path, if each of its values is read back.
pub fn list_returned<T: Part>()
    // If each value is read back from its own tree, so is the list.
    ensures { (at : list Place) (values : list T) → ReturnsEach T.kind values
        → (list_of T.kind).read at ((list_of T.kind).tree values) ≡ Ok values }
{}

/// Any tree, at any path, has exactly one list, as an array or as an object with the array, or
/// exactly one first fault.
pub fn either_list_reading_is_unique<T: Part>()
    ensures { (n : list ℕ) (at : list Place) (t : Tree) → Settled (either_list n T.kind) at t }
{}

/// A list is read back from the object that it is written as, if each of its values is read back.
pub fn either_list_returned<T: Part>()
    // If each value is read back from its own tree, the list is read back from the object.
    ensures { (n : list ℕ) (at : list Place) (values : list T) → ReturnsEach T.kind values
        → (either_list n T.kind).read at ((either_list n T.kind).tree values) ≡ Ok values }
{}

/// Writes a value as a tree and reads it back: the result equals the value, unless an allocation
/// failed.
pub fn written_again<T: Part>(alloc: Global, value: &T) -> Result<T, PartFault>
    requires { T.STEPS ≤ MAX_PATH_STEPS }
    ensures { Gives (Ok value.now) result }
{
    let tree = value.tree(alloc)?;
    T::read(alloc, &tree, &Path::new())
}

/// Reads the one value of a JSON tree, or returns the first fault.
pub fn read_part<T: Part>(alloc: Global, json: &Json, path: &Path) -> Result<T, PartFault>
    requires { length path.now + T.STEPS ≤ MAX_PATH_STEPS }
    ensures found { IfOk result (λ v. T.kind.Reads (view json.now) v) }
    ensures only { (v : T) → T.kind.Reads (view json.now) v → Gives (Ok v) result }
    ensures fault { IfErr result (λ e. IsFirstFault T.kind path.now (view json.now) e) }
{
    T::read(alloc, json, path)
}

/// Reads the items of an array in order, or returns the first fault. Builds a token tape first.
pub fn read_list<T: Part>(alloc: Global, json: &Json, path: &Path) -> Result<List<T>, PartFault>
    requires { length path.now + 1 + T.STEPS ≤ MAX_PATH_STEPS }
    ensures { Gives ((list_of T.kind).read path.now (view json.now)) result }
{
    let tape = Tape::of_json(alloc, json)?;
    read_items(alloc, &tape.root(), &PathBuilder::along(path))
}

/// A path has at most 16 steps, names of at most 31 bytes and a text of at most 512 bytes. The
/// table of a message has at most 64 rows.
pub fn part_limits()
    ensures { (MAX_PATH_STEPS ≡ 16) × (MAX_PATH_NAME ≡ 31) × (MAX_PATH_TEXT ≡ 512)
        × (MAX_ROWS ≡ 64) }
{}
