//! Messages read and written by a table of their members. `row_list` reads the members that the
//! rows of the table describe, `row_ref_list` writes them.

ghost use Rattle.std.specs.Prelude.{◌≡◌, true, ◌+◌, ◌≤◌, length, map, IfOk, OnOk};
ghost use Rattle.mes_json.specs.Tree.{Tree};
ghost use Rattle.mes_json.specs.Tree.Tree.{object};
ghost use Rattle.mes_json.specs.Tokens.{BeginsWith};
ghost use Rattle.mes_json.specs.View.{view, members_of};
ghost use Rattle.mes_model_schema.specs.Appended.{Appends};
ghost use Rattle.mes_model_schema.specs.Layouts.{message_of};
ghost use Rattle.mes_model_schema.specs.Rows.{message};
ghost use Rattle.mes_model_schema.specs.Parts.{Gives};
ghost use Rattle.mes_model_schema.specs.RowNames.{are_names};

use crate::append::close_object;
use crate::choice::Choice;
use crate::found_rows::{find_rows, nothing_found};
use crate::limits::{MAX_PATH_STEPS, MAX_ROWS};
use crate::part::PartFault;
use crate::path_builder::PathBuilder;
use crate::row_list::RowList;
use crate::row_ref_list::RowRefList;
use crate::write_row::whole_object;
use mes_json::{Element, Json, NoMemory};
use std::alloc::Global;

/// A message that is made from `V`, the values of its members as nested pairs.
pub trait ConstructFrom<V>: Drop {
    // The message made from these values.
    ghost to: { V → Self };

    /// Makes the message from the values of its members. Does not allocate.
    fn made_of(values: V) -> Self
        ensures { result ≡ to values };
}

/// Reads the message at `element`, whose path is `path`, by the table with the rows `R` and these
/// member names, or returns the first fault.
pub fn read_message<R: RowList, M: ConstructFrom<R::Values>, const N: usize>(
    alloc: Global,
    element: &Element<'_>,
    names: &[&'static str],
    path: &PathBuilder<'_>,
) -> Result<M, PartFault>
    requires room { length path.now + R.STEPS ≤ MAX_PATH_STEPS }
    requires most { N ≤ MAX_ROWS }
    requires each { length names.now ≡ N }
    requires rows { R.COUNT ≡ length names.now }
    requires names { are_names (map (λ n. n.now) names.now) ≡ true }
    requires fits { R.fits (map (λ n. n.now) names.now) 0 ≡ true }
    // The result is the value that the table reads from the tree, the tree's first fault, or
    // `NoMemory`.
    ensures { (t : Tree) → BeginsWith element.now t
        → Gives (message_of (R.table (map (λ n. n.now) names.now) 0) M.to path.now t) result }
{
    let mut found = nothing_found::<N>();
    find_rows(alloc, element, names, path, &mut found)?;
    let values = R::read_rows(alloc, found.as_slice(), names, 0, path)?;
    Ok(M::made_of(values))
}

/// Builds the JSON object of a message from the values of its members.
pub fn message_tree<R: RowRefList>(
    alloc: Global,
    names: &[&str],
    rows: &R,
) -> Result<Json, NoMemory>
    requires { R.COUNT ≡ length names.now }
    // On success: the result is the object of the members that the table writes.
    ensures tree { IfOk result (λ t. view t
        ≡ object (members_of ((R.table (map (λ n. n.now) names.now) 0).members
        (R.values rows.now)))) }
    ensures back { OnOk result ((R.table (map (λ n. n.now) names.now) 0).Back (R.values rows.now)) }
{
    let mut members = Vec::new(alloc);
    rows.push_rows_tree(&mut members, alloc, names, 0)?;
    Ok(whole_object(members))
}

/// Appends the text of a message from the values of its members, and returns its nesting depth.
pub fn message_text<R: RowRefList>(
    alloc: Global,
    names: &[&str],
    rows: &R,
    out: &mut Vec<u8>,
) -> Result<u64, NoMemory>
    requires { R.COUNT ≡ length names.now }
    // On success: the canonical text of the object that `message_tree` builds is appended.
    ensures text { IfOk result (λ deep. Appends out.old.items
        (object (members_of ((R.table (map (λ n. n.now) names.now) 0).members (R.values rows.now))))
        out.new.items deep) }
    ensures back { OnOk result ((R.table (map (λ n. n.now) names.now) 0).Back (R.values rows.now)) }
{
    let start = out.len();
    let deepest = rows.write_rows_text(alloc, names, 0, out)?;
    close_object(deepest, start, out)
}

/// Reads a message that is a single typed value, or returns the first fault.
#[inline(always)]
pub fn read_typed<C: Choice, const N: usize>(
    alloc: Global,
    element: &Element<'_>,
    names: &[&'static str],
    path: &PathBuilder<'_>,
) -> Result<C, PartFault>
    requires room { length path.now + C.STEPS ≤ MAX_PATH_STEPS }
    requires most { N ≤ MAX_ROWS }
    requires each { length names.now ≡ N }
    requires names { are_names (map (λ n. n.now) names.now) ≡ true }
    requires fits { map (λ n. n.now) names.now ≡ C.names }
    ensures { (t : Tree) → BeginsWith element.now t
        → Gives ((message C.table).read path.now t) result }
{
    let mut found = nothing_found::<N>();
    find_rows(alloc, element, names, path, &mut found)?;
    C::read_choice(alloc, found.as_slice(), path)
}

/// Builds the JSON object of a message that is a single typed value.
pub fn typed_tree<C: Choice>(alloc: Global, value: &C) -> Result<Json, NoMemory>
    ensures tree { IfOk result (λ t. view t ≡ (message C.table).tree value.now) }
    ensures back { OnOk result (C.table.Back value.now) }
{
    let mut members = Vec::new(alloc);
    value.push_choice_tree(&mut members, alloc)?;
    Ok(whole_object(members))
}

/// Appends the text of a message that is a single typed value, and returns its nesting depth.
pub fn typed_text<C: Choice>(alloc: Global, value: &C, out: &mut Vec<u8>) -> Result<u64, NoMemory>
    ensures text { IfOk result (λ deep. Appends out.old.items ((message C.table).tree value.now)
        out.new.items deep) }
    ensures back { OnOk result (C.table.Back value.now) }
{
    let start = out.len();
    let deepest = value.write_choice_text(alloc, out)?;
    close_object(deepest, start, out)
}
