//! The kinds of rows in the table of a message: required, optional, list and flag. A row describes
//! the member of one name.

ghost use Rattle.std.specs.Prelude.{ℕ, ◌+◌, ◌≤◌, List as list, length};
ghost use Rattle.mes_json.specs.Tree.{Members};
ghost use Rattle.mes_model_schema.specs.Fields.{values_named};
ghost use Rattle.mes_model_schema.specs.FoundRows.{IsFound};
ghost use Rattle.mes_model_schema.specs.Parts.{Gives};
ghost use Rattle.mes_model_schema.specs.Paths.{Place, IsPlace};
ghost use Rattle.mes_model_schema.specs.Rows.{Table, need, maybe, many, flag};

use crate::found_rows::Found;
use crate::limits::MAX_PATH_STEPS;
use crate::list::List;
use crate::part::{Part, PartFault};
use crate::path_builder::PathBuilder;
use crate::read_row::{flagged, optional, repeated, required};
use std::alloc::Global;
use std::marker::PhantomData;

/// A kind of row in the table of a message: how the member of one name is read.
pub trait Row {
    /// The type of the values read by a row of this kind.
    type Value: Drop;

    // The table whose only row is the one of this name.
    ghost table: { list ℕ → Table Self.Value };

    // The most steps from the message to a fault in the member.
    ghost STEPS: { ℕ };

    /// Reads the value of the member `name`, given what was found under that name, or returns the
    /// first fault.
    fn read_row(
        alloc: Global,
        found: &Found<'_>,
        name: &'static str,
        path: &PathBuilder<'_>,
    ) -> Result<Self::Value, PartFault>
        requires room { length path.now + STEPS ≤ MAX_PATH_STEPS }
        requires step { IsPlace (Place.name name.now) }
        ensures { (ms : Members) → IsFound found.now (values_named name.now ms)
            → Gives ((table name.now).read path.now ms) result };
}

/// The row of a required member.
pub struct RequiredRow<T> {
    of: PhantomData<T>,
}

impl<T: Part> Row for RequiredRow<T> {
    type Value = T;

    ghost table = { λ n. need n T.kind };

    ghost STEPS = { 1 + T.STEPS };

    fn read_row(
        alloc: Global,
        found: &Found<'_>,
        name: &'static str,
        path: &PathBuilder<'_>,
    ) -> Result<T, PartFault> {
        required(alloc, found, name, path)
    }
}

/// The row of an optional member: its value is `None` if it is absent or `null`.
pub struct OptionalRow<T> {
    of: PhantomData<T>,
}

impl<T: Part> Row for OptionalRow<T> {
    type Value = Option<T>;

    ghost table = { λ n. maybe n T.kind };

    ghost STEPS = { 1 + T.STEPS };

    fn read_row(
        alloc: Global,
        found: &Found<'_>,
        name: &'static str,
        path: &PathBuilder<'_>,
    ) -> Result<Option<T>, PartFault> {
        optional(alloc, found, name, path)
    }
}

/// The row of a list, which is empty if its member is absent or `null`.
pub struct RepeatedRow<T> {
    of: PhantomData<T>,
}

impl<T: Part> Row for RepeatedRow<T> {
    type Value = List<T>;

    ghost table = { λ n. many n T.kind };

    ghost STEPS = { 2 + T.STEPS };

    fn read_row(
        alloc: Global,
        found: &Found<'_>,
        name: &'static str,
        path: &PathBuilder<'_>,
    ) -> Result<List<T>, PartFault> {
        repeated(alloc, found, name, path)
    }
}

/// The row of a flag: an object that is present or absent, and whose members are ignored.
pub struct Flag;

impl Row for Flag {
    type Value = bool;

    ghost table = { flag };

    ghost STEPS = { 1 };

    fn read_row(
        alloc: Global,
        found: &Found<'_>,
        name: &'static str,
        path: &PathBuilder<'_>,
    ) -> Result<bool, PartFault> {
        flagged(alloc, found, name, path)
    }
}
