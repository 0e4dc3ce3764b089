//! The rows of the table of a message, whose members are read in order.

ghost use Rattle.std.specs.Prelude.{◌≡◌, Bool, true, ℕ, ◌+◌, ◌≤◌, max, List as list, length, map};
ghost use Rattle.mes_json.specs.Tree.{Members};
ghost use Rattle.mes_model_schema.specs.FoundRows.{FindsAll};
ghost use Rattle.mes_model_schema.specs.Parts.{Gives};
ghost use Rattle.mes_model_schema.specs.RowNames.{are_short, name_at};
ghost use Rattle.mes_model_schema.specs.Rows.{Table, no_rows, ◌⨾◌};

use crate::found_rows::Found;
use crate::limits::MAX_PATH_STEPS;
use crate::part::PartFault;
use crate::path_builder::PathBuilder;
use crate::row::Row;
use std::alloc::Global;

/// The rows of a table in order: `()`, or a row and the rows after it.
pub trait RowList {
    /// The values of the members, as nested pairs.
    type Values: Drop;

    // The table of these rows, given a list of names and the index of the first row's name.
    ghost table: { list (list ℕ) → ℕ → Table Self.Values };

    // The number of names that the rows use.
    ghost COUNT: { ℕ };

    // The most steps from the message to a fault in one of the members.
    ghost STEPS: { ℕ };

    // From this index on, the list has the names of each typed value where its rows expect them.
    ghost fits: { list (list ℕ) → ℕ → Bool };

    /// Reads the members under the names from index `first` on, given what was found under each
    /// name, or returns the first fault.
    fn read_rows(
        alloc: Global,
        found: &[Found<'_>],
        names: &[&'static str],
        first: usize,
        path: &PathBuilder<'_>,
    ) -> Result<Self::Values, PartFault>
        requires room { length path.now + STEPS ≤ MAX_PATH_STEPS }
        requires rows { first + COUNT ≤ length names.now }
        requires all { length names.now ≤ length found.now }
        requires names { are_short (map (λ n. n.now) names.now) ≡ true }
        requires fits { fits (map (λ n. n.now) names.now) first ≡ true }
        // The result is the values that the table reads from the members `ms`, the first fault, or
        // `NoMemory`.
        ensures { (ms : Members) → FindsAll (map (λ n. n.now) names.now) ms found.now
            → Gives ((table (map (λ n. n.now) names.now) first).read path.now ms) result };
}

impl RowList for () {
    type Values = ();

    ghost table = { λ ns i. no_rows };

    ghost COUNT = { 0 };

    ghost STEPS = { 0 };

    ghost fits = { λ ns i. true };

    fn read_rows(
        _alloc: Global,
        _found: &[Found<'_>],
        _names: &[&'static str],
        _first: usize,
        _path: &PathBuilder<'_>,
    ) -> Result<(), PartFault> {
        Ok(())
    }
}

impl<H: Row, T: RowList> RowList for (H, T) {
    type Values = (H::Value, T::Values);

    ghost table = { λ ns i. H.table (name_at ns i) ⨾ T.table ns (i + 1) };

    ghost COUNT = { 1 + T.COUNT };

    ghost STEPS = { max H.STEPS T.STEPS };

    ghost fits = { λ ns i. T.fits ns (i + 1) };

    fn read_rows(
        alloc: Global,
        found: &[Found<'_>],
        names: &[&'static str],
        first: usize,
        path: &PathBuilder<'_>,
    ) -> Result<(H::Value, T::Values), PartFault> {
        let head = H::read_row(alloc, &found[first], names[first], path)?;
        let rest = T::read_rows(alloc, found, names, first + 1, path)?;
        Ok((head, rest))
    }
}
