//! The borrowed values of all members of a message, which are written in order or copied.

ghost use Rattle.std.specs.Prelude.{◌≡◌, ℕ, ◌+◌, ◌≤◌, ◌++◌, List as list, length, map, IfOk, IfErr, OnOk};
ghost use Rattle.mes_model_schema.specs.Appended.{AppendsMembers};
ghost use Rattle.mes_model_schema.specs.RowNames.{name_at};
ghost use Rattle.mes_model_schema.specs.Rows.{Table, no_rows, ◌⨾◌};
ghost use Rattle.mes_model_schema.specs.Written.{pairs_view, Continues};

use crate::append::deeper;
use crate::row_ref::RowRef;
use mes_json::{Json, NoMemory, Text};
use std::alloc::Global;

/// Borrowed values in the order of the rows: `()`, or the value of a row and the values after it.
pub trait RowRefList {
    /// The type of the owned values, as nested pairs.
    type Values: Drop;

    // The table of these rows, given a list of names and the index of the first row's name.
    ghost table: { list (list ℕ) → ℕ → Table Self.Values };

    // The number of names that the rows use.
    ghost COUNT: { ℕ };

    // The values that a `RowRefList` borrows.
    ghost values: { Self → Self.Values };

    /// Appends the members with these values, under the names from index `first` on. On `NoMemory`
    /// some of them may have been appended.
    fn push_rows_tree(
        &self,
        members: &mut Vec<(Text, Json)>,
        alloc: Global,
        names: &[&str],
        first: usize,
    ) -> Result<(), NoMemory>
        requires { first + COUNT ≤ length names.now }
        // On success: the members that the table writes are appended.
        ensures members { OnOk result (pairs_view members.new.items
            ≡ pairs_view members.old.items ++ (table (map (λ n. n.now) names.now) first).members
            (values self.now)) }
        ensures front { IfErr result (λ _. Continues (pairs_view members.old.items)
            (pairs_view members.new.items)) }
        ensures back { OnOk result ((table (map (λ n. n.now) names.now) first).Back
            (values self.now)) };

    /// Appends the texts of the members with these values, each after a comma. Returns the greatest
    /// nesting depth of the values. On `NoMemory` the content of `out` is unspecified.
    fn write_rows_text(
        &self,
        alloc: Global,
        names: &[&str],
        first: usize,
        out: &mut Vec<u8>,
    ) -> Result<u64, NoMemory>
        requires { first + COUNT ≤ length names.now }
        // On success: the texts of the members that the table writes are appended.
        ensures members { IfOk result (λ deep. AppendsMembers out.old.items
            ((table (map (λ n. n.now) names.now) first).members (values self.now)) out.new.items
            deep) }
        ensures back { OnOk result ((table (map (λ n. n.now) names.now) first).Back
            (values self.now)) };

    /// Copies the borrowed values.
    fn copy_rows(&self, alloc: Global) -> Result<Self::Values, NoMemory>
        ensures { IfOk result (λ v. v ≡ values self.now) };

    /// Shows that, under any names, each value is read back from its tree. Does not allocate.
    fn rows_read_back(&self)
        ensures { (names : list (list ℕ)) (first : ℕ)
            → (table names first).Back (values self.now) };
}

impl RowRefList for () {
    type Values = ();

    ghost table = { λ ns i. no_rows };

    ghost COUNT = { 0 };

    ghost values = { λ r. r };

    fn push_rows_tree(
        &self,
        _members: &mut Vec<(Text, Json)>,
        _alloc: Global,
        _names: &[&str],
        _first: usize,
    ) -> Result<(), NoMemory> {
        Ok(())
    }

    #[tactic(auto, using(crate::proofs::AppendLemmas::no_members))]
    fn write_rows_text(
        &self,
        _alloc: Global,
        _names: &[&str],
        _first: usize,
        _out: &mut Vec<u8>,
    ) -> Result<u64, NoMemory> {
        Ok(0)
    }

    fn copy_rows(&self, _alloc: Global) -> Result<(), NoMemory> {
        Ok(())
    }

    fn rows_read_back(&self) {}
}

impl<H: RowRef, T: RowRefList> RowRefList for (H, T) {
    type Values = (H::Value, T::Values);

    ghost table = { λ ns i. H.table (name_at ns i) ⨾ T.table ns (i + 1) };

    ghost COUNT = { 1 + T.COUNT };

    ghost values = { λ r. (H.value r.0, T.values r.1) };

    fn push_rows_tree(
        &self,
        members: &mut Vec<(Text, Json)>,
        alloc: Global,
        names: &[&str],
        first: usize,
    ) -> Result<(), NoMemory> {
        self.0.push_row_tree(members, alloc, names[first])?;
        self.1.push_rows_tree(members, alloc, names, first + 1)
    }

    #[tactic(auto, using(crate::proofs::AppendLemmas::both_members))]
    fn write_rows_text(
        &self,
        alloc: Global,
        names: &[&str],
        first: usize,
        out: &mut Vec<u8>,
    ) -> Result<u64, NoMemory> {
        let head = self.0.write_row_text(alloc, names[first], out)?;
        let rest = self.1.write_rows_text(alloc, names, first + 1, out)?;
        Ok(deeper(head, rest))
    }

    fn copy_rows(&self, alloc: Global) -> Result<(H::Value, T::Values), NoMemory> {
        let head = self.0.copy_row(alloc)?;
        let rest = self.1.copy_rows(alloc)?;
        Ok((head, rest))
    }

    fn rows_read_back(&self) {
        self.0.row_reads_back();
        self.1.rows_read_back();
    }
}
