//! Typed values: a member `type` selects which other members the value has.

ghost use Rattle.std.specs.Prelude.{◌≡◌, ℕ, ◌+◌, ◌≤◌, ◌++◌, List as list, length, IfOk, IfErr, OnOk};
ghost use Rattle.mes_json.specs.Tree.{Members};
ghost use Rattle.mes_model_schema.specs.Appended.{AppendsMembers};
ghost use Rattle.mes_model_schema.specs.FoundRows.{FindsEach};
ghost use Rattle.mes_model_schema.specs.Parts.{Gives};
ghost use Rattle.mes_model_schema.specs.RowLaws.{LawfulTable};
ghost use Rattle.mes_model_schema.specs.Rows.{Table};
ghost use Rattle.mes_model_schema.specs.Written.{pairs_view, Continues};

use crate::found_rows::Found;
use crate::limits::MAX_PATH_STEPS;
use crate::part::PartFault;
use crate::path_builder::PathBuilder;
use mes_json::{Json, NoMemory, Text};
use std::alloc::Global;

/// A value with a member `type`, such as `SCALAR` or `SET`, and the members of that type.
pub trait Choice: Drop {
    // The names of the members that are read under at least one type, `type` first.
    ghost names: { list (list ℕ) };

    // The table with the row `type` and the rows of each type.
    ghost table: { Table Self };

    // The most steps from the message to a fault in the typed value.
    ghost STEPS: { ℕ };

    ghost COUNT: { ℕ };

    /// The number of member names under all types together, `type` included.
    const COUNT: usize;

    /// Reads the value, or returns the first fault. `found` begins with the members found under the
    /// names of the value, `type` first.
    fn read_choice(
        alloc: Global,
        found: &[Found<'_>],
        path: &PathBuilder<'_>,
    ) -> Result<Self, PartFault>
        requires room { length path.now + STEPS ≤ MAX_PATH_STEPS }
        requires all { COUNT ≤ length found.now }
        ensures { (ms : Members) → FindsEach 0 names ms found.now
            → Gives (table.read path.now ms) result };

    /// Appends the member `type` and the members of that type. On `NoMemory` some of them may have
    /// been appended.
    fn push_choice_tree(
        &self,
        members: &mut Vec<(Text, Json)>,
        alloc: Global,
    ) -> Result<(), NoMemory>
        ensures members { OnOk result (pairs_view members.new.items
            ≡ pairs_view members.old.items ++ table.members self.now) }
        ensures front { IfErr result (λ _. Continues (pairs_view members.old.items)
            (pairs_view members.new.items)) }
        ensures back { OnOk result (table.Back self.now) };

    /// Appends the texts of the member `type` and the members of that type, each after a comma.
    /// Returns the greatest nesting depth of their values. On `NoMemory` the content of `out` is
    /// unspecified.
    fn write_choice_text(&self, alloc: Global, out: &mut Vec<u8>) -> Result<u64, NoMemory>
        ensures members { IfOk result (λ deep. AppendsMembers out.old.items (table.members self.now)
            out.new.items deep) }
        ensures back { OnOk result (table.Back self.now) };

    /// Copies the typed value.
    fn copy_choice(&self, alloc: Global) -> Result<Self, NoMemory>
        ensures { IfOk result (λ v. v ≡ self.now) };

    /// Shows that the value of each member is read back from its tree. Does not allocate.
    fn choice_reads_back(&self)
        ensures { table.Back self.now };

    ghost counted: { length names ≡ COUNT };

    ghost lawful: { LawfulTable table STEPS };
}
