//! The borrowed value of one member of a message, which is written under a name or copied.

ghost use Rattle.std.specs.Prelude.{◌≡◌, ℕ, ◌++◌, List as list, IfOk, IfErr, OnOk};
ghost use Rattle.mes_model_schema.specs.Appended.{AppendsMembers};
ghost use Rattle.mes_model_schema.specs.Rows.{Table, need, maybe, many, flag};
ghost use Rattle.mes_model_schema.specs.Written.{pairs_view};

use crate::append::{write_flag_text, write_optional_text, write_repeated_text, write_row_text};
use crate::back::{list_reads_back, some_reads_back};
use crate::list::List;
use crate::part::Part;
use crate::write_row::{
    copy_list, copy_some, push_flag_tree, push_optional_tree, push_repeated_tree, put,
};
use mes_json::{Json, NoMemory, Text};
use std::alloc::Global;

/// The borrowed value of the member that a row describes.
pub trait RowRef {
    /// The type of the owned value.
    type Value: Drop;

    // The table whose only row is the one of this name.
    ghost table: { list ℕ → Table Self.Value };

    // The value that a `RowRef` borrows.
    ghost value: { Self → Self.Value };

    /// Appends the member `name` with the value to `members`. Appends nothing for `None`, an empty
    /// list or an unset flag. On `NoMemory` the list `members` is unchanged.
    fn push_row_tree(
        &self,
        members: &mut Vec<(Text, Json)>,
        alloc: Global,
        name: &str,
    ) -> Result<(), NoMemory>
        ensures members { OnOk result (pairs_view members.new.items
            ≡ pairs_view members.old.items ++ (table name.now).members (value self.now)) }
        ensures unchanged { IfErr result (λ _. pairs_view members.new.items
            ≡ pairs_view members.old.items) }
        ensures back { OnOk result ((table name.now).Back (value self.now)) };

    /// Appends the text of the member `name` after a comma, and returns the nesting depth of the
    /// value. On `NoMemory` the content of `out` is unspecified.
    fn write_row_text(&self, alloc: Global, name: &str, out: &mut Vec<u8>) -> Result<u64, NoMemory>
        ensures members { IfOk result (λ deep. AppendsMembers out.old.items
            ((table name.now).members (value self.now)) out.new.items deep) }
        ensures back { OnOk result ((table name.now).Back (value self.now)) };

    /// Copies the borrowed value.
    fn copy_row(&self, alloc: Global) -> Result<Self::Value, NoMemory>
        ensures { IfOk result (λ v. v ≡ value self.now) };

    /// Shows that, under any name, the value is read back from the tree that it is written as. Does
    /// not allocate.
    fn row_reads_back(&self)
        ensures { (name : list ℕ) → (table name).Back (value self.now) };
}

/// The borrowed value of a required member.
#[derive(Drop)]
pub struct RequiredRowRef<'a, T>(pub &'a T);

impl<'a, T: Part> RowRef for RequiredRowRef<'a, T> {
    type Value = T;

    ghost table = { λ n. need n T.kind };

    ghost value = { λ r. r.0.now };

    fn push_row_tree(
        &self,
        members: &mut Vec<(Text, Json)>,
        alloc: Global,
        name: &str,
    ) -> Result<(), NoMemory> {
        put(members, alloc, name, self.0)
    }

    fn write_row_text(
        &self,
        alloc: Global,
        name: &str,
        out: &mut Vec<u8>,
    ) -> Result<u64, NoMemory> {
        write_row_text(alloc, name, self.0, out)
    }

    fn copy_row(&self, alloc: Global) -> Result<T, NoMemory> {
        self.0.copy(alloc)
    }

    fn row_reads_back(&self) {
        self.0.reads_back();
    }
}

impl<'a, T: Part> RowRef for &'a Option<T> {
    type Value = Option<T>;

    ghost table = { λ n. maybe n T.kind };

    ghost value = { λ r. r.now };

    fn push_row_tree(
        &self,
        members: &mut Vec<(Text, Json)>,
        alloc: Global,
        name: &str,
    ) -> Result<(), NoMemory> {
        push_optional_tree(members, alloc, name, self)
    }

    fn write_row_text(
        &self,
        alloc: Global,
        name: &str,
        out: &mut Vec<u8>,
    ) -> Result<u64, NoMemory> {
        write_optional_text(alloc, name, self, out)
    }

    fn copy_row(&self, alloc: Global) -> Result<Option<T>, NoMemory> {
        copy_some(alloc, self)
    }

    fn row_reads_back(&self) {
        some_reads_back(self);
    }
}

impl<'a, T: Part> RowRef for &'a List<T> {
    type Value = List<T>;

    ghost table = { λ n. many n T.kind };

    ghost value = { λ r. r.now };

    fn push_row_tree(
        &self,
        members: &mut Vec<(Text, Json)>,
        alloc: Global,
        name: &str,
    ) -> Result<(), NoMemory> {
        push_repeated_tree(members, alloc, name, self)
    }

    fn write_row_text(
        &self,
        alloc: Global,
        name: &str,
        out: &mut Vec<u8>,
    ) -> Result<u64, NoMemory> {
        write_repeated_text(alloc, name, self, out)
    }

    fn copy_row(&self, alloc: Global) -> Result<List<T>, NoMemory> {
        copy_list(alloc, self)
    }

    fn row_reads_back(&self) {
        list_reads_back(self);
    }
}

/// A flag is written as the object `{}`, and as no member if it is unset.
impl RowRef for bool {
    type Value = bool;

    ghost table = { flag };

    ghost value = { λ r. r };

    fn push_row_tree(
        &self,
        members: &mut Vec<(Text, Json)>,
        alloc: Global,
        name: &str,
    ) -> Result<(), NoMemory> {
        push_flag_tree(members, alloc, name, *self)
    }

    fn write_row_text(
        &self,
        _alloc: Global,
        name: &str,
        out: &mut Vec<u8>,
    ) -> Result<u64, NoMemory> {
        write_flag_text(name, *self, out)
    }

    fn copy_row(&self, _alloc: Global) -> Result<bool, NoMemory> {
        Ok(*self)
    }

    fn row_reads_back(&self) {}
}
