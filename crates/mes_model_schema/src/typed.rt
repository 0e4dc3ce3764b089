//! The rows of a typed value (`choice`) in the table of a message, followed by other rows.

ghost use Rattle.std.specs.Prelude.{◌+◌, ◌&&◌, max};
ghost use Rattle.mes_model_schema.specs.RowNames.{stand_at};
ghost use Rattle.mes_model_schema.specs.Rows.{◌⨾◌};

use crate::append::deeper;
use crate::choice::Choice;
use crate::found_rows::Found;
use crate::part::PartFault;
use crate::path_builder::PathBuilder;
use crate::row_list::RowList;
use crate::row_ref_list::RowRefList;
use mes_json::{Json, NoMemory, Text};
use std::alloc::Global;
use std::marker::PhantomData;

/// The rows of the typed value `C`, followed by the rows `T`.
pub struct Typed<C, T> {
    of: PhantomData<(C, T)>,
}

impl<C: Choice, T: RowList> RowList for Typed<C, T> {
    type Values = (C, T::Values);

    ghost table = { λ ns i. C.table ⨾ T.table ns (i + C.COUNT) };

    ghost COUNT = { C.COUNT + T.COUNT };

    ghost STEPS = { max C.STEPS T.STEPS };

    ghost fits = { λ ns i. stand_at i C.names ns && T.fits ns (i + C.COUNT) };

    fn read_rows(
        alloc: Global,
        found: &[Found<'_>],
        names: &[&'static str],
        first: usize,
        path: &PathBuilder<'_>,
    ) -> Result<(C, T::Values), PartFault> {
        let value = C::read_choice(alloc, &found[first..], path)?;
        let rest = T::read_rows(alloc, found, names, first + C::COUNT, path)?;
        Ok((value, rest))
    }
}

/// A borrowed typed value, followed by the borrowed values of the rows after it.
#[derive(Drop)]
pub struct TypedRef<'a, C, T>(pub &'a C, pub T);

impl<'a, C: Choice, T: RowRefList> RowRefList for TypedRef<'a, C, T> {
    type Values = (C, T::Values);

    ghost table = { λ ns i. C.table ⨾ T.table ns (i + C.COUNT) };

    ghost COUNT = { C.COUNT + T.COUNT };

    ghost values = { λ r. (r.0.now, T.values r.1) };

    fn push_rows_tree(
        &self,
        members: &mut Vec<(Text, Json)>,
        alloc: Global,
        names: &[&str],
        first: usize,
    ) -> Result<(), NoMemory> {
        self.0.push_choice_tree(members, alloc)?;
        self.1
            .push_rows_tree(members, alloc, names, first + C::COUNT)
    }

    #[tactic(auto, using(crate::proofs::AppendLemmas::both_members))]
    fn write_rows_text(
        &self,
        alloc: Global,
        names: &[&str],
        first: usize,
        out: &mut Vec<u8>,
    ) -> Result<u64, NoMemory> {
        let own = self.0.write_choice_text(alloc, out)?;
        let rest = self.1.write_rows_text(alloc, names, first + C::COUNT, out)?;
        Ok(deeper(own, rest))
    }

    fn copy_rows(&self, alloc: Global) -> Result<(C, T::Values), NoMemory> {
        let value = self.0.copy_choice(alloc)?;
        let rest = self.1.copy_rows(alloc)?;
        Ok((value, rest))
    }

    fn rows_read_back(&self) {
        self.0.choice_reads_back();
        self.1.rows_read_back();
    }
}
