//! The values of resources and attributes.

use mes_model_schema::back::message_reads_back;
use mes_model_schema::fixed::Thousandths;
use mes_model_schema::json::{self, Element, NoMemory, Text};
use mes_model_schema::{
    ConstructFrom, List, Part, PartFault, PathBuilder, RepeatedRow, RequiredRow, RequiredRowRef,
    RowList, RowRefList, Rows1, Rows2, made, message_text, message_tree, pairs, read_message,
};
use std::alloc::Global;

/// A decimal number, rounded to thousandths (`Value.Scalar` in mesos.proto).
#[derive(Debug, Drop)]
pub struct Scalar {
    /// The number, in thousandths.
    pub value: Thousandths,
}

const SCALAR_NAMES: [&str; 1] = ["value"];

type ScalarRows = Rows1<RequiredRow<Thousandths>>;

impl ConstructFrom<<ScalarRows as RowList>::Values> for Scalar {
    ghost use Rattle.mes_model_resource.specs.Values.{scalar_layout};

    ghost to = { scalar_layout.to };

    fn made_of(values: <ScalarRows as RowList>::Values) -> Scalar {
        made!(values => Scalar { value })
    }
}

/// Expands to the borrowed values of the members, in the order of the table.
macro_rules! scalar_rows {
    ($of:ident) => {
        pairs!(RequiredRowRef(&$of.value))
    };
}

impl Part for Scalar {
    ghost use Rattle.mes_model_resource.specs.Values.{scalar, lawful_scalar};

    ghost kind = { scalar };

    ghost STEPS = { 1 };

    const STEPS: u32 = 1;

    ghost lawful = { lawful_scalar };

    #[tactic(auto, unfolding(crate::specs::Values::scalar))]
    fn read_from(
        alloc: Global,
        element: &Element<'_>,
        path: &PathBuilder<'_>,
    ) -> Result<Scalar, PartFault> {
        read_message::<ScalarRows, Scalar, 1>(alloc, element, &SCALAR_NAMES, path)
    }

    #[tactic(auto, using(crate::specs::Values::scalar_back), unfolding(crate::specs::Values::scalar))]
    fn tree(&self, alloc: Global) -> Result<json::Json, NoMemory> {
        message_tree(alloc, &SCALAR_NAMES, &scalar_rows!(self))
    }

    #[tactic(auto, using(crate::specs::Values::scalar_back), unfolding(crate::specs::Values::scalar))]
    fn write_json(&self, alloc: Global, out: &mut Vec<u8>) -> Result<u64, NoMemory> {
        message_text(alloc, &SCALAR_NAMES, &scalar_rows!(self), out)
    }

    fn copy(&self, alloc: Global) -> Result<Scalar, NoMemory> {
        let values = scalar_rows!(self).copy_rows(alloc)?;
        Ok(Scalar::made_of(values))
    }

    #[tactic(auto, using(crate::specs::Values::scalar_back))]
    fn reads_back(&self) {
        message_reads_back(&SCALAR_NAMES, &scalar_rows!(self));
    }
}

/// A range of whole numbers, with both ends included (`Value.Range` in mesos.proto).
#[derive(Debug, Drop)]
pub struct Range {
    /// The member `begin`: the first number.
    pub first: u64,
    /// The member `end`: the last number.
    pub last: u64,
}

const RANGE_NAMES: [&str; 2] = ["begin", "end"];

type RangeRows = Rows2<RequiredRow<u64>, RequiredRow<u64>>;

impl ConstructFrom<<RangeRows as RowList>::Values> for Range {
    ghost use Rattle.mes_model_resource.specs.Values.{range_layout};

    ghost to = { range_layout.to };

    fn made_of(values: <RangeRows as RowList>::Values) -> Range {
        made!(values => Range { first, last })
    }
}

/// Expands to the borrowed values of the members, in the order of the table.
macro_rules! range_rows {
    ($of:ident) => {
        pairs!(
            RequiredRowRef(&$of.first),
            RequiredRowRef(&$of.last),
        )
    };
}

impl Part for Range {
    ghost use Rattle.mes_model_resource.specs.Values.{range, lawful_range};

    ghost kind = { range };

    ghost STEPS = { 1 };

    const STEPS: u32 = 1;

    ghost lawful = { lawful_range };

    #[tactic(auto, unfolding(crate::specs::Values::range))]
    fn read_from(
        alloc: Global,
        element: &Element<'_>,
        path: &PathBuilder<'_>,
    ) -> Result<Range, PartFault> {
        read_message::<RangeRows, Range, 2>(alloc, element, &RANGE_NAMES, path)
    }

    #[tactic(auto, using(crate::specs::Values::range_back), unfolding(crate::specs::Values::range))]
    fn tree(&self, alloc: Global) -> Result<json::Json, NoMemory> {
        message_tree(alloc, &RANGE_NAMES, &range_rows!(self))
    }

    #[tactic(auto, using(crate::specs::Values::range_back), unfolding(crate::specs::Values::range))]
    fn write_json(&self, alloc: Global, out: &mut Vec<u8>) -> Result<u64, NoMemory> {
        message_text(alloc, &RANGE_NAMES, &range_rows!(self), out)
    }

    fn copy(&self, alloc: Global) -> Result<Range, NoMemory> {
        let values = range_rows!(self).copy_rows(alloc)?;
        Ok(Range::made_of(values))
    }

    #[tactic(auto, using(crate::specs::Values::range_back))]
    fn reads_back(&self) {
        message_reads_back(&RANGE_NAMES, &range_rows!(self));
    }
}

/// A list of ranges of whole numbers, in order (`Value.Ranges` in mesos.proto).
#[derive(Debug, Drop)]
pub struct Ranges {
    /// The member `range`: the list of ranges.
    pub range: List<Range>,
}

const RANGES_NAMES: [&str; 1] = ["range"];

type RangesRows = Rows1<RepeatedRow<Range>>;

impl ConstructFrom<<RangesRows as RowList>::Values> for Ranges {
    ghost use Rattle.mes_model_resource.specs.Values.{ranges_layout};

    ghost to = { ranges_layout.to };

    fn made_of(values: <RangesRows as RowList>::Values) -> Ranges {
        made!(values => Ranges { range })
    }
}

/// Expands to the borrowed values of the members, in the order of the table.
macro_rules! ranges_rows {
    ($of:ident) => {
        pairs!(&$of.range)
    };
}

impl Part for Ranges {
    ghost use Rattle.mes_model_resource.specs.Values.{ranges, lawful_ranges};

    ghost kind = { ranges };

    ghost STEPS = { 3 };

    const STEPS: u32 = 3;

    ghost lawful = { lawful_ranges };

    #[tactic(auto, unfolding(crate::specs::Values::ranges))]
    fn read_from(
        alloc: Global,
        element: &Element<'_>,
        path: &PathBuilder<'_>,
    ) -> Result<Ranges, PartFault> {
        read_message::<RangesRows, Ranges, 1>(alloc, element, &RANGES_NAMES, path)
    }

    #[tactic(auto, using(crate::specs::Values::ranges_back), unfolding(crate::specs::Values::ranges))]
    fn tree(&self, alloc: Global) -> Result<json::Json, NoMemory> {
        message_tree(alloc, &RANGES_NAMES, &ranges_rows!(self))
    }

    #[tactic(auto, using(crate::specs::Values::ranges_back), unfolding(crate::specs::Values::ranges))]
    fn write_json(&self, alloc: Global, out: &mut Vec<u8>) -> Result<u64, NoMemory> {
        message_text(alloc, &RANGES_NAMES, &ranges_rows!(self), out)
    }

    fn copy(&self, alloc: Global) -> Result<Ranges, NoMemory> {
        let values = ranges_rows!(self).copy_rows(alloc)?;
        Ok(Ranges::made_of(values))
    }

    #[tactic(auto, using(crate::specs::Values::ranges_back))]
    fn reads_back(&self) {
        message_reads_back(&RANGES_NAMES, &ranges_rows!(self));
    }
}

/// A list of names, in order (`Value.Set` in mesos.proto).
#[derive(Debug, Drop)]
pub struct Set {
    /// The member `item`: the list of names.
    pub item: List<Text>,
}

const SET_NAMES: [&str; 1] = ["item"];

type SetRows = Rows1<RepeatedRow<Text>>;

impl ConstructFrom<<SetRows as RowList>::Values> for Set {
    ghost use Rattle.mes_model_resource.specs.Values.{set_layout};

    ghost to = { set_layout.to };

    fn made_of(values: <SetRows as RowList>::Values) -> Set {
        made!(values => Set { item })
    }
}

/// Expands to the borrowed values of the members, in the order of the table.
macro_rules! set_rows {
    ($of:ident) => {
        pairs!(&$of.item)
    };
}

impl Part for Set {
    ghost use Rattle.mes_model_resource.specs.Values.{set, lawful_set};

    ghost kind = { set };

    ghost STEPS = { 2 };

    const STEPS: u32 = 2;

    ghost lawful = { lawful_set };

    #[tactic(auto, unfolding(crate::specs::Values::set))]
    fn read_from(
        alloc: Global,
        element: &Element<'_>,
        path: &PathBuilder<'_>,
    ) -> Result<Set, PartFault> {
        read_message::<SetRows, Set, 1>(alloc, element, &SET_NAMES, path)
    }

    #[tactic(auto, using(crate::specs::Values::set_back), unfolding(crate::specs::Values::set))]
    fn tree(&self, alloc: Global) -> Result<json::Json, NoMemory> {
        message_tree(alloc, &SET_NAMES, &set_rows!(self))
    }

    #[tactic(auto, using(crate::specs::Values::set_back), unfolding(crate::specs::Values::set))]
    fn write_json(&self, alloc: Global, out: &mut Vec<u8>) -> Result<u64, NoMemory> {
        message_text(alloc, &SET_NAMES, &set_rows!(self), out)
    }

    fn copy(&self, alloc: Global) -> Result<Set, NoMemory> {
        let values = set_rows!(self).copy_rows(alloc)?;
        Ok(Set::made_of(values))
    }

    #[tactic(auto, using(crate::specs::Values::set_back))]
    fn reads_back(&self) {
        message_reads_back(&SET_NAMES, &set_rows!(self));
    }
}
