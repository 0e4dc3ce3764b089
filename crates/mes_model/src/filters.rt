//! Filters on offers, as in an ACCEPT or a DECLINE.

use mes_model_schema::back::message_reads_back;
use mes_model_schema::fixed::Micros;
use mes_model_schema::json::{self, Element, NoMemory};
use mes_model_schema::{
    ConstructFrom, OptionalRow, Part, PartFault, PathBuilder, RowList, RowRefList, Rows1, made,
    message_text, message_tree, pairs, read_message,
};
use std::alloc::Global;

/// A filter on the offers that a framework receives (`Filters` in mesos.proto).
#[derive(Debug, Drop)]
pub struct Filters {
    /// The time for which the declined resources are not offered again, in seconds with six
    /// decimals.
    pub refuse_seconds: Option<Micros>,
}

const FILTERS_NAMES: [&str; 1] = ["refuse_seconds"];

type FiltersRows = Rows1<OptionalRow<Micros>>;

impl ConstructFrom<<FiltersRows as RowList>::Values> for Filters {
    ghost use Rattle.mes_model.specs.Filters.{filters_layout};

    ghost to = { filters_layout.to };

    fn made_of(values: <FiltersRows as RowList>::Values) -> Filters {
        made!(values => Filters { refuse_seconds })
    }
}

/// Expands to the borrowed values of the members, in the order of the table.
macro_rules! filters_rows {
    ($of:ident) => {
        pairs!(&$of.refuse_seconds)
    };
}

impl Part for Filters {
    ghost use Rattle.mes_model.specs.Filters.{filters, lawful_filters};

    ghost kind = { filters };

    ghost STEPS = { 1 };

    const STEPS: u32 = 1;

    ghost lawful = { lawful_filters };

    #[tactic(auto, unfolding(crate::specs::Filters::filters))]
    fn read_from(
        alloc: Global,
        element: &Element<'_>,
        path: &PathBuilder<'_>,
    ) -> Result<Filters, PartFault> {
        read_message::<FiltersRows, Filters, 1>(alloc, element, &FILTERS_NAMES, path)
    }

    #[tactic(auto, using(crate::specs::Filters::filters_back), unfolding(crate::specs::Filters::filters))]
    fn tree(&self, alloc: Global) -> Result<json::Json, NoMemory> {
        message_tree(alloc, &FILTERS_NAMES, &filters_rows!(self))
    }

    #[tactic(auto, using(crate::specs::Filters::filters_back), unfolding(crate::specs::Filters::filters))]
    fn write_json(&self, alloc: Global, out: &mut Vec<u8>) -> Result<u64, NoMemory> {
        message_text(alloc, &FILTERS_NAMES, &filters_rows!(self), out)
    }

    fn copy(&self, alloc: Global) -> Result<Filters, NoMemory> {
        let values = filters_rows!(self).copy_rows(alloc)?;
        Ok(Filters::made_of(values))
    }

    #[tactic(auto, using(crate::specs::Filters::filters_back))]
    fn reads_back(&self) {
        message_reads_back(&FILTERS_NAMES, &filters_rows!(self));
    }
}
