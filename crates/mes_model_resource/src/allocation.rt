//! The role that resources are allocated to.

use mes_model_schema::back::message_reads_back;
use mes_model_schema::json::{self, Element, NoMemory, Text};
use mes_model_schema::{
    ConstructFrom, OptionalRow, Part, PartFault, PathBuilder, RowList, RowRefList, Rows1, made,
    message_text, message_tree, pairs, read_message,
};
use std::alloc::Global;

/// The role that resources are allocated to (`Resource.AllocationInfo` in mesos.proto).
#[derive(Debug, Drop)]
pub struct Allocation {
    /// The role that the resources are allocated to.
    pub role: Option<Text>,
}

const ALLOCATION_NAMES: [&str; 1] = ["role"];

type AllocationRows = Rows1<OptionalRow<Text>>;

impl ConstructFrom<<AllocationRows as RowList>::Values> for Allocation {
    ghost use Rattle.mes_model_resource.specs.Reservations.{allocation_layout};

    ghost to = { allocation_layout.to };

    fn made_of(values: <AllocationRows as RowList>::Values) -> Allocation {
        made!(values => Allocation { role })
    }
}

/// Expands to the borrowed values of the members, in the order of the table.
macro_rules! allocation_rows {
    ($of:ident) => {
        pairs!(&$of.role)
    };
}

impl Part for Allocation {
    ghost use Rattle.mes_model_resource.specs.Reservations.{allocation, lawful_allocation};

    ghost kind = { allocation };

    ghost STEPS = { 1 };

    const STEPS: u32 = 1;

    ghost lawful = { lawful_allocation };

    #[tactic(auto, unfolding(crate::specs::Reservations::allocation))]
    fn read_from(
        alloc: Global,
        element: &Element<'_>,
        path: &PathBuilder<'_>,
    ) -> Result<Allocation, PartFault> {
        read_message::<AllocationRows, Allocation, 1>(alloc, element, &ALLOCATION_NAMES, path)
    }

    #[tactic(auto, using(crate::specs::Reservations::allocation_back), unfolding(crate::specs::Reservations::allocation))]
    fn tree(&self, alloc: Global) -> Result<json::Json, NoMemory> {
        message_tree(alloc, &ALLOCATION_NAMES, &allocation_rows!(self))
    }

    #[tactic(auto, using(crate::specs::Reservations::allocation_back), unfolding(crate::specs::Reservations::allocation))]
    fn write_json(&self, alloc: Global, out: &mut Vec<u8>) -> Result<u64, NoMemory> {
        message_text(alloc, &ALLOCATION_NAMES, &allocation_rows!(self), out)
    }

    fn copy(&self, alloc: Global) -> Result<Allocation, NoMemory> {
        let values = allocation_rows!(self).copy_rows(alloc)?;
        Ok(Allocation::made_of(values))
    }

    #[tactic(auto, using(crate::specs::Reservations::allocation_back))]
    fn reads_back(&self) {
        message_reads_back(&ALLOCATION_NAMES, &allocation_rows!(self));
    }
}
