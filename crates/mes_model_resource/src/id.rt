//! Identifiers of offers, frameworks, agents, executors, tasks and resource providers.

use mes_model_schema::back::message_reads_back;
use mes_model_schema::json::{self, Element, NoMemory, Text};
use mes_model_schema::{
    ConstructFrom, Part, PartFault, PathBuilder, RequiredRow, RequiredRowRef, RowList, RowRefList,
    Rows1, made, message_text, message_tree, pairs, read_message,
};
use std::alloc::Global;

/// The identifier of an offer, a framework, an agent, an executor, a task or a resource provider.
#[derive(Debug, Drop, PartialEq, Eq, Hash)]
pub struct Id {
    /// The text of the identifier.
    pub value: Text,
}

const ID_NAMES: [&str; 1] = ["value"];

type IdRows = Rows1<RequiredRow<Text>>;

impl ConstructFrom<<IdRows as RowList>::Values> for Id {
    ghost use Rattle.mes_model_resource.specs.Ids.{id_layout};

    ghost to = { id_layout.to };

    fn made_of(values: <IdRows as RowList>::Values) -> Id {
        made!(values => Id { value })
    }
}

/// Expands to the borrowed values of the members, in the order of the table.
macro_rules! id_rows {
    ($of:ident) => {
        pairs!(RequiredRowRef(&$of.value))
    };
}

impl Part for Id {
    ghost use Rattle.mes_model_resource.specs.Ids.{id, lawful_id};

    ghost kind = { id };

    ghost STEPS = { 1 };

    const STEPS: u32 = 1;

    ghost lawful = { lawful_id };

    #[tactic(auto, unfolding(crate::specs::Ids::id))]
    fn read_from(
        alloc: Global,
        element: &Element<'_>,
        path: &PathBuilder<'_>,
    ) -> Result<Id, PartFault> {
        read_message::<IdRows, Id, 1>(alloc, element, &ID_NAMES, path)
    }

    #[tactic(auto, using(crate::specs::Ids::id_back), unfolding(crate::specs::Ids::id))]
    fn tree(&self, alloc: Global) -> Result<json::Json, NoMemory> {
        message_tree(alloc, &ID_NAMES, &id_rows!(self))
    }

    #[tactic(auto, using(crate::specs::Ids::id_back), unfolding(crate::specs::Ids::id))]
    fn write_json(&self, alloc: Global, out: &mut Vec<u8>) -> Result<u64, NoMemory> {
        message_text(alloc, &ID_NAMES, &id_rows!(self), out)
    }

    fn copy(&self, alloc: Global) -> Result<Id, NoMemory> {
        let values = id_rows!(self).copy_rows(alloc)?;
        Ok(Id::made_of(values))
    }

    #[tactic(auto, using(crate::specs::Ids::id_back))]
    fn reads_back(&self) {
        message_reads_back(&ID_NAMES, &id_rows!(self));
    }
}
