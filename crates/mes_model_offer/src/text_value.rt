//! The value of an attribute that is a text.

use mes_model_schema::back::message_reads_back;
use mes_model_schema::json::{self, Element, NoMemory, Text};
use mes_model_schema::{
    ConstructFrom, Part, PartFault, PathBuilder, RequiredRow, RequiredRowRef, RowList, RowRefList,
    Rows1, made, message_text, message_tree, pairs, read_message,
};
use std::alloc::Global;

/// A text (`Value.Text` in mesos.proto).
#[derive(Debug, Drop)]
pub struct TextValue {
    /// The text of the attribute.
    pub value: Text,
}

const TEXT_VALUE_NAMES: [&str; 1] = ["value"];

type TextValueRows = Rows1<RequiredRow<Text>>;

impl ConstructFrom<<TextValueRows as RowList>::Values> for TextValue {
    ghost use Rattle.mes_model_offer.specs.TextValues.{text_value_layout};

    ghost to = { text_value_layout.to };

    fn made_of(values: <TextValueRows as RowList>::Values) -> TextValue {
        made!(values => TextValue { value })
    }
}

/// Expands to the borrowed values of the members, in the order of the table.
macro_rules! text_value_rows {
    ($of:ident) => {
        pairs!(RequiredRowRef(&$of.value))
    };
}

impl Part for TextValue {
    ghost use Rattle.mes_model_offer.specs.TextValues.{text_value, lawful_text_value};

    ghost kind = { text_value };

    ghost STEPS = { 1 };

    const STEPS: u32 = 1;

    ghost lawful = { lawful_text_value };

    #[tactic(auto, unfolding(crate::specs::TextValues::text_value))]
    fn read_from(
        alloc: Global,
        element: &Element<'_>,
        path: &PathBuilder<'_>,
    ) -> Result<TextValue, PartFault> {
        read_message::<TextValueRows, TextValue, 1>(alloc, element, &TEXT_VALUE_NAMES, path)
    }

    #[tactic(auto, using(crate::specs::TextValues::text_value_back), unfolding(crate::specs::TextValues::text_value))]
    fn tree(&self, alloc: Global) -> Result<json::Json, NoMemory> {
        message_tree(alloc, &TEXT_VALUE_NAMES, &text_value_rows!(self))
    }

    #[tactic(auto, using(crate::specs::TextValues::text_value_back), unfolding(crate::specs::TextValues::text_value))]
    fn write_json(&self, alloc: Global, out: &mut Vec<u8>) -> Result<u64, NoMemory> {
        message_text(alloc, &TEXT_VALUE_NAMES, &text_value_rows!(self), out)
    }

    fn copy(&self, alloc: Global) -> Result<TextValue, NoMemory> {
        let values = text_value_rows!(self).copy_rows(alloc)?;
        Ok(TextValue::made_of(values))
    }

    #[tactic(auto, using(crate::specs::TextValues::text_value_back))]
    fn reads_back(&self) {
        message_reads_back(&TEXT_VALUE_NAMES, &text_value_rows!(self));
    }
}
