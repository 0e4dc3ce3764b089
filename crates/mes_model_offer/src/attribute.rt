//! Attributes of agents.

ghost use Rattle.std.specs.Prelude.{◌≡◌, IfOk};

use crate::text_value::TextValue;
use mes_model_resource::{Ranges, Scalar, Set};
use mes_model_schema::back::message_reads_back;
use mes_model_schema::json::{self, Element, NoMemory, Text};
use mes_model_schema::{
    Choice, ConstructFrom, FieldFaultKind, Found, Part, PartFault, PathBuilder, RequiredRow,
    RequiredRowRef, RowList, RowRefList, Typed, TypedRef, made, message_text, message_tree,
    push_type_tree, put, read_message, required, type_of, type_refusal, write_case_text,
};
use std::alloc::Global;

/// The value of an attribute.
#[derive(Debug, Drop)]
pub enum AttributeValue {
    /// A number, for the type `SCALAR`.
    Scalar(Scalar),
    /// Ranges of whole numbers, for the type `RANGES`.
    Ranges(Ranges),
    /// Names, for the type `SET`.
    Set(Set),
    /// A text, for the type `TEXT`.
    Text(TextValue),
}

impl AttributeValue {
    /// Copies the value.
    pub fn copy(&self, alloc: Global) -> Result<AttributeValue, NoMemory>
        ensures { IfOk result (λ v. v ≡ self.now) }
    {
        match self {
            AttributeValue::Scalar(scalar) => Ok(AttributeValue::Scalar(scalar.copy(alloc)?)),
            AttributeValue::Ranges(ranges) => Ok(AttributeValue::Ranges(ranges.copy(alloc)?)),
            AttributeValue::Set(set) => Ok(AttributeValue::Set(set.copy(alloc)?)),
            AttributeValue::Text(text) => Ok(AttributeValue::Text(text.copy(alloc)?)),
        }
    }
}

impl Choice for AttributeValue {
    ghost use Rattle.mes_model_offer.specs.Attributes.{attribute_value_names, attribute_value_rows, lawful_attribute_value_rows};
    ghost use Rattle.std.specs.Prelude.{refl};

    ghost names = { attribute_value_names };

    ghost table = { attribute_value_rows };

    ghost STEPS = { 4 };

    ghost COUNT = { 5 };

    const COUNT: usize = 5;

    ghost counted = { refl };

    ghost lawful = { lawful_attribute_value_rows };

    #[tactic(auto, using(mes_model_schema::specs::NameLaws::names_differ))]
    fn read_choice(
        alloc: Global,
        found: &[Found<'_>],
        path: &PathBuilder<'_>,
    ) -> Result<AttributeValue, PartFault> {
        match type_of(alloc, &found[0], path)? {
            "SCALAR" => Ok(AttributeValue::Scalar(required(alloc, &found[1], "scalar", path)?)),
            "RANGES" => Ok(AttributeValue::Ranges(required(alloc, &found[2], "ranges", path)?)),
            "SET" => Ok(AttributeValue::Set(required(alloc, &found[3], "set", path)?)),
            "TEXT" => Ok(AttributeValue::Text(required(alloc, &found[4], "text", path)?)),
            _ => Err(type_refusal(alloc, path, FieldFaultKind::UnknownName)),
        }
    }

    fn push_choice_tree(
        &self,
        members: &mut Vec<(Text, json::Json)>,
        alloc: Global,
    ) -> Result<(), NoMemory> {
        match self {
            AttributeValue::Scalar(scalar) => {
                push_type_tree(members, alloc, "SCALAR")?;
                put(members, alloc, "scalar", scalar)
            }
            AttributeValue::Ranges(ranges) => {
                push_type_tree(members, alloc, "RANGES")?;
                put(members, alloc, "ranges", ranges)
            }
            AttributeValue::Set(set) => {
                push_type_tree(members, alloc, "SET")?;
                put(members, alloc, "set", set)
            }
            AttributeValue::Text(text) => {
                push_type_tree(members, alloc, "TEXT")?;
                put(members, alloc, "text", text)
            }
        }
    }

    fn write_choice_text(&self, alloc: Global, out: &mut Vec<u8>) -> Result<u64, NoMemory> {
        match self {
            AttributeValue::Scalar(scalar) => write_case_text(
                alloc, "SCALAR", "scalar", scalar, out,
            ),
            AttributeValue::Ranges(ranges) => write_case_text(
                alloc, "RANGES", "ranges", ranges, out,
            ),
            AttributeValue::Set(set) => write_case_text(alloc, "SET", "set", set, out),
            AttributeValue::Text(text) => write_case_text(alloc, "TEXT", "text", text, out),
        }
    }

    fn copy_choice(&self, alloc: Global) -> Result<AttributeValue, NoMemory> {
        self.copy(alloc)
    }

    fn choice_reads_back(&self) {
        match self {
            AttributeValue::Scalar(scalar) => scalar.reads_back(),
            AttributeValue::Ranges(ranges) => ranges.reads_back(),
            AttributeValue::Set(set) => set.reads_back(),
            AttributeValue::Text(text) => text.reads_back(),
        }
    }
}

/// An attribute of an agent (`Attribute` in mesos.proto).
#[derive(Debug, Drop)]
pub struct Attribute {
    /// The name of the attribute.
    pub name: Text,
    /// The value: the member `type`, and the member `scalar`, `ranges`, `set` or `text`.
    pub value: AttributeValue,
}

const ATTRIBUTE_NAMES: [&str; 6] = ["name", "type", "scalar", "ranges", "set", "text"];

type AttributeRows = (RequiredRow<Text>, Typed<AttributeValue, ()>);

impl ConstructFrom<<AttributeRows as RowList>::Values> for Attribute {
    ghost use Rattle.mes_model_offer.specs.Attributes.{attribute_layout};

    ghost to = { attribute_layout.to };

    fn made_of(values: <AttributeRows as RowList>::Values) -> Attribute {
        made!(values => Attribute { name, value })
    }
}

/// Expands to the borrowed values of the members, in the order of the table.
macro_rules! attribute_rows {
    ($of:ident) => {
        (RequiredRowRef(&$of.name), TypedRef(&$of.value, ()))
    };
}

impl Part for Attribute {
    ghost use Rattle.mes_model_offer.specs.Attributes.{attribute, lawful_attribute};

    ghost kind = { attribute };

    ghost STEPS = { 4 };

    const STEPS: u32 = 4;

    ghost lawful = { lawful_attribute };

    #[tactic(auto, unfolding(crate::specs::Attributes::attribute))]
    fn read_from(
        alloc: Global,
        element: &Element<'_>,
        path: &PathBuilder<'_>,
    ) -> Result<Attribute, PartFault> {
        read_message::<AttributeRows, Attribute, 6>(alloc, element, &ATTRIBUTE_NAMES, path)
    }

    #[tactic(auto, using(crate::specs::Attributes::attribute_back), unfolding(crate::specs::Attributes::attribute))]
    fn tree(&self, alloc: Global) -> Result<json::Json, NoMemory> {
        message_tree(alloc, &ATTRIBUTE_NAMES, &attribute_rows!(self))
    }

    #[tactic(auto, using(crate::specs::Attributes::attribute_back), unfolding(crate::specs::Attributes::attribute))]
    fn write_json(&self, alloc: Global, out: &mut Vec<u8>) -> Result<u64, NoMemory> {
        message_text(alloc, &ATTRIBUTE_NAMES, &attribute_rows!(self), out)
    }

    fn copy(&self, alloc: Global) -> Result<Attribute, NoMemory> {
        let values = attribute_rows!(self).copy_rows(alloc)?;
        Ok(Attribute::made_of(values))
    }

    #[tactic(auto, using(crate::specs::Attributes::attribute_back))]
    fn reads_back(&self) {
        message_reads_back(&ATTRIBUTE_NAMES, &attribute_rows!(self));
    }
}
