//! Resources of agents.

ghost use Rattle.std.specs.Prelude.{◌≡◌, IfOk};

use crate::allocation::Allocation;
use crate::id::Id;
use crate::reservation::Reservation;
use crate::value::{Ranges, Scalar, Set};
use mes_model_schema::back::message_reads_back;
use mes_model_schema::json::{self, Element, NoMemory, Text};
use mes_model_schema::{
    Boxed, Choice, ConstructFrom, FieldFaultKind, Flag, Found, Kept, List, OptionalRow, Part,
    PartFault, PathBuilder, RepeatedRow, RequiredRow, RequiredRowRef, RowList, RowRefList, Rows8,
    Typed, TypedRef, made, message_text, message_tree, pairs, push_type_tree, put, read_message,
    required, type_of, type_refusal, write_case_text,
};
use std::alloc::Global;

/// The value of a resource.
#[derive(Debug, Drop)]
pub enum ResourceValue {
    /// A number, for the type `SCALAR`.
    Scalar(Scalar),
    /// Ranges of whole numbers, for the type `RANGES`.
    Ranges(Ranges),
    /// Names, for the type `SET`.
    Set(Set),
}

impl ResourceValue {
    /// Copies the value.
    pub fn copy(&self, alloc: Global) -> Result<ResourceValue, NoMemory>
        ensures { IfOk result (λ v. v ≡ self.now) }
    {
        match self {
            ResourceValue::Scalar(scalar) => Ok(ResourceValue::Scalar(scalar.copy(alloc)?)),
            ResourceValue::Ranges(ranges) => Ok(ResourceValue::Ranges(ranges.copy(alloc)?)),
            ResourceValue::Set(set) => Ok(ResourceValue::Set(set.copy(alloc)?)),
        }
    }
}

impl Choice for ResourceValue {
    ghost use Rattle.mes_model_resource.specs.Resources.{resource_value_names, resource_value_rows, lawful_resource_value_rows};
    ghost use Rattle.std.specs.Prelude.{refl};

    ghost names = { resource_value_names };

    ghost table = { resource_value_rows };

    ghost STEPS = { 4 };

    ghost COUNT = { 4 };

    const COUNT: usize = 4;

    ghost counted = { refl };

    ghost lawful = { lawful_resource_value_rows };

    #[tactic(auto, using(mes_model_schema::specs::NameLaws::names_differ))]
    fn read_choice(
        alloc: Global,
        found: &[Found<'_>],
        path: &PathBuilder<'_>,
    ) -> Result<ResourceValue, PartFault> {
        match type_of(alloc, &found[0], path)? {
            "SCALAR" => Ok(ResourceValue::Scalar(required(alloc, &found[1], "scalar", path)?)),
            "RANGES" => Ok(ResourceValue::Ranges(required(alloc, &found[2], "ranges", path)?)),
            "SET" => Ok(ResourceValue::Set(required(alloc, &found[3], "set", path)?)),
            _ => Err(type_refusal(alloc, path, FieldFaultKind::UnknownName)),
        }
    }

    fn push_choice_tree(
        &self,
        members: &mut Vec<(Text, json::Json)>,
        alloc: Global,
    ) -> Result<(), NoMemory> {
        match self {
            ResourceValue::Scalar(scalar) => {
                push_type_tree(members, alloc, "SCALAR")?;
                put(members, alloc, "scalar", scalar)
            }
            ResourceValue::Ranges(ranges) => {
                push_type_tree(members, alloc, "RANGES")?;
                put(members, alloc, "ranges", ranges)
            }
            ResourceValue::Set(set) => {
                push_type_tree(members, alloc, "SET")?;
                put(members, alloc, "set", set)
            }
        }
    }

    fn write_choice_text(&self, alloc: Global, out: &mut Vec<u8>) -> Result<u64, NoMemory> {
        match self {
            ResourceValue::Scalar(scalar) => write_case_text(
                alloc, "SCALAR", "scalar", scalar, out,
            ),
            ResourceValue::Ranges(ranges) => write_case_text(
                alloc, "RANGES", "ranges", ranges, out,
            ),
            ResourceValue::Set(set) => write_case_text(alloc, "SET", "set", set, out),
        }
    }

    fn copy_choice(&self, alloc: Global) -> Result<ResourceValue, NoMemory> {
        self.copy(alloc)
    }

    fn choice_reads_back(&self) {
        match self {
            ResourceValue::Scalar(scalar) => scalar.reads_back(),
            ResourceValue::Ranges(ranges) => ranges.reads_back(),
            ResourceValue::Set(set) => set.reads_back(),
        }
    }
}

/// A resource of an agent, such as CPUs, memory or ports (`Resource` in mesos.proto).
#[derive(Debug, Drop)]
pub struct Resource {
    /// The name of the resource, such as `cpus`.
    pub name: Text,
    /// The value: the member `type`, and the member `scalar`, `ranges` or `set`.
    pub value: ResourceValue,
    /// The role that the resource belongs to.
    pub role: Option<Text>,
    /// The role that the resource is allocated to.
    pub allocation_info: Option<Allocation>,
    /// The reservation in the older form, boxed so that a `Resource` is small.
    pub reservation: Option<Boxed<Reservation>>,
    /// The reservations, from the outermost role inwards.
    pub reservations: List<Reservation>,
    /// The disk: a JSON object that is retained with all its members, boxed.
    pub disk: Option<Boxed<Kept>>,
    /// Whether the resource may be revoked at any time.
    pub revocable: bool,
    /// Whether several tasks may use the resource at once.
    pub shared: bool,
    /// The resource provider, if it is not the agent, boxed.
    pub provider_id: Option<Boxed<Id>>,
}

const RESOURCE_NAMES: [&str; 13] = [
    "name",
    "type",
    "scalar",
    "ranges",
    "set",
    "role",
    "allocation_info",
    "reservation",
    "reservations",
    "disk",
    "revocable",
    "shared",
    "provider_id",
];

type ResourceRows = (
    RequiredRow<Text>,
    Typed<
        ResourceValue,
        Rows8<
            OptionalRow<Text>,
            OptionalRow<Allocation>,
            OptionalRow<Boxed<Reservation>>,
            RepeatedRow<Reservation>,
            OptionalRow<Boxed<Kept>>,
            Flag,
            Flag,
            OptionalRow<Boxed<Id>>,
        >,
    >,
);

impl ConstructFrom<<ResourceRows as RowList>::Values> for Resource {
    ghost use Rattle.mes_model_resource.specs.Resources.{resource_layout};

    ghost to = { resource_layout.to };

    fn made_of(values: <ResourceRows as RowList>::Values) -> Resource {
        made!(values => Resource {
            name,
            value,
            role,
            allocation_info,
            reservation,
            reservations,
            disk,
            revocable,
            shared,
            provider_id,
        })
    }
}

/// Expands to the borrowed values of the members, in the order of the table.
macro_rules! resource_rows {
    ($of:ident) => {
        (
            RequiredRowRef(&$of.name),
            TypedRef(
                &$of.value,
                pairs!(
                    &$of.role,
                    &$of.allocation_info,
                    &$of.reservation,
                    &$of.reservations,
                    &$of.disk,
                    $of.revocable,
                    $of.shared,
                    &$of.provider_id,
                ),
            ),
        )
    };
}

impl Part for Resource {
    ghost use Rattle.mes_model_resource.specs.Resources.{resource, lawful_resource};

    ghost kind = { resource };

    ghost STEPS = { 6 };

    const STEPS: u32 = 6;

    ghost lawful = { lawful_resource };

    #[tactic(auto, unfolding(crate::specs::Resources::resource))]
    fn read_from(
        alloc: Global,
        element: &Element<'_>,
        path: &PathBuilder<'_>,
    ) -> Result<Resource, PartFault> {
        read_message::<ResourceRows, Resource, 13>(alloc, element, &RESOURCE_NAMES, path)
    }

    #[tactic(auto, using(crate::specs::Resources::resource_back), unfolding(crate::specs::Resources::resource))]
    fn tree(&self, alloc: Global) -> Result<json::Json, NoMemory> {
        message_tree(alloc, &RESOURCE_NAMES, &resource_rows!(self))
    }

    #[tactic(auto, using(crate::specs::Resources::resource_back), unfolding(crate::specs::Resources::resource))]
    fn write_json(&self, alloc: Global, out: &mut Vec<u8>) -> Result<u64, NoMemory> {
        message_text(alloc, &RESOURCE_NAMES, &resource_rows!(self), out)
    }

    fn copy(&self, alloc: Global) -> Result<Resource, NoMemory> {
        let values = resource_rows!(self).copy_rows(alloc)?;
        Ok(Resource::made_of(values))
    }

    #[tactic(auto, using(crate::specs::Resources::resource_back))]
    fn reads_back(&self) {
        message_reads_back(&RESOURCE_NAMES, &resource_rows!(self));
    }
}
