//! Frameworks and their capabilities.

use mes_model_resource::Id;
use mes_model_schema::back::message_reads_back;
use mes_model_schema::fixed::Micros;
use mes_model_schema::json::{self, Element, NoMemory, Text};
use mes_model_schema::{
    ConstructFrom, List, OptionalRow, Part, PartFault, PathBuilder, RepeatedRow, RequiredRow,
    RequiredRowRef, RowList, RowRefList, Rows1, Rows9, made, message_text, message_tree, pairs,
    read_message,
};
use std::alloc::Global;

/// A capability of a framework (`FrameworkInfo.Capability` in mesos.proto).
#[derive(Debug, Drop)]
pub struct Capability {
    /// The member `type`: the name of the capability.
    pub kind: Option<Text>,
}

const CAPABILITY_NAMES: [&str; 1] = ["type"];

type CapabilityRows = Rows1<OptionalRow<Text>>;

impl ConstructFrom<<CapabilityRows as RowList>::Values> for Capability {
    ghost use Rattle.mes_model.specs.Frameworks.{capability_layout};

    ghost to = { capability_layout.to };

    fn made_of(values: <CapabilityRows as RowList>::Values) -> Capability {
        made!(values => Capability { kind })
    }
}

/// Expands to the borrowed values of the members, in the order of the table.
macro_rules! capability_rows {
    ($of:ident) => {
        pairs!(&$of.kind)
    };
}

impl Part for Capability {
    ghost use Rattle.mes_model.specs.Frameworks.{capability, lawful_capability};

    ghost kind = { capability };

    ghost STEPS = { 1 };

    const STEPS: u32 = 1;

    ghost lawful = { lawful_capability };

    #[tactic(auto, unfolding(crate::specs::Frameworks::capability))]
    fn read_from(
        alloc: Global,
        element: &Element<'_>,
        path: &PathBuilder<'_>,
    ) -> Result<Capability, PartFault> {
        read_message::<CapabilityRows, Capability, 1>(alloc, element, &CAPABILITY_NAMES, path)
    }

    #[tactic(auto, using(crate::specs::Frameworks::capability_back), unfolding(crate::specs::Frameworks::capability))]
    fn tree(&self, alloc: Global) -> Result<json::Json, NoMemory> {
        message_tree(alloc, &CAPABILITY_NAMES, &capability_rows!(self))
    }

    #[tactic(auto, using(crate::specs::Frameworks::capability_back), unfolding(crate::specs::Frameworks::capability))]
    fn write_json(&self, alloc: Global, out: &mut Vec<u8>) -> Result<u64, NoMemory> {
        message_text(alloc, &CAPABILITY_NAMES, &capability_rows!(self), out)
    }

    fn copy(&self, alloc: Global) -> Result<Capability, NoMemory> {
        let values = capability_rows!(self).copy_rows(alloc)?;
        Ok(Capability::made_of(values))
    }

    #[tactic(auto, using(crate::specs::Frameworks::capability_back))]
    fn reads_back(&self) {
        message_reads_back(&CAPABILITY_NAMES, &capability_rows!(self));
    }
}

/// The description of a framework (`FrameworkInfo` in mesos.proto).
#[derive(Debug, Drop)]
pub struct FrameworkInfo {
    /// The user that runs the executors and tasks of the framework.
    pub user: Text,
    /// The name of the framework.
    pub name: Text,
    /// The identifier of the framework, once the master has assigned one.
    pub id: Option<Id>,
    /// The time for which tasks run on without their scheduler, in seconds with six decimals.
    pub failover_timeout: Option<Micros>,
    /// Whether agents save to disk what they need to restart while tasks run.
    pub checkpoint: Option<bool>,
    /// The roles that resources are offered to.
    pub roles: List<Text>,
    /// The hostname of the scheduler.
    pub hostname: Option<Text>,
    /// The principal that the framework authenticates as.
    pub principal: Option<Text>,
    /// The capabilities of the framework.
    pub capabilities: List<Capability>,
}

const FRAMEWORK_INFO_NAMES: [&str; 9] = [
    "user",
    "name",
    "id",
    "failover_timeout",
    "checkpoint",
    "roles",
    "hostname",
    "principal",
    "capabilities",
];

type FrameworkInfoRows = Rows9<
    RequiredRow<Text>,
    RequiredRow<Text>,
    OptionalRow<Id>,
    OptionalRow<Micros>,
    OptionalRow<bool>,
    RepeatedRow<Text>,
    OptionalRow<Text>,
    OptionalRow<Text>,
    RepeatedRow<Capability>,
>;

impl ConstructFrom<<FrameworkInfoRows as RowList>::Values> for FrameworkInfo {
    ghost use Rattle.mes_model.specs.Frameworks.{framework_info_layout};

    ghost to = { framework_info_layout.to };

    fn made_of(values: <FrameworkInfoRows as RowList>::Values) -> FrameworkInfo {
        made!(values => FrameworkInfo {
            user,
            name,
            id,
            failover_timeout,
            checkpoint,
            roles,
            hostname,
            principal,
            capabilities,
        })
    }
}

/// Expands to the borrowed values of the members, in the order of the table.
macro_rules! framework_info_rows {
    ($of:ident) => {
        pairs!(
            RequiredRowRef(&$of.user),
            RequiredRowRef(&$of.name),
            &$of.id,
            &$of.failover_timeout,
            &$of.checkpoint,
            &$of.roles,
            &$of.hostname,
            &$of.principal,
            &$of.capabilities,
        )
    };
}

impl Part for FrameworkInfo {
    ghost use Rattle.mes_model.specs.Frameworks.{framework_info, lawful_framework_info};

    ghost kind = { framework_info };

    ghost STEPS = { 3 };

    const STEPS: u32 = 3;

    ghost lawful = { lawful_framework_info };

    #[tactic(auto, unfolding(crate::specs::Frameworks::framework_info))]
    fn read_from(
        alloc: Global,
        element: &Element<'_>,
        path: &PathBuilder<'_>,
    ) -> Result<FrameworkInfo, PartFault> {
        read_message::<FrameworkInfoRows, FrameworkInfo, 9>(
            alloc,
            element,
            &FRAMEWORK_INFO_NAMES,
            path,
        )
    }

    #[tactic(auto, using(crate::specs::Frameworks::framework_info_back), unfolding(crate::specs::Frameworks::framework_info))]
    fn tree(&self, alloc: Global) -> Result<json::Json, NoMemory> {
        message_tree(alloc, &FRAMEWORK_INFO_NAMES, &framework_info_rows!(self))
    }

    #[tactic(auto, using(crate::specs::Frameworks::framework_info_back), unfolding(crate::specs::Frameworks::framework_info))]
    fn write_json(&self, alloc: Global, out: &mut Vec<u8>) -> Result<u64, NoMemory> {
        message_text(
            alloc,
            &FRAMEWORK_INFO_NAMES,
            &framework_info_rows!(self),
            out,
        )
    }

    fn copy(&self, alloc: Global) -> Result<FrameworkInfo, NoMemory> {
        let values = framework_info_rows!(self).copy_rows(alloc)?;
        Ok(FrameworkInfo::made_of(values))
    }

    #[tactic(auto, using(crate::specs::Frameworks::framework_info_back))]
    fn reads_back(&self) {
        message_reads_back(&FRAMEWORK_INFO_NAMES, &framework_info_rows!(self));
    }
}
