//! The operations on accepted offers, which are part of the body of ACCEPT (`accept.rt`).
ghost use Rattle.std.specs.Prelude.{◌≡◌, IfOk, OnOk};
ghost use Rattle.mes_model_schema.specs.View.{view};
ghost use Rattle.mes_model_schema.specs.Appended.{Appends, AppendsMembers};
ghost use Rattle.mes_model_schema.specs.Kinds.{Returns};
ghost use Rattle.mes_msg_call_body.specs.Operations.{launch, operation_rows};

use mes_model::TaskInfo;
use mes_model_schema::back::message_reads_back;
use mes_model_schema::json::{self, Element, NoMemory, Text};
use mes_model_schema::{
    Choice, ConstructFrom, FieldFaultKind, Found, List, Part, PartFault, PathBuilder, RepeatedRow,
    RowList, Rows1, append_name, copy_list, deeper, made, message_text, message_tree, pairs,
    push_type_tree, read_message, read_typed, required, type_of, type_refusal, typed_text,
    typed_tree, write_type_text,
};
use std::alloc::Global;
use std::marker::Model;

/// An operation on accepted offers (mesos.proto, `Offer.Operation`). Reading a type other than
/// LAUNCH returns the fault `LeftOut`.
#[derive(Debug, Drop)]
pub enum Operation {
    /// LAUNCH: launches tasks on the resources of the offers.
    Launch {
        /// The tasks to launch.
        task_infos: List<TaskInfo>,
    },
}

const OPERATION_MEMBERS: [&str; 2] = ["type", "launch"];

impl Choice for Operation {
    ghost use Rattle.mes_msg_call_body.specs.Operations.{operation_members, operation_rows, lawful_operation_rows};
    ghost use Rattle.std.specs.Prelude.{refl};

    ghost names = { operation_members };

    ghost table = { operation_rows };

    ghost STEPS = { 11 };

    ghost COUNT = { 2 };

    const COUNT: usize = 2;

    ghost counted = { refl };

    ghost lawful = { lawful_operation_rows };

    #[tactic(auto, using(mes_model_schema::specs::NameLaws::names_differ))]
    fn read_choice(
        alloc: Global,
        found: &[Found<'_>],
        path: &PathBuilder<'_>,
    ) -> Result<Operation, PartFault> {
        match type_of(alloc, &found[0], path)? {
            "LAUNCH" => {
                let launch: Launch = required(alloc, &found[1], "launch", path)?;
                Ok(Operation::Launch {
                    task_infos: launch.into_list(),
                })
            }
            _ => Err(type_refusal(alloc, path, FieldFaultKind::LeftOut)),
        }
    }

    fn push_choice_tree(
        &self,
        members: &mut Vec<(Text, json::Json)>,
        alloc: Global,
    ) -> Result<(), NoMemory> {
        let Operation::Launch { task_infos } = self;
        push_type_tree(members, alloc, "LAUNCH")?;
        let tree = launch_tree(alloc, task_infos)?;
        let name = Text::of(alloc, "launch")?;
        members.push((name, tree))?;
        Ok(())
    }

    fn write_choice_text(&self, alloc: Global, out: &mut Vec<u8>) -> Result<u64, NoMemory> {
        let Operation::Launch { task_infos } = self;
        append_launch(alloc, task_infos, out)
    }

    fn copy_choice(&self, alloc: Global) -> Result<Operation, NoMemory> {
        let Operation::Launch { task_infos } = self;
        let task_infos = copy_list(alloc, task_infos)?;
        Ok(Operation::Launch { task_infos })
    }

    fn choice_reads_back(&self) {
        let Operation::Launch { task_infos } = self;
        launch_reads_back(task_infos);
    }
}

impl Part for Operation {
    ghost use Rattle.mes_msg_call_body.specs.Operations.{operation, lawful_operation};

    ghost kind = { operation };

    ghost STEPS = { 11 };

    const STEPS: u32 = 11;

    ghost lawful = { lawful_operation };

    #[tactic(auto, unfolding(crate::specs::Operations::operation))]
    fn read_from(
        alloc: Global,
        element: &Element<'_>,
        path: &PathBuilder<'_>,
    ) -> Result<Operation, PartFault> {
        read_typed::<Operation, 2>(alloc, element, &OPERATION_MEMBERS, path)
    }

    #[tactic(auto, using(crate::specs::Operations::operation_back), unfolding(crate::specs::Operations::operation))]
    fn tree(&self, alloc: Global) -> Result<json::Json, NoMemory> {
        typed_tree(alloc, self)
    }

    #[tactic(auto, using(crate::specs::Operations::operation_back), unfolding(crate::specs::Operations::operation))]
    fn write_json(&self, alloc: Global, out: &mut Vec<u8>) -> Result<u64, NoMemory> {
        typed_text(alloc, self, out)
    }

    fn copy(&self, alloc: Global) -> Result<Operation, NoMemory> {
        self.copy_choice(alloc)
    }

    #[tactic(auto, using(crate::specs::Operations::operation_back))]
    fn reads_back(&self) {
        self.choice_reads_back();
    }
}

/// The body of a LAUNCH operation. In contracts its value is the list of tasks.
#[derive(Debug, Drop)]
struct Launch {
    task_infos: List<TaskInfo>,
}

impl Model for Launch {
    ghost use Rattle.std.specs.Prelude.{List as list};
    ghost use Rattle.mes_model.specs.TaskInfo.{TaskInfo as TaskInfoValue};
    ghost use Rattle.mes_model_schema.specs.contracts.kept.Kept as kept;
    ghost use Rattle.std.specs.Coded.{codes};

    ghost Value = { list TaskInfoValue };

    ghost coded = { Prim.hlevel (codes, kept.the_row.coded) };

    ghost view = { λ body. body.task_infos };
}

impl Launch {
    fn into_list(self) -> List<TaskInfo>
        ensures { result ≡ self }
    {
        self.task_infos
    }
}

const LAUNCH_NAMES: [&str; 1] = ["task_infos"];

type LaunchRows = Rows1<RepeatedRow<TaskInfo>>;

impl ConstructFrom<<LaunchRows as RowList>::Values> for Launch {
    ghost use Rattle.mes_msg_call_body.specs.Operations.{launch_layout};

    ghost to = { launch_layout.to };

    fn made_of(values: <LaunchRows as RowList>::Values) -> Launch {
        made!(values => Launch { task_infos })
    }
}

impl Part for Launch {
    ghost use Rattle.mes_msg_call_body.specs.Operations.{launch, lawful_launch};

    ghost kind = { launch };

    ghost STEPS = { 10 };

    const STEPS: u32 = 10;

    ghost lawful = { lawful_launch };

    #[tactic(auto, unfolding(crate::specs::Operations::launch))]
    fn read_from(
        alloc: Global,
        element: &Element<'_>,
        path: &PathBuilder<'_>,
    ) -> Result<Launch, PartFault> {
        read_message::<LaunchRows, Launch, 1>(alloc, element, &LAUNCH_NAMES, path)
    }

    fn tree(&self, alloc: Global) -> Result<json::Json, NoMemory> {
        launch_tree(alloc, &self.task_infos)
    }

    fn write_json(&self, alloc: Global, out: &mut Vec<u8>) -> Result<u64, NoMemory> {
        launch_text(alloc, &self.task_infos, out)
    }

    fn copy(&self, alloc: Global) -> Result<Launch, NoMemory> {
        let task_infos = copy_list(alloc, &self.task_infos)?;
        Ok(Launch { task_infos })
    }

    fn reads_back(&self) {
        launch_reads_back(&self.task_infos);
    }
}

#[tactic(auto, using(crate::specs::Operations::launch_back), unfolding(crate::specs::Operations::launch))]
fn launch_tree(alloc: Global, task_infos: &List<TaskInfo>) -> Result<json::Json, NoMemory>
    ensures tree { IfOk result (λ t. view t ≡ launch.tree task_infos.now) }
    // On success: the tree is read back as the same tasks.
    ensures back { OnOk result (Returns launch task_infos.now) }
{
    message_tree(alloc, &LAUNCH_NAMES, &pairs!(task_infos))
}

/// Appends the text of the members `type` and `launch`, and returns the greater nesting depth of
/// their values.
#[tactic(auto, using(mes_model_schema::proofs::AppendLemmas::both_members))]
fn append_launch(
    alloc: Global,
    task_infos: &List<TaskInfo>,
    out: &mut Vec<u8>,
) -> Result<u64, NoMemory>
    ensures members { IfOk result (λ deep. AppendsMembers out.old.items
        (operation_rows.members (Operation.Launch task_infos.now)) out.new.items deep) }
    ensures back { OnOk result (operation_rows.Back (Operation.Launch task_infos.now)) }
{
    let first = write_type_text("LAUNCH", out)?;
    append_name("launch", out)?;
    let second = launch_text(alloc, task_infos, out)?;
    Ok(deeper(first, second))
}

/// Appends the text of the body of LAUNCH and returns its nesting depth.
#[tactic(auto, using(crate::specs::Operations::launch_back), unfolding(crate::specs::Operations::launch))]
fn launch_text(
    alloc: Global,
    task_infos: &List<TaskInfo>,
    out: &mut Vec<u8>,
) -> Result<u64, NoMemory>
    ensures text { IfOk result (λ deep. Appends out.old.items (launch.tree task_infos.now)
        out.new.items deep) }
    // On success: the text is read back as the same tasks.
    ensures back { OnOk result (Returns launch task_infos.now) }
{
    message_text(alloc, &LAUNCH_NAMES, &pairs!(task_infos), out)
}

/// Shows that the body of LAUNCH is read back from its tree.
#[tactic(auto, using(crate::specs::Operations::launch_back))]
fn launch_reads_back(task_infos: &List<TaskInfo>)
    ensures { Returns launch task_infos.now }
{
    message_reads_back(&LAUNCH_NAMES, &pairs!(task_infos));
}
