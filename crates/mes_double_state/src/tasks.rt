//! The tasks as JSON.
ghost use Rattle.std.specs.Prelude.{◌≡◌, IfOk, OnOk, ◌∷◌, ◌++◌, [], map};
ghost use Rattle.mes_json.specs.View.{view};
ghost use Rattle.mes_double_state.specs.States.{id_tree, ids_tree};

use crate::json::{ToJson, push_text, text_json};
use mes_double_cluster::Task;
use mes_double_master::Master;
use mes_json::{Json, NoMemory};
use mes_model::Id;
use mes_model_schema::{put, whole_object};
use std::alloc::Global;

impl ToJson for Task {
    ghost use Rattle.mes_double_state.specs.States.{task_tree};

    ghost tree = { task_tree };

    #[tactic(auto, unfolding(mes_model_schema::specs::Leaves::texts, mes_model_schema::specs::Leaves::booleans))]
    fn to_json(&self, alloc: Global) -> Result<Json, NoMemory> {
        let mut members = Vec::new(alloc);
        put(&mut members, alloc, "task_id", &self.id().value)?;
        put(&mut members, alloc, "agent_id", &self.agent().value)?;
        push_text(&mut members, alloc, "state", self.progress.state.name())?;
        put(
            &mut members,
            alloc,
            "acknowledged",
            &self.progress.waiting.is_none(),
        )?;
        put(&mut members, alloc, "killed", &self.progress.killed)?;
        Ok(whole_object(members))
    }
}

/// Returns the JSON array of the identifiers of the tasks that were launched, in order.
pub(crate) fn launched_json(alloc: Global, master: &Master) -> Result<Json, NoMemory>
    ensures { IfOk result (λ json. view json ≡ ids_tree master.now.launched) }
{
    let mut trees = Vec::new(alloc);
    for index in 0..master.launched_len() {
        if let Some(id) = master.launched_at(index) {
            push_id(alloc, id, &mut trees)?;
        }
    }
    Ok(Json::List(trees))
}

/// Appends the JSON string of an identifier.
fn push_id(alloc: Global, id: &Id, trees: &mut Vec<Json>) -> Result<(), NoMemory>
    ensures { OnOk result (map view trees.new.items
        ≡ map view trees.old.items ++ id_tree id.now ∷ []) }
{
    let tree = text_json(alloc, id.value.as_str())?;
    trees.push(tree)?;
    Ok(())
}
