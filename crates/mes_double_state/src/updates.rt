//! The unacknowledged updates as JSON.

use crate::json::ToJson;
use mes_double_cluster::SentUpdate;
use mes_json::{Json, NoMemory};
use mes_model_schema::{put, whole_object};
use std::alloc::Global;

impl ToJson for SentUpdate {
    ghost use Rattle.mes_double_state.specs.States.{update_tree};

    ghost tree = { update_tree };

    #[tactic(auto, unfolding(mes_model_schema::specs::Leaves::texts, mes_model_schema::specs::Numbers::whole))]
    fn to_json(&self, alloc: Global) -> Result<Json, NoMemory> {
        let mut members = Vec::new(alloc);
        put(&mut members, alloc, "agent_id", &self.key.agent.value)?;
        put(&mut members, alloc, "task_id", &self.key.task.value)?;
        put(&mut members, alloc, "uuid", &self.key.uuid)?;
        put(&mut members, alloc, "sent", &self.at)?;
        Ok(whole_object(members))
    }
}
