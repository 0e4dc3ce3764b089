//! The log of a run as JSON.
ghost use Rattle.std.specs.Prelude.{◌≡◌, IfOk};
ghost use Rattle.mes_json.specs.View.{view};
ghost use Rattle.mes_double_state.specs.States.{answered_tree, sent_tree};

use crate::json::ToJson;
use http::StatusCode;
use mes_double_live::LogEntry;
use mes_json::{Json, NoMemory, Text};
use mes_model_schema::{put, whole_object};
use std::alloc::Global;

impl ToJson for LogEntry {
    ghost use Rattle.mes_double_state.specs.States.{entry_tree};

    ghost tree = { entry_tree };

    fn to_json(&self, alloc: Global) -> Result<Json, NoMemory> {
        match self {
            LogEntry::Sent(name) => sent_json(alloc, name),
            LogEntry::Answered { name, status } => answered_json(alloc, name, *status),
        }
    }
}

/// Returns the JSON object of an event of this type that was sent.
#[tactic(auto, unfolding(mes_model_schema::specs::Leaves::texts))]
fn sent_json(alloc: Global, name: &Text) -> Result<Json, NoMemory>
    ensures { IfOk result (λ json. view json ≡ sent_tree name.now) }
{
    let mut members = Vec::new(alloc);
    put(&mut members, alloc, "event", name)?;
    Ok(whole_object(members))
}

/// Returns the JSON object of a call of this type that was answered with this status.
#[tactic(auto, unfolding(mes_model_schema::specs::Leaves::texts, mes_model_schema::specs::Numbers::whole))]
fn answered_json(alloc: Global, name: &Text, status: StatusCode) -> Result<Json, NoMemory>
    ensures { IfOk result (λ json. view json ≡ answered_tree name.now status) }
{
    let mut members = Vec::new(alloc);
    put(&mut members, alloc, "call", name)?;
    put(&mut members, alloc, "status", &u64::from(status.as_u16()))?;
    Ok(whole_object(members))
}
