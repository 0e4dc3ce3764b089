//! The key of the acknowledgement that a status update requires.

ghost use Rattle.std.specs.Prelude.{◌≡◌, IsTrue, ◌↔◌, IfOk};

use mes_model_resource::Id;
use mes_model_schema::json::NoMemory;
use mes_model_schema::{Bytes, Part};
use std::alloc::Global;

/// The key of an acknowledgement that a status update requires: the agent, the task and the uuid.
#[derive(Debug, Drop, PartialEq, Eq, Hash)]
pub struct OwedKey {
    /// The agent of the task.
    pub agent: Id,
    /// The identifier of the task.
    pub task: Id,
    /// The uuid of the update.
    pub uuid: Bytes,
}

impl OwedKey {
    /// Copies the key.
    pub fn copy(&self, alloc: Global) -> Result<OwedKey, NoMemory>
        ensures { IfOk result (λ key. key ≡ self.now) }
    {
        let agent = self.agent.copy(alloc)?;
        let task = self.task.copy(alloc)?;
        let uuid = self.uuid.copy(alloc)?;
        Ok(OwedKey { agent, task, uuid })
    }
}

/// Returns whether two keys have the same agent, task and uuid, like `==`.
pub fn equal_keys(key: &OwedKey, other: &OwedKey) -> bool
    ensures { IsTrue result ↔ key.now ≡ other.now }
{
    key == other
}
