//! The keys of the updates that are not yet acknowledged.
ghost use Rattle.std.specs.Prelude.{◌≡◌, ◌↔◌, not, [], length, slice_get, option_copied, IsTrue, OnOk, OnErr, false};
ghost use Rattle.mes_session_state.specs.Held.{same_key, is_owed, with_key, without_key};

use indexmap::IndexSet;
use mes_json::NoMemory;
use mes_model::{Id, OwedKey};
use mes_model_schema::Bytes;
use std::alloc::Global;
use std::marker::Model;

/// The keys of unacknowledged updates in order, without duplicates. In contracts the value is the
/// list of the keys.
#[derive(Drop)]
pub struct UpdateKeys {
    keys: IndexSet<OwedKey>,
}

impl Model for UpdateKeys {
    ghost use Rattle.std.specs.Prelude.{List};
    ghost use Rattle.mes_model.specs.OwedKey.{OwedKey as Key};

    ghost Value = { List Key };

    ghost view = { λ owed. owed.keys.keys };
}

impl UpdateKeys {
    /// Returns an empty collection. Does not allocate.
    pub fn new(alloc: Global) -> UpdateKeys
        ensures { result ≡ [] }
    {
        UpdateKeys {
            keys: IndexSet::new(alloc),
        }
    }

    /// Returns the number of keys.
    pub fn len(&self) -> usize
        ensures { result ≡ length self.now }
    {
        self.keys.len()
    }

    /// Returns whether there are no keys.
    pub fn is_empty(&self) -> bool
        ensures { IsTrue result ↔ self.now ≡ [] }
    {
        self.keys.is_empty()
    }

    /// Returns the key at an index.
    pub fn get_index(&self, index: usize) -> Option<&OwedKey>
        ensures { option_copied result ≡ slice_get self.now index }
    {
        self.keys.get_index(index)
    }

    /// Returns whether the key is present, in a time independent of the number of keys.
    pub fn contains(&self, key: &OwedKey) -> bool
        ensures { result ≡ is_owed key.now self.now }
    {
        self.keys.contains(key)
    }

    /// Returns whether the key of this agent, task and UUID is present. The search is linear.
    pub fn has(&self, agent: &Id, task: &Id, uuid: &Bytes) -> bool
        // The key with this agent, task and UUID is present, if and only if the result is true.
        ensures { result ≡ is_owed (record { agent = agent.now; task = task.now; uuid = uuid.now })
            self.now }
    {
        self.keys
            .as_slice()
            .iter()
            .any(|key| is_key(key, agent, task, uuid))
    }

    /// Adds a key at the end. A key that is present stays in its place, without an allocation.
    /// Errors: `NoMemory` if an allocation fails; nothing is then changed.
    pub fn add(&mut self, key: OwedKey) -> Result<(), NoMemory>
        ensures ok { OnOk result (self.new ≡ with_key self.old key) }
        ensures err { OnErr result (self.new ≡ self.old) }
        ensures absent { OnErr result (is_owed key self.old ≡ false) }
    {
        self.keys.insert(key)?;
        Ok(())
    }

    /// Removes the key of this agent, task and UUID, if present, and retains the order. Does not
    /// allocate.
    pub fn remove_key(&mut self, agent: &Id, task: &Id, uuid: &Bytes)
        // The key with this agent, task and UUID is removed.
        ensures { self.new ≡ without_key
            (record { agent = agent.now; task = task.now; uuid = uuid.now }) self.old }
    {
        self.keys.retain(
            |key: &OwedKey| -> bool
                ensures { result ≡ not (same_key
                    (record {
                      agent = agent.entry.now;
                      task = task.entry.now;
                      uuid = uuid.entry.now;
                    }) key.now) }
            { !is_key(key, agent, task, uuid) },
        );
    }
}

/// Returns whether the key is of this agent, task and UUID. The UUID differs most often, so it is
/// compared first.
fn is_key(key: &OwedKey, agent: &Id, task: &Id, uuid: &Bytes) -> bool
    ensures { result ≡ same_key (record { agent = agent.now; task = task.now; uuid = uuid.now })
        key.now }
{
    uuid == &key.uuid && agent == &key.agent && task == &key.task
}
