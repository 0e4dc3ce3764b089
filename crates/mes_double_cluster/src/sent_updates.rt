//! When each unacknowledged update was sent last.
ghost use Rattle.std.specs.Prelude.{◌≡◌, [], ◌∷◌, ◌++◌, length, map, slice_get, option_map, ◌↔◌, IsTrue, OnOk, OnErr};
ghost use Rattle.mes_double_cluster.specs.Times.{earlier, earliest};
ghost use Rattle.mes_double_cluster.specs.Updates.{without_update, sent_again, due_from};

use mes_json::NoMemory;
use mes_model::OwedKey;
use std::alloc::Global;
use std::marker::Model;

/// An update that requires an acknowledgement, and when it was sent last.
#[derive(Drop)]
pub struct SentUpdate {
    /// The key of the acknowledgement that the update requires.
    pub key: OwedKey,
    /// The time of the last sending, in milliseconds.
    pub at: u64,
}

/// The unacknowledged updates in the order of their first sending, with the time of the last one.
/// In contracts the value is the list of them.
#[derive(Drop)]
pub struct SentUpdates {
    updates: Vec<SentUpdate>,
}

impl Model for SentUpdates {
    ghost use Rattle.std.specs.Prelude.{List};
    ghost use Rattle.mes_double_cluster.specs.declared.sent_updates.SentUpdate.{SentUpdate as Sent};

    ghost Value = { List Sent };

    ghost view = { λ sent. sent.updates.items };
}

impl SentUpdates {
    /// Returns an empty list. Does not allocate.
    pub fn new(alloc: Global) -> SentUpdates
        ensures { result ≡ [] }
    {
        SentUpdates {
            updates: Vec::new(alloc),
        }
    }

    /// Returns the updates.
    pub fn as_slice(&self) -> &[SentUpdate]
        ensures { result.now ≡ self.now }
    {
        self.updates.as_slice()
    }

    /// Returns the number of updates.
    pub fn len(&self) -> usize
        ensures { result ≡ length self.now }
    {
        self.updates.len()
    }

    /// Returns whether there are no updates.
    pub fn is_empty(&self) -> bool
        ensures { IsTrue result ↔ self.now ≡ [] }
    {
        self.updates.is_empty()
    }

    /// Appends an update that was sent for the first time. Errors: `NoMemory` if an allocation
    /// fails; nothing is then changed.
    pub fn push(&mut self, key: OwedKey, now: u64) -> Result<(), NoMemory>
        ensures ok { OnOk result (self.new ≡ self.old ++ record { key = key; at = now } ∷ []) }
        ensures err { OnErr result (self.new ≡ self.old) }
    {
        self.updates.push(SentUpdate { key, at: now })?;
        Ok(())
    }

    /// Removes the update with this key, if it is there.
    pub fn acknowledge(&mut self, key: &OwedKey)
        ensures { self.new ≡ without_update key.now self.old }
    {
        remove_key(&mut self.updates, key);
    }

    /// Notes that the update at an index was sent again, if it is there.
    pub fn sent_again(&mut self, index: usize, now: u64)
        ensures { self.new ≡ sent_again self.old index now }
    {
        if let Some(update) = self.updates.get_mut(index) {
            update.at = now;
        }
    }

    /// Returns the first time at which the update at an index is sent again, if it is there.
    /// `every` is the time between two sendings. The time saturates.
    pub fn due_from(&self, index: usize, every: u64) -> Option<u64>
        ensures { result ≡ option_map (due_from every) (slice_get self.now index) }
    {
        let update = self.updates.get(index)?;
        Some(update.due_from(every))
    }

    /// Returns the first time at which an update is sent again.
    pub fn first_due(&self, every: u64) -> Option<u64>
        ensures { result ≡ earliest (map (due_from every) self.now) }
    {
        first_due(self.updates.as_slice(), every)
    }
}

impl SentUpdate {
    /// Returns the first time at which the update is sent again.
    fn due_from(&self, every: u64) -> u64
        ensures { result ≡ due_from every self.now }
    {
        self.at.saturating_add(every)
    }
}

fn remove_key(updates: &mut Vec<SentUpdate>, key: &OwedKey)
    ensures { updates.new.items ≡ without_update key.now updates.old.items }
{
    updates.retain(|update| &update.key != key);
}

fn first_due(updates: &[SentUpdate], every: u64) -> Option<u64>
    ensures { result ≡ earliest (map (due_from every) updates.now) }
{
    updates.iter().map(|update| update.due_from(every)).min()
}

/// Returns the earlier of two times; `None` is never.
pub(crate) fn earlier(one: Option<u64>, other: Option<u64>) -> Option<u64>
    ensures { result ≡ earlier one other }
{
    match (one, other) {
        (Some(one), Some(other)) => Some(one.min(other)),
        (Some(one), None) => Some(one),
        (None, other) => other,
    }
}
