//! The state of the test master. `handling.rt` handles calls, `sending.rt` makes events.
ghost use Rattle.std.specs.Prelude.{◌≡◌, length, slice_get, option_copied};
ghost use Rattle.std.specs.Map.{lookup};
ghost use Rattle.mes_session_state.specs.Refusals.{is_among};
ghost use Rattle.mes_double_master.specs.Masters.{same_id};
ghost use Rattle.mes_double_master.specs.Runs.{master_with, new_master};

mod handling;
mod sending;

use indexmap::{IndexMap, IndexSet};
use mes_double_http::StreamId;
use mes_double_master_state::events::usual_interval;
use mes_model::{Id, Offer, OwedKey, TaskStatus};
use mes_model_schema::fixed::Micros;
use mes_session_state::{OutstandingOffers, UpdateKeys};
use std::alloc::Global;
use std::marker::Model;
use uuid::Uuid;

/// A test master of one framework. In contracts its value is `MasterState`.
#[derive(Drop)]
pub struct Master {
    alloc: Global,
    framework: Id,
    /// The heartbeat interval that SUBSCRIBED announces.
    interval: Option<Micros>,
    /// The UUIDs for the ids of future streams, in order.
    ids: Vec<Uuid>,
    stream: Option<StreamId>,
    /// True if a TEARDOWN was carried out.
    down: bool,
    /// The identifiers of all offers ever made.
    offered: IndexSet<Id>,
    outstanding: OutstandingOffers,
    /// The last status of each task.
    latest: IndexMap<Id, TaskStatus>,
    /// The updates that require an acknowledgement, acknowledged or not.
    owing: IndexMap<OwedKey, TaskStatus>,
    launched: IndexSet<Id>,
    acked: UpdateKeys,
}

impl Model for Master {
    ghost use Rattle.std.specs.Coded.{codes};
    ghost use Rattle.mes_model_schema.specs.MembersCode.{members_code};
    ghost use Rattle.mes_double_master.specs.Masters.{MasterState};

    ghost Value = { MasterState };

    ghost coded = { Prim.hlevel (codes, members_code) };

    ghost view = { λ m. record {
      framework = m.framework;
      interval = m.interval;
      ids = m.ids.items;
      stream = m.stream;
      down = m.down;
      offered = m.offered.keys;
      outstanding = m.outstanding;
      latest = m.latest.entries;
      owing = m.owing.entries;
      launched = m.launched.keys;
      acked = m.acked;
    } };
}

impl Master {
    /// Returns a master of the framework whose streams get these ids in order. Does not allocate.
    pub fn new(alloc: Global, framework: Id, ids: Vec<Uuid>) -> Master
        ensures { result ≡ new_master framework ids.items }
    {
        Master::with_interval(alloc, framework, ids, usual_interval())
    }

    /// Like [`Master::new`], for a heartbeat interval other than the usual 15 seconds. `None`
    /// announces none.
    pub fn with_interval(
        alloc: Global,
        framework: Id,
        ids: Vec<Uuid>,
        interval: Option<Micros>,
    ) -> Master
        ensures { result ≡ master_with framework ids.items interval }
    {
        Master {
            alloc,
            framework,
            interval,
            ids,
            stream: None,
            down: false,
            offered: IndexSet::new(alloc),
            outstanding: OutstandingOffers::new(alloc),
            latest: IndexMap::new(alloc),
            owing: IndexMap::new(alloc),
            launched: IndexSet::new(alloc),
            acked: UpdateKeys::new(alloc),
        }
    }

    /// Returns the identifier of the framework. Neither this nor another getter allocates.
    pub fn framework(&self) -> &Id
        ensures { result.now ≡ self.now.framework }
    {
        &self.framework
    }

    /// Returns the id of the current stream.
    pub fn stream(&self) -> Option<&StreamId>
        ensures { option_copied result ≡ self.now.stream }
    {
        self.stream.as_ref()
    }

    /// Returns the number of outstanding offers.
    pub fn outstanding_len(&self) -> usize
        ensures { result ≡ length self.now.outstanding }
    {
        self.outstanding.len()
    }

    /// Returns the outstanding offer at an index, in the order in which the offers were made.
    pub fn outstanding_at(&self, index: usize) -> Option<&Offer>
        ensures { option_copied result ≡ slice_get self.now.outstanding index }
    {
        self.outstanding.get_index(index)
    }

    /// Returns the outstanding offers.
    pub fn outstanding(&self) -> &OutstandingOffers
        ensures { result.now ≡ self.now.outstanding }
    {
        &self.outstanding
    }

    /// Returns the last status of a task, or `None` if no status of the task was sent.
    pub fn last_status(&self, task: &Id) -> Option<&TaskStatus>
        ensures { option_copied result ≡ lookup (same_id task.now) self.now.latest }
    {
        self.latest.get(task)
    }

    /// Returns whether a task with this identifier was launched.
    pub fn has_launched(&self, task: &Id) -> bool
        ensures { result ≡ is_among task.now self.now.launched }
    {
        self.launched.contains(task)
    }

    /// Returns the number of launched tasks.
    pub fn launched_len(&self) -> usize
        ensures { result ≡ length self.now.launched }
    {
        self.launched.len()
    }

    /// Returns the identifier of the launched task at an index, in the order of the launches.
    pub fn launched_at(&self, index: usize) -> Option<&Id>
        ensures { option_copied result ≡ slice_get self.now.launched index }
    {
        self.launched.get_index(index)
    }

    /// Returns the number of acknowledged updates.
    pub fn acked_len(&self) -> usize
        ensures { result ≡ length self.now.acked }
    {
        self.acked.len()
    }

    /// Returns the key of the acknowledged update at an index, in the order of the
    /// acknowledgements.
    pub fn acked_at(&self, index: usize) -> Option<&OwedKey>
        ensures { option_copied result ≡ slice_get self.now.acked index }
    {
        self.acked.get_index(index)
    }
}
