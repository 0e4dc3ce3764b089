//! The stock of offers and the tasks of a test master.
ghost use Rattle.std.specs.Prelude.{◌≡◌, ◌++◌, true, false, Some, length, map, IfOk, OnOk};
ghost use Rattle.mes_double_cluster.specs.Times.{saturated_sum, earliest};
ghost use Rattle.mes_double_cluster.specs.Stock.{stocked, returned, revived, declined, rescinded};
ghost use Rattle.mes_double_cluster.specs.Tasks.{times_of};
ghost use Rattle.mes_double_cluster.specs.Clusters.{empty, with_offers, offer_at, offered_at, accepted, status_at, after_report, reported_at, acknowledged, has_task, killed, overtaken, offer_times, due_times};

use crate::offer_state::OfferState;
use crate::progress::is_last;
use crate::sent_updates::earlier;
use crate::stocked_offer::StockedOffer;
use crate::task::Task;
use crate::{stock, task_list};
use mes_json::NoMemory;
use mes_model::{Id, Offer, TaskInfo, TaskState, TaskStatus};
use mes_msg::Acknowledge;
use std::alloc::Global;
use std::marker::Model;

/// The stock of offers and the tasks of a test master. Times are in milliseconds. In contracts the
/// value is `ClusterState`.
#[derive(Drop)]
pub struct Cluster {
    alloc: Global,
    stock: Vec<StockedOffer>,
    /// The tasks whose last state is not reported and acknowledged.
    tasks: Vec<Task>,
    /// True from a SUPPRESS to the next REVIVE: no offer is made.
    suppressed: bool,
    /// The number of launches so far.
    launches: u64,
    /// The number of updates so far.
    updates: u64,
    /// The time for which a task runs; `None`: without an end.
    finish_after: Option<u64>,
}

impl Model for Cluster {
    ghost use Rattle.std.specs.Coded.{codes};
    ghost use Rattle.mes_model_schema.specs.MembersCode.{members_code};
    ghost use Rattle.mes_double_cluster.specs.Clusters.{ClusterState};

    ghost Value = { ClusterState };

    ghost coded = { Prim.hlevel (codes, members_code) };

    ghost view = { λ c. record {
      stock = c.stock.items;
      tasks = c.tasks.items;
      suppressed = c.suppressed;
      launches = c.launches;
      updates = c.updates;
      finish_after = c.finish_after;
    } };
}

impl Cluster {
    /// Returns a cluster without offers and tasks, whose tasks finish after running for
    /// `finish_after`, or never. Does not allocate.
    pub fn new(alloc: Global, finish_after: Option<u64>) -> Cluster
        ensures { result ≡ empty finish_after }
    {
        Cluster {
            alloc,
            stock: Vec::new(alloc),
            tasks: Vec::new(alloc),
            suppressed: false,
            launches: 0,
            updates: 0,
            finish_after,
        }
    }

    /// Adds offers to the stock. They may be made at once. Errors: `NoMemory` if an allocation
    /// fails; some of the offers may then be in stock.
    pub fn stock(&mut self, offers: Vec<Offer>) -> Result<(), NoMemory>
        ensures { OnOk result (self.new
            ≡ record self.old { stock = self.old.stock ++ map stocked offers.items }) }
    {
        stock::add_all(self.alloc, &mut self.stock, offers)
    }

    /// Returns the offers in stock, in the order in which they came.
    pub fn stocked_offers(&self) -> &[StockedOffer]
        ensures { result.now ≡ self.now.stock }
    {
        self.stock.as_slice()
    }

    /// Returns the tasks that are not over, in the order of their launches.
    pub fn tasks(&self) -> &[Task]
        ensures { result.now ≡ self.now.tasks }
    {
        self.tasks.as_slice()
    }

    /// Returns whether no offer is made: true from a SUPPRESS to the next REVIVE.
    pub fn is_suppressed(&self) -> bool
        ensures { result ≡ self.now.suppressed }
    {
        self.suppressed
    }

    /// Returns the number of offers in stock.
    pub fn stock_len(&self) -> usize
        ensures { result ≡ length self.now.stock }
    {
        self.stock.len()
    }

    /// Returns the offer at an index of the stock under a new identifier, if it may be made at the
    /// time `now`. Errors: `NoMemory` if an allocation fails; the offer may then have the
    /// identifier of its next round.
    pub fn offer_at(&mut self, index: usize, now: u64) -> Result<Option<Offer>, NoMemory>
        ensures { IfOk result (λ offer. (offer, self.new) ≡ offer_at index now self.old) }
    {
        if self.suppressed || !stock::is_due_at(self.stock.as_slice(), index, now) {
            return Ok(None);
        }
        stock::renamed_at(self.alloc, &mut self.stock, index)
    }

    /// Notes that the offer at an index was made.
    pub fn offered(&mut self, index: usize)
        ensures { self.new ≡ offered_at index self.old }
    {
        if let Some(stocked) = self.stock.get_mut(index) {
            stocked.state = OfferState::Outstanding;
        }
    }

    /// Notes that the stream ended: the outstanding offers are free at once.
    pub fn disconnected(&mut self, now: u64)
        ensures { self.new ≡ with_offers (returned now) self.old }
    {
        stock::disconnected(self.stock.as_mut_slice(), now);
    }

    /// Notes that the offers were declined: they are free from the time `from` on.
    pub fn declined(&mut self, ids: &[Id], from: u64)
        ensures { self.new ≡ with_offers (declined ids.now from) self.old }
    {
        stock::declined(self.stock.as_mut_slice(), ids, from);
    }

    /// Notes that the offer was rescinded: it is never made again.
    pub fn rescinded(&mut self, id: &Id)
        ensures { self.new ≡ with_offers (rescinded id.now) self.old }
    {
        stock::rescinded(self.stock.as_mut_slice(), id);
    }

    /// Notes a SUPPRESS: no offer is made until the next REVIVE.
    pub fn suppress(&mut self)
        ensures { self.new ≡ record self.old { suppressed = true } }
    {
        self.suppressed = true;
    }

    /// Notes a REVIVE: offers are made again, and no free offer waits.
    pub fn revive(&mut self)
        ensures { self.new ≡ record (with_offers revived self.old) { suppressed = false } }
    {
        self.suppressed = false;
        stock::revive(self.stock.as_mut_slice());
    }

    /// Notes that tasks were launched on offers. The offers are used until all of the tasks have
    /// ended; if there are no tasks, they are free from the time `from` on. Errors: `NoMemory` if
    /// an allocation fails; some of the tasks may then be in the cluster, and no offer is used.
    pub fn accepted(&mut self, ids: &[Id], tasks: &[TaskInfo], from: u64) -> Result<(), NoMemory>
        ensures { OnOk result (self.new ≡ accepted ids.now tasks.now from self.old) }
    {
        let launch = self.launches;
        task_list::add_all(self.alloc, &mut self.tasks, tasks, launch)?;
        self.launches = launch.saturating_add(1);
        stock::accepted(
            self.stock.as_mut_slice(),
            ids,
            launch,
            tasks.len() as u64,
            from,
        );
        Ok(())
    }

    /// Returns the number of tasks that are not over.
    pub fn tasks_len(&self) -> usize
        ensures { result ≡ length self.now.tasks }
    {
        self.tasks.len()
    }

    /// Returns the next status of the task at an index, if one is due at the time `now`.
    pub fn status_at(&self, index: usize, now: u64) -> Result<Option<TaskStatus>, NoMemory>
        ensures { IfOk result (λ status. status ≡ status_at index now self.now) }
    {
        let Some(task) = self.tasks.get(index) else {
            return Ok(None);
        };
        match task.progress.due(now) {
            Some(state) => Ok(Some(task.status(self.alloc, state, self.updates)?)),
            None => Ok(None),
        }
    }

    /// Notes that the next status of the task at an index was reported with this state. If it is
    /// the task's last state, the task's offers are used by one task less.
    pub fn reported(&mut self, index: usize, state: TaskState, now: u64)
        ensures { self.new ≡ reported_at index state now self.old }
    {
        let finishes = self.finish_after.map(|time| now.saturating_add(time));
        let launch = task_list::launch_at(self.tasks.as_slice(), index);
        task_list::reported_at(&mut self.tasks, index, state, self.updates, finishes);
        if let Some(launch) = launch {
            self.count_report(launch, state, now);
        }
    }

    /// Counts an update of a task of this launch. After the task's last state its offers are used
    /// by one task less.
    fn count_report(&mut self, launch: u64, state: TaskState, now: u64)
        ensures { self.new ≡ after_report (Some launch) state now self.old }
    {
        self.skip_update();
        if is_last(state) {
            stock::task_ended(self.stock.as_mut_slice(), launch, now);
        }
    }

    /// Passes over the number of the next update.
    pub fn skip_update(&mut self)
        ensures { self.new ≡ record self.old { updates = saturated_sum self.old.updates 1 } }
    {
        self.updates = self.updates.saturating_add(1);
    }

    /// Notes an acknowledgement. A task whose last state was reported is forgotten.
    pub fn acknowledged(&mut self, body: &Acknowledge)
        ensures { self.new ≡ acknowledged body.now self.old }
    {
        task_list::acknowledged(self.tasks.as_mut_slice(), body);
        task_list::forget_over(&mut self.tasks);
    }

    /// Kills the task with this identifier. Returns false if there is no such task.
    pub fn kill(&mut self, id: &Id) -> bool
        ensures found { result ≡ has_task id.now self.old }
        ensures killed { self.new ≡ killed id.now self.old }
    {
        let is_found = task_list::has_task(self.tasks.as_slice(), id);
        task_list::killed(self.tasks.as_mut_slice(), id);
        is_found
    }

    /// Notes that others reported this state of a task. If it is a last state, the task is
    /// forgotten, and its offers are used by one task less.
    pub fn overtaken(&mut self, id: &Id, state: TaskState, now: u64)
        ensures { self.new ≡ overtaken id.now state now self.old }
    {
        if !is_last(state) {
            return;
        }
        let running = task_list::running_launch(self.tasks.as_slice(), id);
        task_list::forget(&mut self.tasks, id);
        if let Some(launch) = running {
            stock::task_ended(self.stock.as_mut_slice(), launch, now);
        }
    }

    /// Returns the first time at which an offer or a status is due.
    pub fn first_due(&self) -> Option<u64>
        ensures { result ≡ earliest (due_times self.now) }
    {
        earlier(self.first_offer_due(), self.first_status_due())
    }

    fn first_offer_due(&self) -> Option<u64>
        ensures { result ≡ earliest (offer_times self.now) }
    {
        if self.suppressed {
            return None;
        }
        stock::first_due(self.stock.as_slice())
    }

    fn first_status_due(&self) -> Option<u64>
        ensures { result ≡ earliest (times_of self.now.tasks) }
    {
        task_list::first_due(self.tasks.as_slice())
    }
}
