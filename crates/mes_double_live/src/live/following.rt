//! What a live test master does after a call that the test master carried out.
ghost use Rattle.std.specs.Prelude.{◌≡◌, [], ◌∷◌, OnOk};
ghost use Rattle.mes_double_live.specs.Calling.{demanded_by};
ghost use Rattle.mes_double_live.specs.Opening.{ChangesBy};
ghost use Rattle.mes_double_live.specs.Steps.{BeginsWith, StepsTo, IsReplying};
ghost use Rattle.mes_double_live.specs.Steps.Step.{acknowledges, kills};

use super::Live;
use crate::fault::LiveFault;
use mes_double_cluster::{refusal_end, task_unknown};
use mes_double_master_state::updates::key_in;
use mes_model::{Id, TaskRef, TaskStatus};
use mes_model_schema::{Boxed, Part};
use mes_msg::{Acknowledge, Call, Event, Failure, Kill, Shutdown, Update};

impl Live {
    /// Changes the cluster as a call demands that the master carried out, and sends what follows.
    pub(super) fn follow(&mut self, call: &Call) -> Result<(), LiveFault>
        ensures same { self.new.master ≡ self.old.master }
        ensures begins { OnOk result (BeginsWith IsReplying (demanded_by call.now) self.old self.new) }
    {
        match call {
            Call::Decline { body, .. } => {
                let from = refusal_end(self.time, body.filters.as_ref());
                self.cluster.declined(body.offer_ids.as_slice(), from);
                Ok(())
            }
            Call::Revive { .. } => {
                self.cluster.revive();
                Ok(())
            }
            Call::Suppress { .. } => {
                self.cluster.suppress();
                Ok(())
            }
            Call::Teardown { .. } => {
                self.clear();
                Ok(())
            }
            Call::Acknowledge { body, .. } => self.acknowledge(body),
            Call::Kill { body, .. } => self.kill(body),
            Call::Reconcile { body, .. } => self.reconcile_unknown(body.tasks.as_slice()),
            Call::Shutdown { body, .. } => self.shut_down(body),
            Call::Message { body, .. } => {
                let echo = Event::Message(body.copy(self.alloc)?);
                self.push(&echo)
            }
            _ => Ok(()),
        }
    }

    fn acknowledge(&mut self, body: &Acknowledge) -> Result<(), LiveFault>
        ensures same { self.new.master ≡ self.old.master }
        ensures noted { OnOk result (ChangesBy (acknowledges body.now ∷ []) self.old self.new) }
    {
        let key = key_in(self.alloc, body)?;
        self.sent.acknowledge(&key);
        self.cluster.acknowledged(body);
        Ok(())
    }

    /// Kills a task of the cluster. A task that nobody knows, or that has ended, is reported as
    /// lost; one that only events from outside reported is left to them.
    fn kill(&mut self, body: &Kill) -> Result<(), LiveFault>
        ensures same { self.new.master ≡ self.old.master }
        ensures begins { OnOk result
            (BeginsWith IsReplying (kills body.now.task_id ∷ []) self.old self.new) }
    {
        let is_known = self.kill_task(&body.task_id);
        if is_known || self.is_reported_alive(&body.task_id) {
            return Ok(());
        }
        self.send_unknown(&body.task_id, body.agent_id.as_ref())
    }

    /// Kills a task of the cluster. Returns false if it is none.
    fn kill_task(&mut self, id: &Id) -> bool
        ensures same { self.new.master ≡ self.old.master }
        ensures killed { ChangesBy (kills id.now ∷ []) self.old self.new }
    {
        self.cluster.kill(id)
    }

    /// Returns whether the last status of the task is not that of an ended task.
    fn is_reported_alive(&self, task: &Id) -> bool {
        match self.master.last_status(task) {
            Some(status) => !mes_double_cluster::is_last(status.state),
            None => false,
        }
    }

    /// Sends an UPDATE of each of these tasks that has no status.
    fn reconcile_unknown(&mut self, tasks: &[TaskRef]) -> Result<(), LiveFault>
        ensures same { self.new.master ≡ self.old.master }
        ensures steps { OnOk result (StepsTo IsReplying self.old self.new) }
    {
        for task in tasks {
            self.reconcile_task(task)?;
        }
        Ok(())
    }

    /// Sends an UPDATE of this task if it has no status.
    fn reconcile_task(&mut self, task: &TaskRef) -> Result<(), LiveFault>
        ensures same { self.new.master ≡ self.old.master }
        ensures steps { OnOk result (StepsTo IsReplying self.old self.new) }
    {
        if self.master.last_status(&task.task_id).is_some() {
            return Ok(());
        }
        self.send_unknown(&task.task_id, task.agent_id.as_ref())
    }

    /// Reports a task that nobody knows as lost.
    fn send_unknown(&mut self, task: &Id, agent: Option<&Id>) -> Result<(), LiveFault>
        ensures same { self.new.master ≡ self.old.master }
        ensures steps { OnOk result (StepsTo IsReplying self.old self.new) }
    {
        let status = task_unknown(self.alloc, task, agent)?;
        self.send_status(&status)
    }

    /// Sends an UPDATE that the master does not record, since it launched no such task. It requires
    /// no acknowledgement, so it has no uuid.
    pub(super) fn send_status(&mut self, status: &TaskStatus) -> Result<(), LiveFault>
        ensures same { self.new.master ≡ self.old.master }
        ensures steps { OnOk result (StepsTo IsReplying self.old self.new) }
    {
        let mut status = status.copy(self.alloc)?;
        status.uuid = None;
        let status = Boxed::new(self.alloc, status)?;
        self.push(&Event::Update(Update { status }))
    }

    /// Sends the FAILURE of an executor that was shut down.
    fn shut_down(&mut self, body: &Shutdown) -> Result<(), LiveFault>
        ensures same { self.new.master ≡ self.old.master }
        ensures steps { OnOk result (StepsTo IsReplying self.old self.new) }
    {
        let failure = Failure {
            agent_id: Some(body.agent_id.copy(self.alloc)?),
            executor_id: Some(body.executor_id.copy(self.alloc)?),
            status: None,
        };
        self.push(&Event::Failure(failure))
    }
}
