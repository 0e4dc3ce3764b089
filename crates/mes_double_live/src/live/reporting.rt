//! How a live test master sends updates: first when they are due, and again while they are
//! unacknowledged.
ghost use Rattle.std.specs.Prelude.{◌≡◌, true, Some, is_some, IfOk, OnOk};
ghost use Rattle.mes_double_cluster.specs.Clusters.{status_at};
ghost use Rattle.mes_double_master.specs.Masters.{update_event};
ghost use Rattle.mes_double_live.specs.Lives.{update_sent};
ghost use Rattle.mes_double_live.specs.Moving.{Moves};
ghost use Rattle.mes_double_live.specs.Opening.{ChangesBy, Resends, resending, unacknowledged};
ghost use Rattle.mes_double_live.specs.Steps.{StepsBut, StepsTo, IsResending, IsSending, reporting};

use super::Live;
use crate::fault::LiveFault;
use mes_double_master::MasterRefusal;
use mes_json::NoMemory;
use mes_model::TaskStatus;
use mes_msg::Event;

impl Live {
    /// Sends the updates again whose time has come.
    pub(super) fn resend_due(&mut self) -> Result<(), LiveFault>
        ensures same { self.new.master ≡ self.old.master }
        ensures steps { OnOk result (StepsTo IsResending self.old self.new) }
    {
        let Some(every) = self.settings.resend else {
            return Ok(());
        };
        for index in 0..self.sent.len() {
            if let Some(due) = self.sent.due_from(index, every)
                && due <= self.time
            {
                self.resend(index)?;
            }
        }
        Ok(())
    }

    /// Sends all unacknowledged updates again, in order.
    pub(super) fn resend_all(&mut self) -> Result<(), LiveFault>
        requires { is_some self.old.master.stream ≡ true }
        ensures same { self.new.master ≡ self.old.master }
        ensures again { OnOk result (ChangesBy (resending self.old.time
            (unacknowledged self.old.master)) self.old self.new) }
    {
        for index in 0..usize::MAX {
            if !self.resend(index)? {
                return Ok(());
            }
        }
        // This many updates do not fit in memory.
        Err(LiveFault::NoMemory)
    }

    /// Sends the unacknowledged update at an index again. Returns false if there is none.
    fn resend(&mut self, index: usize) -> Result<bool, LiveFault>
        ensures same { self.new.master ≡ self.old.master }
        ensures steps { OnOk result (StepsTo IsResending self.old self.new) }
        ensures again { IfOk result (λ found. is_some self.old.master.stream ≡ true
            → Resends index found self.old self.new) }
    {
        match self.master.resend(index) {
            Ok(event) => {
                self.sent.sent_again(index, self.time);
                self.push(&event)?;
                Ok(true)
            }
            Err(MasterRefusal::NoMemory) => Err(LiveFault::NoMemory),
            Err(_) => Ok(false),
        }
    }

    /// Sends the next update of each task that has one due.
    pub(super) fn report_due(&mut self) -> Result<(), LiveFault>
        ensures moves { Moves self.old.master self.new.master }
        ensures steps { OnOk result (StepsTo IsSending self.old self.new) }
    {
        for index in 0..self.tasks_len() {
            self.report_at(index)?;
        }
        Ok(())
    }

    /// Sends the next update of the task at an index, if it is due.
    fn report_at(&mut self, index: usize) -> Result<(), LiveFault>
        ensures moves { Moves self.old.master self.new.master }
        ensures steps { OnOk result (StepsTo IsSending self.old self.new) }
    {
        match self.status_due(index)? {
            Some(status) => self.report(index, &status),
            None => Ok(()),
        }
    }

    fn tasks_len(&self) -> usize {
        self.cluster.tasks_len()
    }

    /// Returns the next status of the task at an index, if it is due.
    fn status_due(&self, index: usize) -> Result<Option<TaskStatus>, NoMemory>
        ensures { IfOk result (λ status. status
            ≡ status_at index self.now.time self.now.cluster) }
    {
        self.cluster.status_at(index, self.time)
    }

    /// Sends the update of the task at an index. If its uuid was used by an event from outside, the
    /// update gets the next one later.
    fn report(&mut self, index: usize, status: &TaskStatus) -> Result<(), LiveFault>
        requires { status_at index self.old.time self.old.cluster ≡ Some status.now }
        ensures moves { Moves self.old.master self.new.master }
        ensures steps { OnOk result (StepsTo IsSending self.old self.new) }
    {
        match self.master.update(status) {
            Ok(event) => self.send_first(index, status, &event),
            Err(MasterRefusal::NoMemory) => Err(LiveFault::NoMemory),
            Err(_) => {
                self.cluster.skip_update();
                Ok(())
            }
        }
    }

    /// Sends the update of the task at an index for the first time.
    fn send_first(
        &mut self,
        index: usize,
        status: &TaskStatus,
        event: &Event,
    ) -> Result<(), LiveFault>
        requires due { status_at index self.old.time self.old.cluster ≡ Some status.now }
        requires update { event.now ≡ update_event status.now }
        ensures same { self.new.master ≡ self.old.master }
        ensures sent { OnOk result (StepsBut (reporting index status.now self.old) self.old self.new) }
    {
        self.cluster.reported(index, status.state, self.time);
        self.note_sent(status)?;
        self.push(event)
    }

    /// Notes the time at which an update was sent for the first time, if it requires an
    /// acknowledgement.
    pub(super) fn note_sent(&mut self, status: &TaskStatus) -> Result<(), NoMemory>
        ensures same { self.new.master ≡ self.old.master }
        ensures noted { OnOk result (self.new ≡ update_sent status.now self.old) }
    {
        match status.owed_key(self.alloc)? {
            Some(key) => self.sent.push(key, self.time),
            None => Ok(()),
        }
    }
}
