//! How a live test master sends events, and logs them and the calls.
ghost use Rattle.std.specs.Prelude.{◌≡◌, OnOk};
ghost use Rattle.mes_double_live.specs.Lives.{Pushes};
ghost use Rattle.mes_double_live.specs.Logs.{call_answered, logged};

use super::Live;
use crate::fault::LiveFault;
use http::StatusCode;
use mes_json::NoMemory;
use mes_msg::{Call, Event};

impl Live {
    /// Sends an event on the current stream, and logs it. The event is lost, and not logged, if the
    /// stream is muted or broken.
    pub(super) fn push(&mut self, event: &Event) -> Result<(), LiveFault>
        ensures same { self.new.master ≡ self.old.master }
        ensures pushed { OnOk result (Pushes event.now self.old self.new) }
    {
        if !self.out.is_flowing() {
            return Ok(());
        }
        self.out.push(event, self.time)?;
        self.log.push_sent(self.alloc, event)?;
        Ok(())
    }

    /// Logs that a call was answered with this status.
    pub(super) fn log_call(&mut self, call: &Call, status: StatusCode) -> Result<(), NoMemory>
        ensures same { self.new.master ≡ self.old.master }
        ensures logged { OnOk result
            (self.new ≡ record self.old { log = logged (call_answered call.now status) self.old.log }) }
    {
        self.log.push_answered(self.alloc, call, status)
    }
}
