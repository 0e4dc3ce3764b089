//! The last events that were sent, and the last calls that were answered.
ghost use Rattle.std.specs.Prelude.{◌≡◌, ◌≤◌, [], length, OnOk};
ghost use Rattle.mes_double_live.specs.Logs.{call_answered, event_sent, logged};

use http::StatusCode;
use mes_double_master::{call_name, event_name};
use mes_json::{NoMemory, Text};
use mes_msg::{Call, Event};
use std::alloc::Global;
use std::marker::Model;

/// The greatest number of entries in the log of a [`Live`](crate::Live).
pub const MAX_LOG: usize = 64;

/// An entry in the log of a run.
#[derive(Debug, Drop)]
pub enum LogEntry {
    /// An event of this type was sent on the current stream.
    Sent(Text),
    /// A call was answered. A fault may have kept the response from the client.
    Answered {
        /// The name of the call's type.
        name: Text,
        /// The status of the response.
        status: StatusCode,
    },
}

/// The last `MAX_LOG` entries of a run, oldest first. In contracts the value is the list of them.
#[derive(Drop)]
pub(crate) struct RunLog {
    entries: Vec<LogEntry>,
}

impl Model for RunLog {
    ghost use Rattle.std.specs.Prelude.{List};
    ghost use Rattle.mes_double_live.specs.declared.run_log.LogEntry.{LogEntry as Entry};

    ghost Value = { List Entry };

    ghost use Rattle.std.specs.Prelude.{◌≤◌, length};
    ghost use Rattle.mes_double_live.specs.declared.run_log.TheConstants.{MAX_LOG};

    ghost view = { λ log. log.entries.items };

    ghost invariant = { λ log. length log.entries.items ≤ MAX_LOG };
}

impl RunLog {
    /// Returns an empty log. Does not allocate.
    pub fn new(alloc: Global) -> RunLog
        ensures { result ≡ [] }
    {
        RunLog {
            entries: Vec::new(alloc),
        }
    }

    /// Returns the entries, oldest first.
    pub fn as_slice(&self) -> &[LogEntry]
        ensures entries { result.now ≡ self.now }
        ensures bound { length self.now ≤ MAX_LOG }
    {
        self.entries.as_slice()
    }

    /// Appends that this event was sent.
    pub fn push_sent(&mut self, alloc: Global, event: &Event) -> Result<(), NoMemory>
        ensures { OnOk result (self.new ≡ logged (event_sent event.now) self.old) }
    {
        let name = Text::of(alloc, event_name(event))?;
        self.push(LogEntry::Sent(name))
    }

    /// Appends that this call was answered with this status.
    pub fn push_answered(
        &mut self,
        alloc: Global,
        call: &Call,
        status: StatusCode,
    ) -> Result<(), NoMemory>
        ensures { OnOk result (self.new ≡ logged (call_answered call.now status) self.old) }
    {
        let name = Text::of(alloc, call_name(call))?;
        self.push(LogEntry::Answered { name, status })
    }

    /// Appends an entry. The oldest entry is removed if there are `MAX_LOG` before.
    fn push(&mut self, entry: LogEntry) -> Result<(), NoMemory>
        ensures { OnOk result (self.new ≡ logged entry self.old) }
    {
        let excess = self.entries.len().saturating_sub(MAX_LOG - 1);
        self.entries.drain(..excess);
        self.entries.push(entry)?;
        Ok(())
    }
}
