//! Read access to the state of a live test master.
ghost use Rattle.std.specs.Prelude.{◌≡◌, ◌≤◌, length};
ghost use Rattle.mes_double_live.specs.Lives.{faults};

use super::Live;
use crate::run_log::{LogEntry, MAX_LOG};
use mes_double_cluster::{Cluster, SentUpdates};
use mes_double_master::Master;

impl Live {
    /// Returns the test master. Neither this nor another function of this file allocates.
    pub fn master(&self) -> &Master
        ensures { result.now ≡ self.now.master }
    {
        &self.master
    }

    /// Returns the stock of offers and the tasks.
    pub fn cluster(&self) -> &Cluster
        ensures { result.now ≡ self.now.cluster }
    {
        &self.cluster
    }

    /// Returns the unacknowledged updates, with the times at which they were sent last.
    pub fn sent(&self) -> &SentUpdates
        ensures { result.now ≡ self.now.sent }
    {
        &self.sent
    }

    /// Returns the latest time that was passed, in milliseconds since the start of the run.
    pub fn time(&self) -> u64
        ensures { result ≡ self.now.time }
    {
        self.time
    }

    /// Returns the number of calls of the run. It stops at 2^32 - 1.
    pub fn calls(&self) -> u32
        ensures { result ≡ self.now.calls }
    {
        self.calls
    }

    /// Returns the number of events that were sent in the run, the test master's own HEARTBEATs not
    /// counted. It stops at 2^32 - 1.
    pub fn events(&self) -> u32
        ensures { result ≡ self.now.out.count }
    {
        self.out.count()
    }

    /// Returns the number of planned faults that happened in the run. It stops at 2^64 - 1.
    pub fn faults(&self) -> u64
        ensures { result ≡ faults self.now }
    {
        self.taken.saturating_add(self.out.happened_len() as u64)
    }

    /// Returns the last events that were sent and the last calls that were answered, at most
    /// `MAX_LOG` in all, oldest first. A call follows the events that it caused. The test master's own
    /// HEARTBEATs are not among the events.
    pub fn log(&self) -> &[LogEntry]
        ensures entries { result.now ≡ self.now.log }
        ensures bound { length self.now.log ≤ MAX_LOG }
    {
        self.log.as_slice()
    }

    /// Returns the number of events from outside that wait for a stream.
    pub fn waiting_len(&self) -> usize {
        self.waiting.len()
    }
}
