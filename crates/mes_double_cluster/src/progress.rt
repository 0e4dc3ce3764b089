//! How far a task is: the updates that were reported, and the next one.
ghost use Rattle.std.specs.Prelude.{◌≡◌, Some};
ghost use Rattle.mes_double_cluster.specs.TaskProgress.{staging, at_once, last_state, next_state, next_time, due, reported, acknowledged, killed, is_last, is_over};

use mes_model::TaskState;

/// How far a task is. A task is reported as STARTING, RUNNING and one last state, each after the
/// acknowledgement of the one before.
#[derive(Clone, Copy, Debug, PartialEq, Eq)]
pub struct Progress {
    /// The state that was reported last; `Staging` before the first update.
    pub state: TaskState,
    /// The number of the update that waits for its acknowledgement.
    pub waiting: Option<u64>,
    /// True if a KILL of the task was carried out.
    pub killed: bool,
    /// The time at which the task finishes by itself, in milliseconds.
    pub finishes: Option<u64>,
}

/// The next state of a task.
#[derive(Clone, Copy, Debug, PartialEq, Eq)]
pub struct NextState {
    /// The state.
    pub state: TaskState,
    /// The first time at which the state is reported, in milliseconds.
    pub from: u64,
}

impl Progress {
    /// Returns the progress of a task that was just launched.
    pub fn new() -> Progress
        ensures { result ≡ staging }
    {
        Progress {
            state: TaskState::Staging,
            waiting: None,
            killed: false,
            finishes: None,
        }
    }

    /// Returns the state that is reported next, or `None` while an update waits for its
    /// acknowledgement, after the last state, and if the task runs without an end.
    pub fn next(self) -> Option<NextState>
        ensures { result ≡ next_state self }
    {
        if self.waiting.is_some() {
            return None;
        }
        match self.state {
            TaskState::Staging => Some(at_once(TaskState::Starting)),
            TaskState::Starting => Some(at_once(TaskState::Running)),
            TaskState::Running => self.last(),
            _ => None,
        }
    }

    /// Returns the first time at which the next state is reported, in milliseconds.
    pub fn next_time(self) -> Option<u64>
        ensures { result ≡ next_time self }
    {
        let next = self.next()?;
        Some(next.from)
    }

    /// Returns the last state of a task that runs, if it is known.
    fn last(self) -> Option<NextState>
        ensures { result ≡ last_state self.killed self.finishes }
    {
        if self.killed {
            return Some(at_once(TaskState::Killed));
        }
        match self.finishes {
            Some(from) => Some(NextState {
                state: TaskState::Finished,
                from,
            }),
            None => None,
        }
    }

    /// Returns the state that is reported at the time `now`, if one is due.
    pub fn due(self, now: u64) -> Option<TaskState>
        ensures { result ≡ due now self }
    {
        match self.next() {
            Some(next) if next.from <= now => Some(next.state),
            _ => None,
        }
    }

    /// Returns the progress after the state was reported in the update with the number `update`.
    /// A task that runs from now on finishes at the time `finishes`.
    pub fn reported(self, state: TaskState, update: u64, finishes: Option<u64>) -> Progress
        ensures { result ≡ reported state update finishes self }
    {
        Progress {
            state,
            waiting: Some(update),
            killed: self.killed,
            finishes: match state {
                TaskState::Running => finishes,
                _ => self.finishes,
            },
        }
    }

    /// Returns the progress after the acknowledgement of the update that waits for it.
    pub fn acknowledged(self) -> Progress
        ensures { result ≡ acknowledged self }
    {
        Progress {
            state: self.state,
            waiting: None,
            killed: self.killed,
            finishes: self.finishes,
        }
    }

    /// Returns the progress after a KILL: the task is reported as KILLED once it runs.
    pub fn killed(self) -> Progress
        ensures { result ≡ killed self }
    {
        Progress {
            state: self.state,
            waiting: self.waiting,
            killed: true,
            finishes: self.finishes,
        }
    }

    /// Returns whether the last state was reported.
    pub fn has_ended(self) -> bool
        ensures { result ≡ is_last self.state }
    {
        is_last(self.state)
    }

    /// Returns whether the last state was reported and acknowledged.
    pub fn is_over(self) -> bool
        ensures { result ≡ is_over self }
    {
        self.has_ended() && self.waiting.is_none()
    }
}

fn at_once(state: TaskState) -> NextState
    ensures { Some result ≡ at_once state }
{
    NextState { state, from: 0 }
}

/// Returns whether a task in the state has ended (mesos.proto, `TaskState`: the terminal states).
pub fn is_last(state: TaskState) -> bool
    ensures { result ≡ is_last state }
{
    match state {
        TaskState::Finished
        | TaskState::Failed
        | TaskState::Killed
        | TaskState::Error
        | TaskState::Lost
        | TaskState::Dropped
        | TaskState::Gone
        | TaskState::GoneByOperator => true,
        TaskState::Staging
        | TaskState::Starting
        | TaskState::Running
        | TaskState::Killing
        | TaskState::Unreachable
        | TaskState::Unknown => false,
    }
}
