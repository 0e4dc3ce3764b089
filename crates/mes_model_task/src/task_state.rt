//! The states of tasks.

ghost use Rattle.std.specs.Prelude.{◌≡◌, IfSome, IfNone};
ghost use Rattle.mes_model_task.specs.TaskStates.{state_name};

use mes_model_schema::json::{self, Element, NoMemory, Text};
use mes_model_schema::{FieldFaultKind, Part, PartFault, PathBuilder, refusal_at, text_in};
use std::alloc::Global;

/// The state of a task (`TaskState` in mesos.proto).
#[derive(Clone, Copy, Debug, PartialEq, Eq)]
pub enum TaskState {
    /// The first state: no executor has accepted the task yet.
    Staging,
    /// The executor is preparing the task.
    Starting,
    /// The task is running.
    Running,
    /// The task is being killed.
    Killing,
    /// The task finished successfully.
    Finished,
    /// The task failed.
    Failed,
    /// The task was killed.
    Killed,
    /// The description of the task is invalid.
    Error,
    /// The task was lost; older masters send this for `Dropped`, `Unreachable` and `Gone`.
    Lost,
    /// The task failed to launch for a transient reason.
    Dropped,
    /// The agent of the task lost contact with the master.
    Unreachable,
    /// The task no longer runs, because its agent was stopped with all its tasks.
    Gone,
    /// The agent of the task cannot be reached, and an operator declared it gone.
    GoneByOperator,
    /// The master does not know the task.
    Unknown,
}

impl TaskState {
    /// Returns the name of the state in JSON, such as `TASK_RUNNING`.
    pub fn name(self) -> &'static str
        ensures { result.now ≡ state_name self }
    {
        match self {
            TaskState::Staging => "TASK_STAGING",
            TaskState::Starting => "TASK_STARTING",
            TaskState::Running => "TASK_RUNNING",
            TaskState::Killing => "TASK_KILLING",
            TaskState::Finished => "TASK_FINISHED",
            TaskState::Failed => "TASK_FAILED",
            TaskState::Killed => "TASK_KILLED",
            TaskState::Error => "TASK_ERROR",
            TaskState::Lost => "TASK_LOST",
            TaskState::Dropped => "TASK_DROPPED",
            TaskState::Unreachable => "TASK_UNREACHABLE",
            TaskState::Gone => "TASK_GONE",
            TaskState::GoneByOperator => "TASK_GONE_BY_OPERATOR",
            TaskState::Unknown => "TASK_UNKNOWN",
        }
    }

    /// Returns the state of this name, if there is one.
    pub fn of_name(name: &str) -> Option<TaskState>
        ensures some { IfSome result (λ state. state_name state ≡ name.now) }
        ensures none { IfNone result ((state : TaskState) → state_name state ≡ name.now → ⊥) }
    {
        match name {
            "TASK_STAGING" => Some(TaskState::Staging),
            "TASK_STARTING" => Some(TaskState::Starting),
            "TASK_RUNNING" => Some(TaskState::Running),
            "TASK_KILLING" => Some(TaskState::Killing),
            "TASK_FINISHED" => Some(TaskState::Finished),
            "TASK_FAILED" => Some(TaskState::Failed),
            "TASK_KILLED" => Some(TaskState::Killed),
            "TASK_ERROR" => Some(TaskState::Error),
            "TASK_LOST" => Some(TaskState::Lost),
            "TASK_DROPPED" => Some(TaskState::Dropped),
            "TASK_UNREACHABLE" => Some(TaskState::Unreachable),
            "TASK_GONE" => Some(TaskState::Gone),
            "TASK_GONE_BY_OPERATOR" => Some(TaskState::GoneByOperator),
            "TASK_UNKNOWN" => Some(TaskState::Unknown),
            _ => None,
        }
    }
}

impl Part for TaskState {
    ghost use Rattle.mes_model_task.specs.TaskStates.{states, lawful_states};

    ghost kind = { states };

    ghost STEPS = { 0 };

    const STEPS: u32 = 0;

    ghost lawful = { lawful_states };

    fn read_from(
        alloc: Global,
        element: &Element<'_>,
        path: &PathBuilder<'_>,
    ) -> Result<TaskState, PartFault> {
        let name = text_in(alloc, element, path)?;
        match TaskState::of_name(name) {
            Some(state) => Ok(state),
            None => Err(refusal_at(alloc, path, FieldFaultKind::UnknownName)),
        }
    }

    #[tactic(auto, unfolding(crate::specs::TaskStates::states))]
    fn tree(&self, alloc: Global) -> Result<json::Json, NoMemory> {
        Ok(json::Json::Text(Text::of(alloc, self.name())?))
    }

    #[tactic(auto, unfolding(crate::specs::TaskStates::states))]
    fn write_json(&self, _alloc: Global, out: &mut Vec<u8>) -> Result<u64, NoMemory> {
        json::write_str(self.name(), out)?;
        Ok(0)
    }

    fn copy(&self, _alloc: Global) -> Result<TaskState, NoMemory> {
        Ok(*self)
    }

    #[tactic(auto, unfolding(crate::specs::TaskStates::states))]
    fn reads_back(&self) {}
}
