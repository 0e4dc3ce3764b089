//! Groups of launched tasks.
ghost use Rattle.std.specs.Prelude.{◌≡◌, List};
ghost use Rattle.mes_model.specs.TaskInfo.{TaskInfo as TaskValue};
ghost use Rattle.mes_session_fit.specs.Launched.{launched_by};

use mes_model::TaskInfo;
use mes_msg::Operation;

/// Tasks that are launched together: an operation, or a slice of tasks.
pub trait TaskGroup {
    /// The tasks of the group, in order.
    ghost tasks: { Self → List TaskValue };

    /// Borrows the tasks of the group.
    fn tasks(&self) -> &[TaskInfo]
        ensures { result.now ≡ tasks self.now };
}

impl TaskGroup for Operation {
    ghost tasks = { launched_by };

    fn tasks(&self) -> &[TaskInfo] {
        let Operation::Launch { task_infos } = self;
        task_infos.as_slice()
    }
}

impl<'a> TaskGroup for &'a [TaskInfo] {
    ghost tasks = { λ tasks. tasks.now };

    fn tasks(&self) -> &[TaskInfo] {
        *self
    }
}
