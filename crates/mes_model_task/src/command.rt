//! Commands of tasks.

use mes_model_schema::back::message_reads_back;
use mes_model_schema::json::{self, Element, NoMemory, Text};
use mes_model_schema::{
    ConstructFrom, List, OptionalRow, Part, PartFault, PathBuilder, RepeatedRow, RowList,
    RowRefList, Rows3, made, message_text, message_tree, pairs, read_message,
};
use std::alloc::Global;

/// The command of a task (`CommandInfo` in mesos.proto).
#[derive(Debug, Drop)]
pub struct Command {
    /// The shell command, or the program if no shell is used.
    pub value: Option<Text>,
    /// Whether a shell runs the command.
    pub shell: Option<bool>,
    /// The arguments if no shell is used, beginning with the name of the program.
    pub arguments: List<Text>,
}

const COMMAND_NAMES: [&str; 3] = ["value", "shell", "arguments"];

type CommandRows = Rows3<OptionalRow<Text>, OptionalRow<bool>, RepeatedRow<Text>>;

impl ConstructFrom<<CommandRows as RowList>::Values> for Command {
    ghost use Rattle.mes_model_task.specs.Tasks.{command_layout};

    ghost to = { command_layout.to };

    fn made_of(values: <CommandRows as RowList>::Values) -> Command {
        made!(values => Command { value, shell, arguments })
    }
}

/// Expands to the borrowed values of the members, in the order of the table.
macro_rules! command_rows {
    ($of:ident) => {
        pairs!(
            &$of.value,
            &$of.shell,
            &$of.arguments,
        )
    };
}

impl Part for Command {
    ghost use Rattle.mes_model_task.specs.Tasks.{command, lawful_command};

    ghost kind = { command };

    ghost STEPS = { 2 };

    const STEPS: u32 = 2;

    ghost lawful = { lawful_command };

    #[tactic(auto, unfolding(crate::specs::Tasks::command))]
    fn read_from(
        alloc: Global,
        element: &Element<'_>,
        path: &PathBuilder<'_>,
    ) -> Result<Command, PartFault> {
        read_message::<CommandRows, Command, 3>(alloc, element, &COMMAND_NAMES, path)
    }

    #[tactic(auto, using(crate::specs::Tasks::command_back), unfolding(crate::specs::Tasks::command))]
    fn tree(&self, alloc: Global) -> Result<json::Json, NoMemory> {
        message_tree(alloc, &COMMAND_NAMES, &command_rows!(self))
    }

    #[tactic(auto, using(crate::specs::Tasks::command_back), unfolding(crate::specs::Tasks::command))]
    fn write_json(&self, alloc: Global, out: &mut Vec<u8>) -> Result<u64, NoMemory> {
        message_text(alloc, &COMMAND_NAMES, &command_rows!(self), out)
    }

    fn copy(&self, alloc: Global) -> Result<Command, NoMemory> {
        let values = command_rows!(self).copy_rows(alloc)?;
        Ok(Command::made_of(values))
    }

    #[tactic(auto, using(crate::specs::Tasks::command_back))]
    fn reads_back(&self) {
        message_reads_back(&COMMAND_NAMES, &command_rows!(self));
    }
}
