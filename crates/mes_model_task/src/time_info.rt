//! Points in time.

use mes_model_schema::back::message_reads_back;
use mes_model_schema::json::{self, Element, NoMemory};
use mes_model_schema::{
    ConstructFrom, Part, PartFault, PathBuilder, RequiredRow, RequiredRowRef, RowList, RowRefList,
    Rows1, made, message_text, message_tree, pairs, read_message,
};
use std::alloc::Global;

/// A point in time (`TimeInfo` in mesos.proto).
#[derive(Debug, Drop)]
pub struct TimeInfo {
    /// Nanoseconds since 1970-01-01 UTC. The field is signed in mesos.proto, but reading a negative
    /// value returns a fault.
    pub nanoseconds: u64,
}

const TIME_INFO_NAMES: [&str; 1] = ["nanoseconds"];

type TimeInfoRows = Rows1<RequiredRow<u64>>;

impl ConstructFrom<<TimeInfoRows as RowList>::Values> for TimeInfo {
    ghost use Rattle.mes_model_task.specs.Times.{time_info_layout};

    ghost to = { time_info_layout.to };

    fn made_of(values: <TimeInfoRows as RowList>::Values) -> TimeInfo {
        made!(values => TimeInfo { nanoseconds })
    }
}

/// Expands to the borrowed values of the members, in the order of the table.
macro_rules! time_info_rows {
    ($of:ident) => {
        pairs!(RequiredRowRef(&$of.nanoseconds))
    };
}

impl Part for TimeInfo {
    ghost use Rattle.mes_model_task.specs.Times.{time_info, lawful_time_info};

    ghost kind = { time_info };

    ghost STEPS = { 1 };

    const STEPS: u32 = 1;

    ghost lawful = { lawful_time_info };

    #[tactic(auto, unfolding(crate::specs::Times::time_info))]
    fn read_from(
        alloc: Global,
        element: &Element<'_>,
        path: &PathBuilder<'_>,
    ) -> Result<TimeInfo, PartFault> {
        read_message::<TimeInfoRows, TimeInfo, 1>(alloc, element, &TIME_INFO_NAMES, path)
    }

    #[tactic(auto, using(crate::specs::Times::time_info_back), unfolding(crate::specs::Times::time_info))]
    fn tree(&self, alloc: Global) -> Result<json::Json, NoMemory> {
        message_tree(alloc, &TIME_INFO_NAMES, &time_info_rows!(self))
    }

    #[tactic(auto, using(crate::specs::Times::time_info_back), unfolding(crate::specs::Times::time_info))]
    fn write_json(&self, alloc: Global, out: &mut Vec<u8>) -> Result<u64, NoMemory> {
        message_text(alloc, &TIME_INFO_NAMES, &time_info_rows!(self), out)
    }

    fn copy(&self, alloc: Global) -> Result<TimeInfo, NoMemory> {
        let values = time_info_rows!(self).copy_rows(alloc)?;
        Ok(TimeInfo::made_of(values))
    }

    #[tactic(auto, using(crate::specs::Times::time_info_back))]
    fn reads_back(&self) {
        message_reads_back(&TIME_INFO_NAMES, &time_info_rows!(self));
    }
}
