#![tactic(auto)]
//! Tasks and their statuses in the JSON form of the Apache Mesos v1 scheduler API (mesos.proto).
//!
//! Each message type implements the trait `Part` of `mes_model_schema`. Its values are read from
//! JSON, written as canonical JSON that is read back to the same value, and copied. Reading any
//! other JSON value returns the path and the reason of the first fault. [`TaskStatus::owed_key`]
//! returns the key of the acknowledgement that an update requires.
//!
//! ```ignore
//! let status = TaskStatus::read(alloc, &json, &Path::new())?; // or: state UnknownName
//! let key = status.owed_key(alloc)?; // None if the update is not to be acknowledged
//! ```
//!
//! The module `first_fault` lists the faults of a status in order. The crate `mes_model` re-exports
//! the types. Tests are in the crate `mes_model_tests`, definitions in `specs/`.

mod command;
pub mod first_fault;
mod owed_key;
mod task_info;
mod task_ref;
mod task_state;
mod task_status;
mod time_info;

pub use command::Command;
pub use owed_key::{OwedKey, equal_keys};
pub use task_info::TaskInfo;
pub use task_ref::TaskRef;
pub use task_state::TaskState;
pub use task_status::TaskStatus;
pub use time_info::TimeInfo;
