#![tactic(auto)]
//! The values inside the events and calls of the Apache Mesos v1 scheduler API, in their JSON form
//! (mesos.proto). This crate defines frameworks and the filters on offers.
//!
//! Re-exported are the resources of `mes_model_resource`, the offers of `mes_model_offer`, the
//! tasks of `mes_model_task`, and the trait `Part` of `mes_model_schema`, which each message type
//! implements. Reading returns a value, or the path and the reason of the first fault.
//!
//! ```ignore
//! let framework = FrameworkInfo::read(alloc, &json, &Path::new())?; // or: user Missing
//! framework.write_json(alloc, &mut out)?;
//! ```
//!
//! The events and calls themselves are in `mes_msg`. Tests are in the crate `mes_model_tests`.

mod filters;
mod framework_info;

pub use filters::Filters;
pub use framework_info::{Capability, FrameworkInfo};
pub use mes_model_offer::{Attribute, AttributeValue, Offer, TextValue};
pub use mes_model_resource::{
    Allocation, Id, Range, Ranges, Reservation, Resource, ResourceValue, Scalar, Set,
};
pub use mes_model_schema::{
    Boxed, BoxedFault, Bytes, FieldFault, FieldFaultKind, Kept, Label, Labels, List, MAX_PATH_NAME,
    MAX_PATH_STEPS, MAX_PATH_TEXT, Part, PartFault, Path, PathBuilder, Step, copy_list, list_tree,
    read_list,
};
pub use mes_model_task::{Command, OwedKey, TaskInfo, TaskRef, TaskState, TaskStatus, TimeInfo};
