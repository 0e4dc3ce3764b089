#![tactic(auto)]
//! The resources of agents in the JSON form of the Apache Mesos v1 scheduler API, with identifiers,
//! values and reservations (mesos.proto).
//!
//! Each message type implements the trait `Part` of `mes_model_schema`. Its values are read from
//! JSON, written as canonical JSON that is read back to the same value, and copied. Reading any
//! other JSON value returns the path and the reason of the first fault.
//!
//! ```ignore
//! let resource = Resource::read(alloc, &json, &Path::new())?; // or: name Missing
//! resource.write_json(alloc, &mut out)?;
//! ```
//!
//! The module `first_fault` lists the faults of a resource in order. The crate `mes_model`
//! re-exports the types. Tests are in the crate `mes_model_tests`, definitions in `specs/`.

mod allocation;
pub mod first_fault;
mod id;
mod reservation;
mod resource;
mod value;

pub use allocation::Allocation;
pub use id::Id;
pub use reservation::Reservation;
pub use resource::{Resource, ResourceValue};
pub use value::{Range, Ranges, Scalar, Set};
