#![tactic(auto)]
//! Offers in the JSON form of the Apache Mesos v1 scheduler API, with the attributes of agents
//! (mesos.proto).
//!
//! Each message type implements the trait `Part` of `mes_model_schema`. Its values are read from
//! JSON, written as canonical JSON that is read back to the same value, and copied. Reading any
//! other JSON value returns the path and the reason of the first fault.
//!
//! ```ignore
//! let offer = Offer::read(alloc, &json, &Path::new())?; // or: resources[0].name Missing
//! offer.write_json(alloc, &mut out)?;
//! ```
//!
//! The module `first_fault` lists the faults of attributes and offers in order. The crate
//! `mes_model` re-exports the types; resources are in `mes_model_resource`. Tests are in the crate
//! `mes_model_tests`.

mod attribute;
pub mod first_fault;
mod offer;
mod text_value;

pub use attribute::{Attribute, AttributeValue};
pub use offer::Offer;
pub use text_value::TextValue;
