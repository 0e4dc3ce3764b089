#![tactic(auto)]
//! The bodies of the events of the Apache Mesos v1 scheduler API in JSON.
//!
//! - `subscribed`, `offers`, `rescind`, `update`, `failure`, `error_body`: one body each.
//! - `other_name`: the name of an event type whose body is not read.
//!
//! Each body is read from a token tape, copied, and written as a JSON tree or as text. The crate
//! `mes_msg_event` reads events; the body of MESSAGE is in `mes_msg_record`.
//!
//!     let body = Subscribed::read_from(alloc, &tape.root(), &PathBuilder::new())?;
//!
//! Programs use the crate `mes_msg`. The tests are in `mes_msg_tests`.

mod error_body;
mod failure;
mod offers;
mod other_name;
mod rescind;
mod subscribed;
mod update;

pub use error_body::ErrorBody;
pub use failure::Failure;
pub use offers::{Offers, offers_read_back, offers_text, offers_tree};
pub use other_name::OtherName;
pub use rescind::Rescind;
pub use subscribed::Subscribed;
pub use update::Update;
