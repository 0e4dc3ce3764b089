#![tactic(auto)]
//! Reads JSON values as typed messages, and writes and copies them, by tables of members.
//!
//! A message is a JSON object. Each row of its table describes one member: the name, the type, and
//! whether the member is required. A type that implements [`Part`] is read from a JSON tree or a
//! token tape. Reading returns the value or the first fault, a path and a reason ([`FieldFault`]).
//!
//! Each tree has exactly one value or one first fault, and each written value is read back.
//! [`one_answer`], [`returned`] and the module [`first_fault`] state these laws.
//!
//! ```ignore
//! let json = read_text(alloc, b"{\"labels\":[{\"key\":\"rack\"}]}")?;
//! let labels = Labels::read(alloc, &json, &Path::new())?; // or: labels[0].key Missing
//! labels.write_json(alloc, &mut out)?; // appends {"labels":[{"key":"rack"}]}
//! ```
//!
//! The messages of Mesos are in `mes_model`, `mes_msg_call_body` and `mes_msg_event_body`. Tests
//! are in the crate `mes_model_tests`, definitions in `specs/`.

mod append;
pub mod back;
mod base64_blocks;
mod base64_letters;
mod base64_text;
mod boxed;
mod bytes;
mod choice;
mod field;
pub mod first_fault;
mod found_rows;
mod kept;
mod label;
mod limits;
mod list;
mod message;
mod numbers;
mod part;
mod path;
mod path_builder;
mod plain_values;
mod read_row;
mod refusal;
mod row;
mod row_list;
mod row_ref;
mod row_ref_list;
mod row_tuples;
mod text_and_bool;
mod theorems;
mod typed;
mod write_row;

pub use append::{
    append_name, close_object, deeper, list_text, write_case_text, write_flag_text,
    write_optional_text, write_repeated_text, write_row_text, write_type_text,
};
pub use boxed::{Boxed, BoxedFault};
pub use bytes::Bytes;
pub use choice::Choice;
pub use field::{FieldFault, FieldFaultKind};
pub use found_rows::{Found, find_rows, nothing_found};
pub use kept::Kept;
pub use label::{Label, Labels};
pub use limits::{MAX_PATH_NAME, MAX_PATH_STEPS, MAX_PATH_TEXT, MAX_ROWS};
pub use list::List;
pub use mes_fixed as fixed;
pub use mes_json as json;
pub use message::{
    ConstructFrom, message_text, message_tree, read_message, read_typed, typed_text, typed_tree,
};
pub use part::{Part, PartFault};
pub use path::{Path, Step};
pub use path_builder::PathBuilder;
pub use plain_values::text_in;
pub use read_row::{
    flagged, left_out, optional, read_either_list, read_items, repeated, required, type_of,
};
pub use refusal::{refusal_at, type_refusal};
pub use row::{Flag, OptionalRow, RepeatedRow, RequiredRow, Row};
pub use row_list::RowList;
pub use row_ref::{RequiredRowRef, RowRef};
pub use row_ref_list::RowRefList;
pub use row_tuples::{
    Rows1, Rows2, Rows3, Rows4, Rows5, Rows6, Rows7, Rows8, Rows9, Rows10, Rows11, Rows12, Rows13,
    Rows14, Rows15, Rows16,
};
pub use theorems::{
    either_list_reading_is_unique, either_list_returned, list_reading_is_unique, list_returned,
    most_steps, one_answer, part_limits, read_list, read_part, returned, value_returned,
    written_again,
};
pub use typed::{Typed, TypedRef};
pub use write_row::{
    copy_list, copy_some, list_tree, push_flag_tree, push_optional_tree, push_repeated_tree,
    push_type_tree, put, whole_object,
};
