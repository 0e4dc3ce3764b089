#![tactic(auto)]
//! Reads and writes JSON texts (RFC 8259) exactly: numbers keep their text, objects their order and
//! repeated names.
//!
//! [`read_text`] reads a whole text, [`Lexer`] one that arrives in pieces. The result is a tree
//! ([`Json`]), a flat [`Tape`] that is read in place ([`Element`]), or the offset and reason of the
//! first error. [`write_text`] writes the canonical text of a tree. A failed allocation is an error
//! ([`NoMemory`]).
//!
//! ```ignore
//! let json = read_text(alloc, b"{ \"cpus\": 1.50 }")?;
//! let mut out = Vec::new(alloc);
//! write_text(&json, &mut out)?; // {"cpus":1.50}
//! ```
//!
//! Tests are in the crate `mes_json_tests`, definitions in `specs/`; `specs/Grammar.antt` is the
//! RFC's grammar.

mod byte_class;
mod canonical_length;
mod characters;
mod container_lengths;
mod copy;
mod cursor;
mod depth;
mod digits;
mod equality;
mod escape;
mod fault;
mod lexer;
mod limits;
mod literal;
mod member_fast_path;
mod memory;
mod nesting;
mod node_buffer;
mod number_fast_path;
mod number_text;
mod plain_scan;
mod push_error;
mod push_run;
mod reader;
mod reader_state;
mod reader_steps;
mod short_string;
mod skip;
mod tape;
mod text;
mod text_buffer;
mod theorems;
mod tree_builder;
mod unescaped;
mod utf8;
mod value;
mod value_kind;
mod whitespace;
mod whole_text;
mod write;
mod write_string;

pub use canonical_length::text_length;
pub use cursor::{Element, Items, Members};
pub use fault::{ReadFault, TextFault, TextFaultKind};
pub use lexer::Lexer;
pub use limits::{MAX_INLINE_TEXT, MAX_NESTING, MAX_REUSED_CAPACITY, MAX_TEXTS};
pub use memory::{NoMemory, NoMemoryAt};
pub use number_text::NumText;
pub use tape::Tape;
pub use text::Text;
pub use theorems::{
    canonical_text, inner_grows, json_limits, lexer_bound, lexer_releases, text_reading_is_unique,
};
pub use value::Json;
pub use value_kind::ValueKind;
pub use whole_text::{read_tape, read_text};
pub use write::write_text;
pub use write_string::{hex_digit, write_str};
