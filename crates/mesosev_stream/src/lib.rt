#![tactic(auto)]
//! The subcommands `check`, `show` and `convert` of `mesosev`, over any devices.
//!
//! [`follow`] prints the messages of a stream, events or calls (`show`), or counts them (`check`).
//! [`export`] writes them as JSON Lines (`show --json`). [`convert`] decodes a whole stream and
//! encodes its messages again. The contracts state the bytes read, the bytes printed and the
//! outcome, also if an output fails or no memory is left.
//!
//!     let framing = Framing::Chunked;
//!     let outcome = follow::<Event, _, _>(alloc, Detail::Lines, framing, limit, MAX_READS, input, out);
//!     let status = finish(outcome, out.is_closed(), err);
//!
//! The crates `mesosev_log`, `mesosev_serve` and `mesosev_net` have the other subcommands, and use
//! the printing functions and [`RunOutcome`]. Tests are in the crate `mesosev_stream_tests`.

mod call_line;
mod chunk_size;
mod conversion;
mod exit_status;
mod exporter;
mod follower;
mod gatherer;
mod json_lines;
mod limits;
mod line_buffer;
mod line_number;
mod message;
mod outcome;
mod output;
mod print;
mod theorems;

pub use chunk_size::ChunkSize;
pub use conversion::{OutputFormat, convert};
pub use exit_status::ExitStatus;
pub use exporter::export;
pub use follower::{Detail, follow};
pub use limits::{MAX_LINE_BUFFER, MAX_READS};
pub use message::ShownMessage;
pub use outcome::{RunOutcome, finish};
pub use output::Output;
pub use print::{
    out_of_memory, print_bytes, print_fault, print_line, print_send_fault, print_text,
};
pub use theorems::run_limits;
