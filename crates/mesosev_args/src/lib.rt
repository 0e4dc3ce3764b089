#![tactic(auto)]
//! Command line of `mesosev`: parses the arguments into a subcommand with its option values.
//!
//! [`options`] returns [`Options`] with each value in its range, or a [`WordsFault`]: clap's error
//! (usage error or request for help), the option whose value is bad, or out of memory.
//!
//! ```ignore
//! let args = ["mesosev", "check", "--chunked"];
//! let options = options(alloc, &args)?; // Options::Check { framing: Chunked, limit: 4 MiB }
//! ```
//!
//! `specs/CommandLine.antt` defines the command in clap's model, `specs/NamedOptions.antt` what the
//! arguments mean. The crate's mutants are in `wrong-bodies/`.

mod args;
mod check;
mod command;
mod convert;
mod faults;
mod loopback;
mod master;
mod parsing;
mod relog;
mod replay;
mod serve;
mod show;
mod subscribe;
mod values;

pub use args::{
    DEFAULT_HEARTBEAT, DEFAULT_LIMIT, DEFAULT_LOOPBACK_CHUNK, DEFAULT_MASTER_CHUNK, DEFAULT_RESEND,
    DEFAULT_SEED, DEFAULT_STREAM, DEFAULT_SUBSCRIBE_READS, MAX_CONNECTIONS, MAX_PORT, MAX_RATE,
    MAX_SECONDS, MAX_SEED, MAX_SUBSCRIBE_READS, MIN_CONNECTIONS, MIN_FINISH_AFTER, MIN_HEARTBEAT,
    MIN_MASTER_PORT, MIN_PORT, MIN_RATE, MIN_RESEND, MIN_SECONDS, MIN_SEED, MIN_SUBSCRIBE_READS,
    Options, VERSION, WordsFault,
};
pub use parsing::options;
