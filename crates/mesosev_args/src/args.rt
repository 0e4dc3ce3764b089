//! Parsed arguments, their defaults and ranges, and the error for invalid ones.
ghost use Rattle.mesosev_args.specs.NamedOptions.{IsFaultOf};

use clap::error::ErrorKind;
use mes_double_faults::FaultPlan;
use mes_double_http::Host;
use mes_frame::{Limit, default_record_limit};
use mes_json::Text;
use mes_stream::Framing;
use mesosev_stream::{ChunkSize, OutputFormat};
use thiserror::Error;
use uuid::Uuid;

/// The version that `--version` prints after the program's name.
pub const VERSION: &str = "0.1.0";

/// The default of `--limit`, in bytes: `DEFAULT_RECORD_LIMIT`.
pub const DEFAULT_LIMIT: &str = default_record_limit!(concat);

/// The least port that `serve` accepts.
pub const MIN_PORT: u32 = 1;

/// The greatest port that `serve` accepts.
pub const MAX_PORT: u32 = 65_535;

/// The least port that `master` accepts: 0 picks a free port.
pub const MIN_MASTER_PORT: u32 = 0;

/// The greatest number of seconds that `master` accepts.
pub const MAX_SECONDS: u32 = 1_000_000_000;

/// The least value of `--heartbeat`, in seconds.
pub const MIN_HEARTBEAT: u32 = 1;

/// The default of `--heartbeat`, in seconds.
pub const DEFAULT_HEARTBEAT: &str = "15";

/// The least value of `--resend`, in seconds: 0 for never.
pub const MIN_RESEND: u32 = 0;

/// The default of `--resend`, in seconds.
pub const DEFAULT_RESEND: &str = "10";

/// The least value of `--finish-after`, in seconds.
pub const MIN_FINISH_AFTER: u32 = 0;

/// The least value of `--seconds`.
pub const MIN_SECONDS: u32 = 1;

/// The default of `--most` in `master`, in bytes: each event is in one chunk.
pub const DEFAULT_MASTER_CHUNK: &str = "16777216";

/// The least value of `--faults`: faults in 1,000 events and calls.
pub const MIN_RATE: u32 = 1;

/// The greatest value of `--faults`.
pub const MAX_RATE: u32 = 1_000;

/// The least value of `--seed`.
pub const MIN_SEED: u32 = 0;

/// The greatest value of `--seed`: 2^32 - 1.
pub const MAX_SEED: u32 = 4_294_967_295;

/// The default of `--seed`.
pub const DEFAULT_SEED: &str = "0";

/// The least number of connections that `serve` accepts for `--count`.
pub const MIN_CONNECTIONS: u32 = 1;

/// The greatest number of connections that `serve` accepts for `--count`.
pub const MAX_CONNECTIONS: u32 = 1_000;

/// The default of `--stream`: the id of the first stream that `serve` opens.
pub const DEFAULT_STREAM: &str = "00000000-0000-4000-8000-000000000001";

/// The least value of `--reads`.
pub const MIN_SUBSCRIBE_READS: u32 = 0;

/// The greatest value of `--reads`: 2^32 - 1.
pub const MAX_SUBSCRIBE_READS: u32 = 4_294_967_295;

/// The default of `--reads`.
pub const DEFAULT_SUBSCRIBE_READS: &str = "1000000";

/// The default of `--most` in `loopback`, in bytes.
pub const DEFAULT_LOOPBACK_CHUNK: &str = "4096";

/// A subcommand with the values of its command-line options.
#[derive(Drop)]
pub enum Options {
    /// `check [--chunked] [--lines] [--calls] [--limit N]`: checks that each record is an event.
    Check {
        /// The framing of the input.
        framing: Framing,
        /// The largest record, in bytes.
        limit: Limit,
        /// Whether the records are calls, not events.
        calls: bool,
    },
    /// `show [--chunked] [--lines] [--calls] [--limit N] [--json]`: prints each event as soon as
    /// it is decoded.
    Show {
        /// The framing of the input.
        framing: Framing,
        /// The largest record, in bytes.
        limit: Limit,
        /// Whether the events are printed as JSON Lines.
        json: bool,
        /// Whether the records are calls, not events.
        calls: bool,
    },
    /// `convert [--chunked] [--lines] [--calls] [--limit N] [--most M] [--json]`: re-encodes the
    /// events, as plain RecordIO, as a chunked body or as JSON Lines.
    Convert {
        /// The framing of the input.
        framing: Framing,
        /// The largest record that is read or written, in bytes.
        limit: Limit,
        /// The form in which the events are written.
        format: OutputFormat,
        /// Whether the records are calls, not events.
        calls: bool,
    },
    /// `replay [--limit N] [--json]`: replays a session log, and prints the outcome.
    Replay {
        /// The largest record, in bytes.
        limit: Limit,
        /// Whether the session is printed as a JSON object.
        json: bool,
    },
    /// `relog [--limit N]`: rewrites a session log in the newest version.
    Relog {
        /// The largest record that is read or written, in bytes.
        limit: Limit,
    },
    /// `serve --port P --count C [--stream UUID]`: runs a test master for `count` connections.
    Serve {
        /// The TCP port on which the master listens.
        port: u16,
        /// The number of connections that the master accepts.
        count: u16,
        /// The id of the master's first stream.
        stream: Uuid,
    },
    /// `master --port P [--heartbeat S] [--resend S] [--finish-after S] [--seconds S] [--most M]
    /// [--fault F].. [--faults R] [--seed N] [--once]`: runs a live test master. Times are in
    /// seconds.
    Master {
        /// The TCP port on which the master listens; 0 for a free one.
        port: u16,
        /// The time between two HEARTBEATs.
        heartbeat: u32,
        /// The time after which an unacknowledged update is sent again; 0 for never.
        resend: u32,
        /// The time for which a task runs; `None` for ever.
        finish_after: Option<u32>,
        /// The time for which the master runs; `None` for ever.
        seconds: Option<u32>,
        /// The largest chunk, in bytes.
        most: ChunkSize,
        /// Whether the master ends after a TEARDOWN.
        once: bool,
        /// The faults of the run: those of `--fault` in their order, and those at random, if
        /// `--faults` is given.
        plan: FaultPlan,
    },
    /// `subscribe --to ADDR --user U --name N [--reads R] [--json]`: subscribes to a master, and
    /// prints its events.
    Subscribe {
        /// The address of the master.
        to: Host,
        /// The user of the framework.
        user: Text,
        /// The name of the framework.
        name: Text,
        /// The maximum number of reads of the response body.
        reads: u32,
        /// Whether the events are printed as JSON Lines.
        json: bool,
    },
    /// `loopback [--most M]`: runs a test master and a scheduler over a socket, in one process.
    Loopback {
        /// The size of each chunk, in bytes.
        most: ChunkSize,
    },
}

/// The reason for which arguments are rejected.
#[derive(Debug, Drop, Error)]
pub enum WordsFault {
    /// A usage error, or a request for help. The text is for the user.
    #[error("{0}")]
    Clap(clap::Error),
    /// The value of the command-line option with this name is out of its range.
    #[error("bad value --{0}")]
    BadValue(&'static str),
    /// The command-line options with these names exclude each other, and both are given.
    #[error("error: the argument '--{option}' cannot be used with '--{other}'")]
    Conflict {
        /// The option that the text names first.
        option: &'static str,
        /// The option that excludes it.
        other: &'static str,
    },
    /// An allocation failed.
    #[error("out of memory")]
    NoMemory,
}

impl From<clap::Error> for WordsFault {
    ghost from_gives = { λ error fault. IsFaultOf error fault };

    fn from(error: clap::Error) -> WordsFault {
        if error.kind() == ErrorKind::OutOfMemory {
            WordsFault::NoMemory
        } else {
            WordsFault::Clap(error)
        }
    }
}
