//! Theorems about the requests and responses of a connection, stated as the contract of an empty
//! function.

ghost use Rattle.std.specs.Prelude.{◌≡◌, List, ◌++◌};
ghost use Rattle.mesosev_live.specs.Runs.{Bytes, Step, Runs, no_bytes, requests_of, came, served, responded, written};
ghost use Rattle.mesosev_live.specs.Serving.{Serves, ServesEach};
ghost use Rattle.mesosev_live.specs.declared.connection.Connection.{Connection as ConnectionValue};
ghost use Rattle.mesosev_live.specs.declared.connection.Served.{Served as ServedValue};

use crate::desk::Desk;

/// Proves what holds of a connection after any number of steps: bytes that come, requests that are
/// served, bytes that are written. Each method of a connection ensures which step it makes; for
/// requests that are served, [`turn_laws`] shows it.
///
/// - The bytes that came are the requests that were served, one after the other, and then the
///   bytes that are not taken.
/// - The bytes that were written, and then those to write, are the responses to these requests, in
///   the same order. A stream that ended ends them.
pub fn connection_laws()
    // Each byte that came is of one request, or is left.
    ensures taken { (steps : List Step) (last : Bytes) → Runs no_bytes steps last
        → came steps ≡ requests_of (served steps) ++ last.left }
    // Each byte of a response is written, or is pending.
    ensures responded { (steps : List Step) (last : Bytes) → Runs no_bytes steps last
        → responded steps ≡ written steps ++ last.pending }
{}

/// Proves that the turns in which a connection serves requests, each answered by the test master, are
/// one step: the requests were taken and their responses appended, in the same order.
pub fn turn_laws<D: Desk>()
    ensures { (old : ConnectionValue) (desk : D) (all : List ServedValue) (new : ConnectionValue)
        (after : D) → Serves D.answers D.shows D.takes old desk all new after → ServesEach old new all }
{}
