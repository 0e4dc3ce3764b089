//! The subcommand `subscribe --json`: a scheduler that subscribes to a master, and writes the events
//! as JSON Lines.
ghost use Rattle.mesosev_net.specs.SubscribedJson.{SubscribesJson};

use crate::framework::framework_info;
use crate::lines::CONNECT_FAILED;
use mes_double_http::Host;
use mes_frame::{FromStd, Sink};
use mes_json::Text;
use mesosev_serve::export_over;
use mesosev_stream::{ExitStatus, RunOutcome, out_of_memory, print_text};
use std::alloc::AllocGlobal;
use std::net::{Net, TcpListener, TcpStream};

/// Like [`subscribe`](crate::subscribe), but writes the events to `out` as JSON Lines, and all other
/// lines to `err`. Errors in writing to `err` are ignored.
pub fn subscribe_json<R, O: Sink, E: Sink>(
    rt: &R,
    to: &Host,
    user: &Text,
    name: &Text,
    reads: u32,
    out: &mut O,
    err: &mut E,
) -> RunOutcome
where
    R: AllocGlobal + Net<Listener = TcpListener, Stream = TcpStream>,
    // The text written and printed, and the outcome.
    ensures { SubscribesJson to.now user.now name.now reads (O.device out.old)
        (O.device out.new)
        (E.device err.old) (E.device err.new) result }
{
    let alloc = rt.alloc();
    let Ok(info) = framework_info(alloc, user.as_str(), name.as_str()) else {
        let _ = out_of_memory(err);
        return RunOutcome::Status(ExitStatus::Fault);
    };
    let host = to.as_str();
    let Ok(stream) = TcpStream::connect(rt, host) else {
        let _ = print_text(err, CONNECT_FAILED);
        return RunOutcome::Status(ExitStatus::Fault);
    };
    let mut reader = FromStd::new(&stream);
    let mut writer = FromStd::new(&stream);
    export_over(
        alloc,
        &info,
        host,
        &mut reader,
        &mut writer,
        u64::from(reads),
        out,
        err,
    )
}
