//! The subcommand `subscribe`: a scheduler that subscribes to a master.
ghost use Rattle.mesosev_net.specs.Subscribed.{Subscribes};

use crate::framework::framework_info;
use crate::lines::CONNECT_FAILED;
use mes_double_http::Host;
use mes_frame::{FromStd, Sink};
use mes_json::Text;
use mesosev_serve::subscribe_over;
use mesosev_stream::{ExitStatus, RunOutcome, out_of_memory, print_text};
use std::alloc::AllocGlobal;
use std::net::{Net, TcpListener, TcpStream};

/// Connects to `to`, subscribes a framework with the given user and name, and prints the events of
/// the stream like `subscribe_over`. Reads the body in at most `reads` reads. If connecting fails,
/// prints a line; the status is `Fault`.
pub fn subscribe<R, O: Sink>(
    rt: &R,
    to: &Host,
    user: &Text,
    name: &Text,
    reads: u32,
    out: &mut O,
) -> RunOutcome
where
    R: AllocGlobal + Net<Listener = TcpListener, Stream = TcpStream>,
    // The text printed, and the outcome.
    ensures { Subscribes to.now user.now name.now reads (O.device out.old)
        (O.device out.new) result }
{
    let alloc = rt.alloc();
    let Ok(info) = framework_info(alloc, user.as_str(), name.as_str()) else {
        return out_of_memory(out);
    };
    let host = to.as_str();
    let Ok(stream) = TcpStream::connect(rt, host) else {
        return ExitStatus::Fault.after(print_text(out, CONNECT_FAILED));
    };
    let mut reader = FromStd::new(&stream);
    let mut writer = FromStd::new(&stream);
    subscribe_over(
        alloc,
        &info,
        host,
        &mut reader,
        &mut writer,
        u64::from(reads),
        out,
    )
}
