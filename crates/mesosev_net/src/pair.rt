//! The two sockets of one connection.

ghost use Rattle.std.specs.Prelude.{IfErr};
ghost use Rattle.mesosev_net.specs.NetLines.{IsNetLine};

use crate::lines::{ACCEPT_FAILED, BIND_FAILED, CONNECT_FAILED};
use std::net::{Net, SocketAddr, TcpListener, TcpStream};

/// The two ends of a connection of this process to itself.
#[derive(Drop)]
pub(crate) struct Pair {
    /// The end that connected.
    pub client: TcpStream,
    /// The end that was accepted.
    pub server: TcpStream,
}

/// Connects this process to itself, on a free port of 127.0.0.1.
///
/// On an error, returns the line to print.
pub(crate) fn connected_pair<R>(rt: &R) -> Result<Pair, &'static str>
where
    R: Net<Listener = TcpListener, Stream = TcpStream>,
    ensures { IfErr result (λ line. IsNetLine line.now) }
{
    let Ok(listener) = TcpListener::bind(rt, SocketAddr::from(([127, 0, 0, 1], 0))) else {
        return Err(BIND_FAILED);
    };
    let Ok(address) = listener.local_addr() else {
        return Err(BIND_FAILED);
    };
    let Ok(client) = TcpStream::connect(rt, address) else {
        return Err(CONNECT_FAILED);
    };
    match listener.accept() {
        Ok((server, _peer)) => Ok(Pair { client, server }),
        Err(_) => Err(ACCEPT_FAILED),
    }
}
