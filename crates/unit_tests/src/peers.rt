//! Peers of a listener on this machine.
use std::alloc::Global;
use std::io::{self, Write};
use std::net::{Ipv4Addr, Net, TcpListener, TcpStream};

/// A listener on a port that is free.
pub(crate) fn listen(rt: &HostRuntime) -> io::Result<TcpListener> {
    TcpListener::bind(rt, (Ipv4Addr::LOCALHOST, 0))
}

/// A peer that connects and sends nothing.
pub(crate) fn connect(rt: &HostRuntime, listener: &TcpListener) -> io::Result<TcpStream> {
    TcpStream::connect(rt, listener.local_addr()?)
}

/// A peer that connects and sends a request.
pub(crate) fn send(
    rt: &HostRuntime,
    listener: &TcpListener,
    request: &[u8],
) -> io::Result<TcpStream> {
    let mut peer = connect(rt, listener)?;
    peer.write_all(request)?;
    Ok(peer)
}

/// All that comes to a peer until its connection ends. The error is that it ended by a reset.
pub(crate) fn reply_to(alloc: Global, peer: TcpStream) -> io::Result<String> {
    io::read_to_string(alloc, peer)
}

/// Whether all that comes to a peer is this reply.
pub(crate) fn is_sent(alloc: Global, peer: TcpStream, reply: &str) -> io::Result<bool> {
    Ok(reply_to(alloc, peer)?.as_str() == reply)
}
