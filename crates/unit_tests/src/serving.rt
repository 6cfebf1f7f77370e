//! Connections that are served.
use crate::office::{Office, moment};
use crate::peers::{connect, is_sent, listen, reply_to, send};
use std::alloc::{AllocError, Global};
use std::net::{TcpListener, TcpStream};
use std::test::Fail;
use wall_clock::SliceClock;

pub(crate) const MINE: &str = "GET /m/G1/mine HTTP/1.1\r\nDesk-Key: zzzzzzzzzzzzzzzz\r\n\r\n";

/// What is told to a party that has nothing of its own.
pub(crate) const NOTHING: &str = "HTTP/1.1 200 OK\r\nContent-Type: application/json\r\n\
                       Content-Length: 133\r\nConnection: close\r\n\r\n\
                       {\"authorised\":[],\"casts\":[],\"demands\":[],\"given\":[],\"meeting\":\"G1\",\
                       \"ok\":\"mine\",\"persons\":[],\"present\":false,\"received\":[],\"row\":null}";

const TOO_LARGE: &str = "HTTP/1.1 413 Payload Too Large\r\nContent-Type: application/json\r\n\
                         Content-Length: 31\r\nConnection: close\r\n\r\n\
                         {\"code\":4,\"refused\":\"TooLarge\"}";

// More than is read with a head, and less than the system takes in before a connection is served.
const BEHIND: usize = 20_000;

/// Serves all connections of a listener that were made, so many, at one moment each, and closes the
/// listener.
fn serve_all(alloc: Global, listener: TcpListener, count: u8) -> Result<(), Fail> {
    let moments = [moment("2026-06-02T09:00:00")?; 2];
    let mut clock = SliceClock::new(&moments[..usize::from(count).min(2)]);
    let mut sockets = listener;
    Ok(Office::new(alloc)?.serve_loop(&mut sockets, &mut clock, u32::from(count))?)
}

/// A request, and so many bytes behind it.
fn followed(alloc: Global, head: &str, count: usize) -> Result<Vec<u8>, AllocError> {
    let mut bytes = Vec::new(alloc);
    bytes.extend_from_slice(head.as_bytes())?;
    for _ in 0..count {
        bytes.push(b'x')?;
    }
    Ok(bytes)
}

#[test]
fn own_things_are_shown_over_a_socket(rt: HostRuntime) -> Result<(), Fail> {
    let listener = listen(&rt)?;
    let peer = send(&rt, &listener, MINE.as_bytes())?;
    serve_all(rt.alloc(), listener, 1)?;
    assert!(rt; is_sent(rt.alloc(), peer, NOTHING)?);
    Ok(())
}

// The peer that is gone counts, and the next is served.
#[test]
fn a_peer_that_closes_at_once_counts(rt: HostRuntime) -> Result<(), Fail> {
    let listener = listen(&rt)?;
    connect(&rt, &listener)?;
    let next = send(&rt, &listener, MINE.as_bytes())?;
    let after = connect(&rt, &listener)?;
    serve_all(rt.alloc(), listener, 2)?;
    assert!(rt; is_sent(rt.alloc(), next, NOTHING)?);
    assert!(rt;
        reply_to(rt.alloc(), after).is_err(),
        "one too many was served"
    );
    Ok(())
}

/// A vote that is too large.
const CAST: &str = "POST /m/G1/cast HTTP/1.1\r\nDesk-Key: zzzzzzzzzzzzzzzz\r\n\
                    Content-Length: 65537\r\n\r\n";

/// A peer that sends a request with bytes behind it.
fn send_more(rt: &HostRuntime, listener: &TcpListener, head: &str) -> Result<TcpStream, Fail> {
    let bytes = followed(rt.alloc(), head, BEHIND)?;
    Ok(send(rt, listener, &bytes)?)
}

// A reply arrives though bytes behind the request were not read.
#[test]
fn a_peer_that_sends_more_has_its_reply(rt: HostRuntime) -> Result<(), Fail> {
    let listener = listen(&rt)?;
    let first = send_more(&rt, &listener, MINE)?;
    let second = send_more(&rt, &listener, CAST)?;
    serve_all(rt.alloc(), listener, 2)?;
    assert!(rt; is_sent(rt.alloc(), first, NOTHING)?);
    assert!(rt; is_sent(rt.alloc(), second, TOO_LARGE)?);
    Ok(())
}
