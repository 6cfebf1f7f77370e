//! Peers of a listener in memory, some of which are gone.
use crate::memory::NO_KEY;
use crate::office::{Office, moment};
use crate::serving::{MINE, NOTHING};
use http_listener::LoopFault;
use std::alloc::Global;
use std::io::ErrorKind;
use std::test::Fail;
use tcp_close::{Peer, SliceListener};
use wall_clock::SliceClock;

/// Serves three connections, at one moment each.
fn serve(alloc: Global, listener: &mut SliceListener<'_>) -> Result<Result<(), LoopFault>, Fail> {
    let moments = [moment("2026-06-02T09:00:00")?; 3];
    let mut clock = SliceClock::new(&moments);
    Ok(Office::new(alloc)?.serve_loop(listener, &mut clock, 3))
}

/// Whether these are the replies on the connections that were ended, in order.
fn are_sent(listener: &SliceListener<'_>, replies: &[&str]) -> bool {
    let ended = listener.ended();
    ended.len() == replies.len()
        && ended
            .iter()
            .zip(replies)
            .all(|(sink, reply)| sink.as_slice() == reply.as_bytes())
}

// It counts, and the peer behind it has the reply to its own request.
#[test]
fn an_aborted_peer_ends_nothing(rt: HostRuntime) -> Result<(), Fail> {
    let peers = [
        Peer::Sends(MINE.as_bytes()),
        Peer::Fails(ErrorKind::ConnectionAborted),
        Peer::Sends(b"GET /m/G1/mine HTTP/1.1\r\n\r\n"),
    ];
    let mut listener = SliceListener::new(rt.alloc(), &peers);
    assert!(rt; serve(rt.alloc(), &mut listener)?.is_ok());
    assert!(rt; are_sent(&listener, &[NOTHING, NO_KEY]));
    Ok(())
}

// The connections before it were served and ended.
#[test]
fn a_listener_that_fails_ends_the_loop(rt: HostRuntime) -> Result<(), Fail> {
    let peers = [
        Peer::Sends(MINE.as_bytes()),
        Peer::Fails(ErrorKind::OutOfMemory),
        Peer::Sends(MINE.as_bytes()),
    ];
    let mut listener = SliceListener::new(rt.alloc(), &peers);
    assert!(rt; serve(rt.alloc(), &mut listener)? == Err(LoopFault::Socket));
    assert!(rt; are_sent(&listener, &[NOTHING]));
    Ok(())
}
