//! A listener over memory.
ghost use Rattle.std.specs.Prelude.{◌≡◌, []};
ghost use Rattle.tcp_close.specs.Memory.{Connects};

use crate::connection::Connection;
use crate::listener::Listener;
use byte_io::{SliceSource, VecSink};
use std::alloc::Global;
use std::io::{self, ErrorKind};
use std::marker::Model;

/// One peer, or what comes of an `accept` in place of one.
#[derive(Clone, Copy)]
pub enum Peer<'a> {
    /// A peer that sends these bytes.
    Sends(&'a [u8]),
    /// There is no connection, for this cause.
    Fails(ErrorKind),
}

/// A listener whose peers are those of a slice, one after another, and which fails when there are
/// no more. It keeps what was sent to each peer whose connection was ended.
#[derive(Drop)]
pub struct SliceListener<'a> {
    alloc: Global,
    peers: &'a [Peer<'a>],
    next: usize,
    ended: Vec<VecSink>,
    lost: u64,
}

impl<'a> Model for SliceListener<'a> {
    ghost use Rattle.std.specs.Prelude.{◌≤◌, length, drop};
    ghost use Rattle.tcp_close.specs.Memory.{ListenerState};

    ghost Value = { ListenerState };

    ghost view = { λ l. record {
      waiting = drop l.next l.peers.now;
      ended = l.ended.items;
      lost = l.lost;
    } };

    ghost invariant = { λ l. l.next ≤ length l.peers.now };
}

impl<'a> SliceListener<'a> {
    /// A listener that these peers reach, from the first on.
    pub fn new(alloc: Global, peers: &'a [Peer<'a>]) -> SliceListener<'a>
        ensures waiting { result.waiting ≡ peers.entry.now }
        ensures ended { result.ended ≡ [] }
        ensures lost { result.lost ≡ 0 }
    {
        SliceListener {
            alloc,
            peers,
            next: 0,
            ended: Vec::new(alloc),
            lost: 0,
        }
    }

    /// What was sent to each peer whose connection was ended.
    pub fn ended(&self) -> &[VecSink]
        ensures { result.now ≡ self.now.ended }
    {
        self.ended.as_slice()
    }
}

/// The connection of a peer, or why there is none.
fn connect<'a>(alloc: Global, peer: &Peer<'a>) -> io::Result<Connection<SliceSource<'a>, VecSink>>
    ensures { Connects peer.now result }
{
    match *peer {
        Peer::Sends(bytes) => Ok(Connection {
            reader: SliceSource::new(bytes),
            writer: VecSink::new(alloc),
        }),
        Peer::Fails(kind) => Err(io::Error::from(kind)),
    }
}

impl<'a> Listener for SliceListener<'a> {
    ghost use Rattle.tcp_close.specs.Memory.{AcceptsNext, KeepsEnded};

    type Reader = SliceSource<'a>;

    type Writer = VecSink;

    ghost accepts = { AcceptsNext };

    ghost ends = { KeepsEnded };

    fn accept(&mut self) -> io::Result<Connection<SliceSource<'a>, VecSink>> {
        match self.peers.get(self.next) {
            Some(peer) => {
                self.next += 1;
                connect(self.alloc, peer)
            }
            None => Err(io::Error::from(ErrorKind::Other)),
        }
    }

    fn end(&mut self, connection: Connection<SliceSource<'a>, VecSink>)
        ensures { KeepsEnded self.old connection.entry self.new }
    {
        if self.ended.push(connection.writer).is_err() {
            self.lost = self.lost.saturating_add(1);
        }
    }
}
