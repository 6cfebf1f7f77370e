//! One port whose peers are known.
use host::Ports;
use std::alloc::Global;
use tcp_close::{Peer, SliceListener, SocketError};

/// One port of this number, which these peers reach, one after another.
#[derive(Drop)]
pub struct PortGiven<'a> {
    pub alloc: Global,
    pub port: u16,
    pub peers: &'a [Peer<'a>],
}

impl<'a> Ports for PortGiven<'a> {
    ghost use Rattle.std.specs.Prelude.{◌≡◌, ◌≢◌, []};

    type Bound = SliceListener<'a>;

    ghost binds = { λ old port listener new. (port ≡ old.port)
        × (listener.waiting ≡ old.peers.now) × (listener.ended ≡ []) × (new ≡ old) };

    ghost refuses = { λ old port new. (port ≢ old.port) × (new ≡ old) };

    fn bind(&mut self, port: u16) -> Result<SliceListener<'a>, SocketError> {
        if port == self.port {
            Ok(SliceListener::new(self.alloc, self.peers))
        } else {
            Err(SocketError)
        }
    }
}
