//! A port that one peer reaches, and which keeps what that peer is sent.
use byte_io::{SliceSource, VecSink};
use host::Ports;
use std::io::{self, ErrorKind};
use tcp_close::{Connection, Listener, SocketError};

/// A port that one peer reaches: what the peer sends, and where what it is sent is kept, until that
/// is lent to a connection.
#[derive(Drop)]
pub struct PeerPort<'a> {
    request: &'a [u8],
    reply: Option<&'a mut VecSink>,
}

impl<'a> PeerPort<'a> {
    /// A port whose peer sends these bytes, and which keeps in the sink what the peer is sent.
    pub fn new(request: &'a [u8], reply: &'a mut VecSink) -> PeerPort<'a> {
        PeerPort {
            request,
            reply: Some(reply),
        }
    }
}

impl<'a> Ports for PeerPort<'a> {
    type Bound = PeerPort<'a>;

    ghost binds = { λ _ _ _ _. Unit {0} };

    ghost refuses = { λ _ _ _. Unit {0} };

    fn bind(&mut self, _port: u16) -> Result<PeerPort<'a>, SocketError> {
        Ok(PeerPort {
            request: self.request,
            reply: self.reply.take(),
        })
    }
}

impl<'a> Listener for PeerPort<'a> {
    type Reader = SliceSource<'a>;

    type Writer = &'a mut VecSink;

    ghost accepts = { λ _ _ _. Unit {0} };

    ghost ends = { λ _ _ _. Unit {0} };

    fn accept(&mut self) -> io::Result<Connection<SliceSource<'a>, &'a mut VecSink>> {
        match self.reply.take() {
            Some(reply) => Ok(Connection {
                reader: SliceSource::new(self.request),
                writer: reply,
            }),
            None => Err(io::Error::from(ErrorKind::Other)),
        }
    }

    fn end(&mut self, _connection: Connection<SliceSource<'a>, &'a mut VecSink>)
        ensures { Unit {0} }
    {}
}
