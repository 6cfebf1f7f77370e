//! What connections are asked of.
ghost use Rattle.std.specs.Prelude.{Result};
ghost use Rattle.std.specs.declared.io.Error.{Error};
ghost use Rattle.tcp_close.specs.declared.connection.Connection as connection;

use crate::connection::Connection;
use byte_io::{Sink, Source};
use std::io;

/// What connections are asked of, one after another. Each is given back to it to be ended.
pub trait Listener {
    /// What a peer sends.
    type Reader: Source + Drop;

    /// What a peer is sent.
    type Writer: Sink + Drop;

    /// Holds of a listener, what it answers to `accept`, and the listener as it is then.
    ghost accepts: { Self → Result (connection.Connection Self.Reader Self.Writer) Error → Self
        → Type 0 };

    /// Holds of a listener, a connection that is ended, as it was until then, and the listener as
    /// it is then.
    ghost ends: { Self → connection.Connection Self.Reader Self.Writer → Self → Type 0 };

    /// The next connection, for which it waits as long as it takes.
    fn accept(&mut self) -> io::Result<Connection<Self::Reader, Self::Writer>>
        ensures { accepts self.old result self.new };

    /// Ends a connection.
    fn end(&mut self, connection: Connection<Self::Reader, Self::Writer>)
        ensures { ends self.old connection self.new };
}
