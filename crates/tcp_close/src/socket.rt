//! The sockets of the system.
use crate::closing::Closing;
use crate::connection::Connection;
use crate::ending::end_connection;
use crate::listener::Listener;
use byte_io::{DeviceError, ReadDevice, WriteDevice};
use std::io;
use std::net::{Shutdown, TcpListener, TcpStream};

/// A connection of the system, whose two directions are read and written by a handle each.
fn connection_of(
    stream: TcpStream,
) -> io::Result<Connection<ReadDevice<TcpStream>, WriteDevice<TcpStream>>> {
    Ok(Connection {
        reader: ReadDevice::new(stream.try_clone()?),
        writer: WriteDevice::new(stream),
    })
}

// The next two say nothing by their ghost members, as no contract of std says what a socket gives,
// takes or is. Each method makes one call of std, or two; what is made of these is proved.
impl Closing for ReadDevice<TcpStream> {
    ghost ends_reply = { λ _ _. Unit {0} };

    ghost stops_waiting = { λ _ _. Unit {0} };

    ghost keeps_waiting = { λ _ _. Unit {0} };

    fn end_reply(&mut self) {
        let _ = self.inner.shutdown(Shutdown::Write);
    }

    fn stop_waiting(&mut self) -> Result<(), DeviceError> {
        self.inner.set_nonblocking(true).map_err(|_| DeviceError)
    }
}

impl Listener for TcpListener {
    type Reader = ReadDevice<TcpStream>;

    type Writer = WriteDevice<TcpStream>;

    ghost accepts = { λ _ _ _. Unit {0} };

    ghost ends = { λ _ _ _. Unit {0} };

    fn accept(&mut self) -> io::Result<Connection<ReadDevice<TcpStream>, WriteDevice<TcpStream>>> {
        let (stream, _) = TcpListener::accept(self)?;
        connection_of(stream)
    }

    fn end(&mut self, connection: Connection<ReadDevice<TcpStream>, WriteDevice<TcpStream>>)
        ensures { Unit {0} }
    {
        let mut socket = connection.reader;
        end_connection(&mut socket);
    }
}
