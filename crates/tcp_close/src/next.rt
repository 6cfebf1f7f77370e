//! The next connection of a listener.
ghost use Rattle.tcp_close.specs.Answering.{Answers};

use crate::accepting::{Accepted, SocketError, answer_of};
use crate::connection::Connection;
use crate::listener::Listener;

/// Asks a listener for the next connection, once.
///
/// The error is that the listener failed, and not by one peer that is gone.
pub fn next_connection<L: Listener>(
    listener: &mut L,
) -> Result<Accepted<Connection<L::Reader, L::Writer>>, SocketError>
    ensures { Answers L.Listener listener.old result listener.new }
{
    answer_of(listener.accept())
}
