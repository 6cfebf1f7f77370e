//! What a listener that is asked for a connection answers.
ghost use Rattle.std.specs.Prelude.{◌≡◌};
ghost use Rattle.tcp_close.specs.Accepting.{answer_of, is_of_a_peer};

use std::error::Error;
use std::fmt;
use std::io::{self, ErrorKind};

/// What a listener answered that was asked for a connection.
#[derive(Drop)]
pub enum Accepted<C> {
    /// A peer is connected.
    Peer(C),
    /// A peer was gone before its connection was taken. That was a connection too.
    Gone,
}

/// A listener failed, and its error does not say that one peer is gone.
#[derive(Clone, Copy, Debug, PartialEq, Eq)]
pub struct SocketError;

impl fmt::Display for SocketError {
    fn fmt<W: fmt::Write>(&self, f: &mut fmt::Formatter<W>) -> fmt::Result {
        f.write_str("a listener failed")
    }
}

impl Error for SocketError {}

/// Whether an error says that one peer is gone.
fn is_of_a_peer(kind: ErrorKind) -> bool
    ensures { result ≡ is_of_a_peer kind }
{
    match kind {
        ErrorKind::ConnectionAborted | ErrorKind::ConnectionReset | ErrorKind::Interrupted => true,
        _ => false,
    }
}

/// What a listener's answer to `accept` comes to: a connection, or that a peer is gone where the
/// error is that its connection was aborted or reset, or that the call was interrupted. Any other
/// error is the listener's.
pub fn answer_of<C: Drop>(taken: io::Result<C>) -> Result<Accepted<C>, SocketError>
    ensures { result ≡ answer_of taken }
{
    match taken {
        Ok(connection) => Ok(Accepted::Peer(connection)),
        Err(error) if is_of_a_peer(error.kind()) => Ok(Accepted::Gone),
        Err(_) => Err(SocketError),
    }
}
