//! Connections of a listener: what each comes to that is taken, and how it is ended.
#![tactic(auto)]

mod accepting;
mod closing;
mod connection;
mod ending;
pub mod laws;
mod listener;
mod memory;
mod next;
mod socket;

pub use accepting::{Accepted, SocketError, answer_of};
pub use closing::Closing;
pub use connection::Connection;
pub use ending::{MOST_DRAINED, drain, end_connection};
pub use listener::Listener;
pub use memory::{Peer, SliceListener};
pub use next::next_connection;
