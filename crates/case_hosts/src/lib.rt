//! The program over a host in memory, beside the desks that a case asks: it is given the same calls
//! and files, and has to answer alike.
#![tactic(auto)]

mod hosted;
mod peer_port;
mod requests;
mod runs;

pub use hosted::Hosted;
pub use requests::{KEY, request_text};
