//! Requests over HTTP, read from a source: with which key a request is sent, and what it asks.
#![tactic(auto)]

mod body;
mod head_request;
pub mod laws;
mod received;
mod request;

pub use received::{ReceiveError, ReceivedRequest};
pub use request::read_request;
