//! Replays: scripts of requests, over readers and writers whose bytes contracts can name.
#![tactic(auto)]

mod gathered;
pub mod laws;
mod line;
mod script;

pub use line::{Scratch, call_of};
pub use script::{ReplayFault, replay, replay_on};
