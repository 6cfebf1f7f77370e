//! An office over connections, wherever it is stored: one after another is taken, served at the
//! moment that a clock gives once its request has been read, and ended.
#![tactic(auto)]

pub mod laws;
mod listening;

pub use listening::{LoopFault, serve_loop};
