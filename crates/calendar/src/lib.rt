//! Days and moments of the office's wall clock, and their texts.
#![tactic(auto)]

mod date;
pub mod laws;
mod moment;
mod text;

pub use moment::{Day, Moment};
pub use text::{read_day, read_moment, write_day, write_moment};
