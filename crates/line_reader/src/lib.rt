//! The lines of an input, one at a time, through one bounded buffer.
#![tactic(auto)]

mod law;
mod outcome;
mod reader;
mod scan;
mod window;

pub use law::lines_law;
pub use outcome::{NextLine, ReadFault};
pub use reader::LineReader;
