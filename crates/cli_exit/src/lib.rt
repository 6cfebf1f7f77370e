//! How the program ends: its status, and the line that it prints.
#![tactic(auto)]

mod ended;
mod line;
mod words;

pub use ended::{Ended, ExitError};
pub use line::Line;
pub use words::WordsFault;
