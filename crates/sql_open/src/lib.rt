//! The tables of a desk: made in a database that holds nothing; opened where they were kept, those of
//! version 1 moved to version 2, and judged to hold an office, meeting by meeting; and the office
//! that they hold, read whole.
#![tactic(auto)]

mod creation;
mod emptied;
mod fault;
mod first;
mod judging;
pub mod laws;
mod making;
mod meeting_lists;
mod migration;
mod moving;
mod new_tables;
mod office;
mod opening;
mod own_rows;
mod stored_rows;
mod version;
mod votes;

pub use creation::create;
pub use fault::{CreateError, OpenFault};
pub use office::read_office;
pub use opening::{HandedBack, ask_open, open, open_risen};
pub use version::KnownVersion;
