//! What stands under the name of a desk's file and in the log beside it, before either is opened as
//! a database; and why the file of a desk is not made or opened.
#![tactic(auto)]

mod fault;
mod file;

pub use fault::DeskFileError;
pub use file::{FileState, find, make_file};
