//! The files that the office hands in: registers and keys as spreadsheets save them, and closed
//! days.
//!
//! A file is read whole, and then its records are looked at in turn. It gives its rows, or the
//! first fault of the first record that has one.
#![tactic(auto)]

mod columns;
mod day_file;
mod fault;
mod faultless;
mod key_file;
pub mod laws;
mod number;
mod register_file;
mod table;
mod whole;

pub use day_file::read_days;
pub use fault::{FileError, Why};
pub use key_file::read_keys;
pub use register_file::read_register;
pub use whole::{DAY_FILE_LIMIT, FILE_LIMIT};
