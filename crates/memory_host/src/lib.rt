//! A host in memory, of which its ghost members say all: with it the promise of `host_run::run` is
//! one about bytes, moments and offices.
#![tactic(auto)]

mod clocks_given;
mod console;
mod file_given;
mod office_file_given;
mod open_book;
mod port_given;
mod stored;
#[cfg(test)]
mod tests;

pub use clocks_given::ClocksGiven;
pub use console::Paper;
pub use file_given::FileGiven;
pub use office_file_given::OfficeFileGiven;
pub use open_book::OpenBook;
pub use port_given::PortGiven;
pub use stored::Stored;
