//! The tables of a desk in a file, made, opened and closed, over the trait `TableFile` of stores in
//! files. It has the files of the system, and proves how the parts of their stores are dropped, which
//! the crates above it need not do.
#![tactic(auto)]

mod files;
mod opening;
mod system;

pub use files::{ConnectError, SystemFiles, TableFile};
pub use opening::{close, create, open};
pub use sqlite::Wary;
pub use system::{Begins, DeskFile};
