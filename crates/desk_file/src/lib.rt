//! The desk of one company in a file: an office in a file, over its tables.
#![tactic(auto)]

mod disk;
pub mod laws;
mod office;
mod printing;

pub use disk::{DiskDesk, DiskFiles};
pub use printing::results;
