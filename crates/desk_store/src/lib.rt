//! The desk of one company over its tables: what it answers, and what it keeps.
#![tactic(auto)]

mod cached;
mod desk;
mod library;
mod perform;
mod reading;
mod reads;

pub use cached::StillValid;
pub use desk::Desk;
pub use sql_load::OwnedRecord;
pub use sql_open::{CreateError, HandedBack, OpenFault};
