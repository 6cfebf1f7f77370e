//! What is decided of a call on the desk, from those rows of its tables that the answer reads and from
//! public records that are cached.
#![tactic(auto)]

mod cached;
mod deciding;
mod load_errors;

pub use cached::{CachedRecord, cached_record};
pub use deciding::{answer_notice, decide};
pub use load_errors::fault_of_book;
