//! The rows of a party in the lists of a meeting.
#![tactic(auto)]

mod look_ups;
mod members;
mod party_records;

pub use look_ups::{read_own_rows, read_own_rows_for};
pub use row_source::no_own_rows;
