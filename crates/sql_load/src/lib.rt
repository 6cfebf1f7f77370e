//! What the tables hold, read from them: a table whole; of one meeting, by its name, what it shows
//! everyone; what a query found as records; and the lists of a meeting, made of its records and put in
//! order.
#![tactic(auto)]

mod fault;
mod ordered_lists;
mod public;
pub mod query_records;
mod stand_ins;
mod table;

pub use fault::LoadError;
pub use ordered_lists::{
    day_list, key_rows, poll_list, register_rows, resolution_list, session_list, whole_meeting,
};
pub use public::{
    OwnedRecord, counted_of, meeting_for, meeting_of, polls_of, polls_on, read_closed, read_public,
};
pub use table::listing;
