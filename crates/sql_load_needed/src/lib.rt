//! What a call needs of the tables. Of a party: its rows and own things in one meeting, read by their
//! names alone. Of the office: what decides whether a request is refused at once, and then those of
//! the meeting's lists that the answer still reads.
#![tactic(auto)]

mod by_receipt;
mod desk;
mod look_ups;
mod needed_lists;
mod needed_rows;
mod own_view;
mod parts;

pub use desk::{MeetingCount, read_count, read_keys};
pub use needed_lists::{OfficeReads, read_rest};
pub use needed_rows::{read_own_rows, read_own_rows_for};
pub use own_view::read_own;
pub use parts::read_first;
pub use sql_load::read_closed;
