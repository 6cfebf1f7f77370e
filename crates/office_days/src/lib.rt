//! Office days: clear days of notice, and working time.
#![tactic(auto)]

mod closed;
mod notice;
mod working;

pub use closed::{Closed, DaysFault, OutOfRange};
pub use notice::{clear_days, enough_notice};
