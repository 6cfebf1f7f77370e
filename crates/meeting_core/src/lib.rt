//! The whole office and its step.
#![tactic(auto)]

mod answers;
mod book;
mod changes;
mod dispatch;
pub mod laws;
mod office;

pub use answers::decide_from_rows;
pub use book::{Book, BookFault};
pub use dispatch::{Decides, decide_by};
pub use office::{decide_call, decide_closed, decide_in_meeting, decide_keys, go_on_in_meeting};
