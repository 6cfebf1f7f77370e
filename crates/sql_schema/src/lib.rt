//! The tables in which the desk keeps its record: how they are declared, what each holds, and what
//! a statement does to them.
#![tactic(auto)]

mod poll_name;

pub use poll_name::PollName;
