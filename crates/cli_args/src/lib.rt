//! The words of the program: which command they name, its files, and the values that it takes.
#![tactic(auto)]

mod app;
mod command_words;
mod help;
mod plan;
mod words;

pub use command_words::CommandWords;
pub use plan::{Plan, plan_of};
pub use words::read_words;
