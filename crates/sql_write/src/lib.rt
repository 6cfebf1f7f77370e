//! What a change writes into the tables of the desk.
#![tactic(auto)]

mod change;
mod desk_lists;
mod entries;
mod meetings;
mod polls;

pub use change::write;
