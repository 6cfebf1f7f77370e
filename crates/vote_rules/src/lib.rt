//! The votes of a poll: what each voter cast on a share, the valid vote of the share, and the count
//! of the votes by lengths.
#![tactic(auto)]

mod alike;
mod ballots;
mod counting;
mod covers;
pub mod laws;
mod parting;
mod received;

pub use counting::tally;
