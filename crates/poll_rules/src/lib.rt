//! The rules of a poll beside the count of its votes: the majority, the quorum of the meeting, and
//! the demand of a poll. The rules of proxies stand below it, and are handed on.
#![tactic(auto)]

mod acting;
mod demand;
mod gathered;
pub mod laws;
mod qualifying;
mod roles;

pub use demand::{Demand, demand_reached};
pub use desk_words::{carried, result_of};
pub use proxy_rules::{
    Cutoffs, GovernedPiece, Holding, Papers, Use, cutoffs, given_by, governed, governing,
    is_late_poll, shares,
};
pub use qualifying::quorum;
