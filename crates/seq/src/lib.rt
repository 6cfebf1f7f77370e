//! Lists that contracts see as lists, and lists kept in the order of a key.
#![tactic(auto)]

mod distinct;
mod listing;
mod ordered;

pub use distinct::in_order_once;
pub use listing::Listing;
pub use ordered::{Keyed, ascend, find_by_key, into_order};
