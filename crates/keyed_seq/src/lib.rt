//! Lists in order of receipt that are also filed by keys of their items, so that what a key names
//! is found without a walk over the others.
#![tactic(auto)]

mod filed;
mod places;

pub use filed::{Filed, FiledBy};
