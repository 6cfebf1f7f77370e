//! Which rows of a meeting the answer to a party's request reads, from whatever looks them up.
#![tactic(auto)]

mod members;
mod needed_rows;
mod source;

pub use needed_rows::{no_own_rows, read_own_rows};
pub use source::{GivenTo, RowSource};
