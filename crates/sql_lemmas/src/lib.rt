//! What a statement of a form does to the rows of a table, and that the numbers of an office are kept.
#![tactic(auto)]

pub mod laws;
