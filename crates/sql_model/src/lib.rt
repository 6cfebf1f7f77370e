//! The records that the tables hold, and the office that they are: what they mean, and what a
//! change of the records changes of the office.
#![tactic(auto)]
