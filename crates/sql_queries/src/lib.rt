//! What the tables hold of one meeting, and of one party in it: each is found by one fixed
//! statement, which a key or an index of its table serves.
#![tactic(auto)]

pub mod appointments;
pub mod authorities;
pub mod casts;
pub mod demands;
pub mod endings;
pub mod meetings;
pub mod polls;
pub mod presences;
pub mod register;
pub mod resolutions;
pub mod sessions;
