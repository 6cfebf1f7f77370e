//! The tables of the desk and of its meetings, and the statements on them.
#![tactic(auto)]

pub mod closed;
pub mod columns;
pub mod desk;
pub mod keys;
pub mod meetings;
pub mod register;
pub mod resolutions;
pub mod sessions;
