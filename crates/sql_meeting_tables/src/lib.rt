//! The tables of what is handed in and held at a meeting, and the statements on them.
#![tactic(auto)]

pub mod appointments;
pub mod authorities;
pub mod casts;
pub mod demands;
pub mod demands_before_sessions;
pub mod endings;
pub mod indexes;
pub mod polls;
pub mod polls_before_sessions;
pub mod presences;
pub mod presences_before_sessions;
