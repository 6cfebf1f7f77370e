//! The answer to the office: a reply, and at most one change.
#![tactic(auto)]

mod answer;
mod attendance;
mod calls;
mod desk_loads;
mod early;
pub mod laws;
mod polls;

pub use answer::{desk_answer, office_answer};
pub use calls::call_meeting;
pub use desk_loads::{load_days, load_keys};
pub use early::unless_refused;
