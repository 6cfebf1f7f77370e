//! What makes lists an office, tested of lists that were kept elsewhere.
#![tactic(auto)]

mod appointments;
mod attendance;
mod keys;
mod meetings;
mod office;
mod polls;

pub use meetings::meeting_checked;
pub use office::office_checked;
pub use polls::are_casts;
