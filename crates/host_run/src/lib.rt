//! What the program does for its words, over any host.
#![tactic(auto)]

pub mod laws;
mod loading;
mod loads;
mod prints;
mod reporting;
mod running;
mod serving;

pub use loading::Load;
pub use reporting::report;
pub use running::run;
