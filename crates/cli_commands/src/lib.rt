//! What commands of the program ask of an office, wherever it is stored, and what they do without
//! one: on readers and writers whose bytes contracts can name.
#![tactic(auto)]

mod asking;
mod clock;
mod loads;
mod replaying;
mod serving;

pub use clock::moment_at;
pub use loads::{days, keys, register};
pub use replaying::replay;
pub use serving::serve;
