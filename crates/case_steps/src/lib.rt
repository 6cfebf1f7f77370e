//! The form of a case, what is not as expected in it, and the steps that ask no desk: what files
//! spell, what words and bytes ask, and how the program ends.
#![tactic(auto)]

mod case;
mod endings;
mod files;
mod findings;
mod given;
mod handed;
mod plans;
mod request_words;
mod requests;
mod steps;

pub use case::{Case, Step, parted, read_case};
pub use endings::ended_text;
pub use findings::{Answer, Findings};
pub use handed::{FileKind, Handed};
pub use steps::answer;
