//! The heads of HTTP requests, read from a source, and the length of the body that one announces.
#![tactic(auto)]

mod fields;
mod front;
mod heads;
mod laws;
mod length;

pub use front::{Front, LONGEST_HEAD, MOST_FIELDS};
pub use heads::HeadReader;
pub use laws::{limits_are, one_front, one_head};
pub use length::{BodyLength, LONGEST_BODY};
