//! The terms of the desk: names, texts, kinds and their words, ranges of shares, refusals.
#![tactic(auto)]

mod instructions;
mod kinds;
pub mod laws;
mod names;
mod range;
mod refusal;
mod text;

pub use instructions::{Instructions, MOST_INSTRUCTIONS};
pub use kinds::{Capacity, Company, HolderKind, Instr, MeetingKind, ResKind, Way};
pub use names::{MeetingId, Party, SecretKey, read_key, read_meeting, read_party};
pub use range::{MOST_PLACES, Range};
pub use refusal::Refusal;
pub use text::{LONGEST_TEXT, Text, TextFault};
