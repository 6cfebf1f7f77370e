//! By what a poll is known.
use desk_words::MeetingId;

/// The poll on a resolution of a meeting, which has one at most.
#[derive(Clone, Copy, PartialEq, Eq)]
pub struct PollName {
    pub meeting: MeetingId,
    /// The resolution's number, from 1.
    pub resolution: u64,
}
