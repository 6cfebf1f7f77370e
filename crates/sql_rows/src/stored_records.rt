//! The records that rows keep, where an office keeps them otherwise.
use desk_words::{Company, Day, MeetingId, MeetingKind, Moment};

/// A record of a meeting, and the meeting.
#[derive(Clone, Drop)]
pub struct InMeeting<T> {
    pub meeting: MeetingId,
    pub item: T,
}

/// The version of a desk's tables, from 1.
#[derive(Clone, Copy, PartialEq, Eq)]
pub struct Version {
    pub number: u64,
}

/// A meeting (section 307) with its first session, without its resolutions and its further
/// sessions, which have rows of their own.
#[derive(Clone, Copy, PartialEq, Eq)]
pub struct MeetingRow {
    pub id: MeetingId,
    pub company: Company,
    pub kind: MeetingKind,
    /// The day on which notice is given.
    pub given: Day,
    /// The appointed time of the first session.
    pub appointed: Moment,
    /// The moment as of which the register is taken.
    pub record_moment: Moment,
    pub loaded: bool,
    /// When the first session opened; none until then.
    pub opened: Option<Moment>,
}

/// A resolution (section 283(6)) or a further session of a meeting, and its number in it:
/// resolutions are numbered from 1, and further sessions from 2.
#[derive(Clone, Drop)]
pub struct Numbered<T> {
    pub number: u64,
    pub item: T,
}
