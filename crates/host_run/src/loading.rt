//! The kinds of files that are loaded into a desk.
use desk_words::{MeetingId, Moment};

/// What a file is that is loaded into a desk.
#[derive(Clone, Copy)]
pub enum Load {
    /// The keys of the parties.
    Keys,
    /// The closed days of the office (section 1173).
    Days,
    /// The register of a meeting, as it was at the record moment.
    Register {
        meeting: MeetingId,
        record_moment: Moment,
    },
}
