//! The endings of appointments in a meeting (section 330), by who made them.
ghost use Rattle.std.specs.Prelude.{◌∷◌, []};
ghost use Rattle.sql_queries.specs.HandedInQueries.{ending_made_by, endings_of_meeting};

use desk_words::{MeetingId, Party};
use sql_meeting_tables::endings::Endings;
use sql_meeting_tables::endings_text;
use sql_stored::{Query, finding};

/// The endings that a member made in a meeting.
pub struct MadeBy;

impl Query for MadeBy {
    type Table = Endings;

    type Key = (MeetingId, Party);

    ghost places = { 0 ∷ 1 ∷ [] };

    ghost key_of = { λ it. (it.meeting, it.item.member) };

    fn finding() -> &'static str {
        endings_text!(finding, "meeting = ?1 AND member = ?2")
    }

    ghost finds = { ending_made_by };
}

/// The endings of appointments in a meeting (section 330).
pub struct OfMeeting;

impl Query for OfMeeting {
    type Table = Endings;

    type Key = MeetingId;

    ghost places = { 0 ∷ [] };

    ghost key_of = { λ it. it.meeting };

    fn finding() -> &'static str {
        endings_text!(finding, "meeting = ?1")
    }

    ghost finds = { endings_of_meeting };
}
