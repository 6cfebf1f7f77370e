//! The sessions to which a meeting was adjourned, numbered from 2.
ghost use Rattle.std.specs.Prelude.{◌∷◌, []};
ghost use Rattle.sql_queries.specs.DeskQueries.{sessions_of_meeting};

use desk_words::MeetingId;
use sql_desk_tables::sessions::Sessions;
use sql_desk_tables::sessions_text;
use sql_stored::{Query, finding};

/// The further sessions of a meeting.
pub struct OfMeeting;

impl Query for OfMeeting {
    type Table = Sessions;

    type Key = MeetingId;

    ghost places = { 0 ∷ [] };

    ghost key_of = { λ it. it.meeting };

    fn finding() -> &'static str {
        sessions_text!(finding, "meeting = ?1")
    }

    ghost finds = { sessions_of_meeting };
}
