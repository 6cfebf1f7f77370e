//! The polls of a meeting (section 321), all and by the resolution.
ghost use Rattle.std.specs.Prelude.{◌∷◌, []};
ghost use Rattle.sql_queries.specs.SessionQueries.{poll_on_resolution, polls_of_meeting};

use desk_words::MeetingId;
use sql_meeting_tables::polls::Polls;
use sql_meeting_tables::polls_text;
use sql_stored::{Query, finding};

/// The polls of a meeting.
pub struct OfMeeting;

impl Query for OfMeeting {
    type Table = Polls;

    type Key = MeetingId;

    ghost places = { 0 ∷ [] };

    ghost key_of = { λ it. it.meeting };

    fn finding() -> &'static str {
        polls_text!(finding, "meeting = ?1")
    }

    ghost finds = { polls_of_meeting };
}

/// The poll on a resolution of a meeting. The index of their key leads to it, so no other row is read.
pub struct OnResolution;

impl Query for OnResolution {
    type Table = Polls;

    type Key = (MeetingId, u64);

    ghost places = { 0 ∷ 2 ∷ [] };

    ghost key_of = { λ it. (it.meeting, it.item.resolution) };

    fn finding() -> &'static str {
        polls_text!(finding, "meeting = ?1 AND resolution = ?2")
    }

    ghost finds = { poll_on_resolution };
}
