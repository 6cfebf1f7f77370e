//! The demands of polls in a meeting (sections 321 and 329), by the party.
ghost use Rattle.std.specs.Prelude.{◌∷◌, []};
ghost use Rattle.sql_queries.specs.SessionQueries.{demand_made_by, demands_of_meeting};

use desk_words::{MeetingId, Party};
use sql_meeting_tables::demands::Demands;
use sql_meeting_tables::demands_text;
use sql_stored::{Query, finding};

/// The demands of polls that a party made in a meeting.
pub struct MadeBy;

impl Query for MadeBy {
    type Table = Demands;

    type Key = (MeetingId, Party);

    ghost places = { 0 ∷ 3 ∷ [] };

    ghost key_of = { λ it. (it.meeting, it.item.party) };

    fn finding() -> &'static str {
        demands_text!(finding, "meeting = ?1 AND party = ?2")
    }

    ghost finds = { demand_made_by };
}

/// The demands of polls in a meeting (sections 321 and 329).
pub struct OfMeeting;

impl Query for OfMeeting {
    type Table = Demands;

    type Key = MeetingId;

    ghost places = { 0 ∷ [] };

    ghost key_of = { λ it. it.meeting };

    fn finding() -> &'static str {
        demands_text!(finding, "meeting = ?1")
    }

    ghost finds = { demands_of_meeting };
}
