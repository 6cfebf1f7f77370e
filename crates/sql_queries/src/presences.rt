//! The presences at a meeting (section 318), by the party.
ghost use Rattle.std.specs.Prelude.{◌∷◌, []};
ghost use Rattle.sql_queries.specs.SessionQueries.{presence_of_party, presences_of_meeting};

use desk_words::{MeetingId, Party};
use sql_meeting_tables::presences::Presences;
use sql_meeting_tables::presences_text;
use sql_stored::{Query, finding};

/// The presences of a party at the sessions of a meeting.
pub struct OfParty;

impl Query for OfParty {
    type Table = Presences;

    type Key = (MeetingId, Party);

    ghost places = { 0 ∷ 2 ∷ [] };

    ghost key_of = { λ it. (it.meeting, it.item.party) };

    fn finding() -> &'static str {
        presences_text!(finding, "meeting = ?1 AND party = ?2")
    }

    ghost finds = { presence_of_party };
}

/// The presences at a meeting (section 318).
pub struct OfMeeting;

impl Query for OfMeeting {
    type Table = Presences;

    type Key = MeetingId;

    ghost places = { 0 ∷ [] };

    ghost key_of = { λ it. it.meeting };

    fn finding() -> &'static str {
        presences_text!(finding, "meeting = ?1")
    }

    ghost finds = { presences_of_meeting };
}
