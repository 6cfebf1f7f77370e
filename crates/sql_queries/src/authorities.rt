//! The authorities of representatives in a meeting (section 323), by who gave them and by whom
//! they name.
ghost use Rattle.std.specs.Prelude.{◌∷◌, []};
ghost use Rattle.sql_queries.specs.HandedInQueries.{authorities_of_meeting, authority_given_by, authority_naming, authority_naming_by};

use desk_words::{MeetingId, Party};
use sql_meeting_tables::authorities::Authorities;
use sql_meeting_tables::authorities_text;
use sql_stored::{Query, finding};

/// The authorities that a corporation gave in a meeting.
pub struct GivenBy;

impl Query for GivenBy {
    type Table = Authorities;

    type Key = (MeetingId, Party);

    ghost places = { 0 ∷ 1 ∷ [] };

    ghost key_of = { λ it. (it.meeting, it.item.corporation) };

    fn finding() -> &'static str {
        authorities_text!(finding, "meeting = ?1 AND corporation = ?2")
    }

    ghost finds = { authority_given_by };
}

/// The authorities in a meeting that name a person.
pub struct Naming;

impl Query for Naming {
    type Table = Authorities;

    type Key = (MeetingId, Party);

    ghost places = { 0 ∷ 2 ∷ [] };

    ghost key_of = { λ it. (it.meeting, it.item.person) };

    fn finding() -> &'static str {
        authorities_text!(finding, "meeting = ?1 AND person = ?2")
    }

    ghost finds = { authority_naming };
}

/// The authorities that a corporation gave to a person in a meeting.
pub struct NamingBy;

impl Query for NamingBy {
    type Table = Authorities;

    type Key = (MeetingId, Party, Party);

    ghost places = { 0 ∷ 1 ∷ 2 ∷ [] };

    ghost key_of = { λ it. (it.meeting, it.item.corporation, it.item.person) };

    fn finding() -> &'static str {
        authorities_text!(finding, "meeting = ?1 AND corporation = ?2 AND person = ?3")
    }

    ghost finds = { authority_naming_by };
}

/// The authorities of representatives in a meeting (section 323).
pub struct OfMeeting;

impl Query for OfMeeting {
    type Table = Authorities;

    type Key = MeetingId;

    ghost places = { 0 ∷ [] };

    ghost key_of = { λ it. it.meeting };

    fn finding() -> &'static str {
        authorities_text!(finding, "meeting = ?1")
    }

    ghost finds = { authorities_of_meeting };
}
