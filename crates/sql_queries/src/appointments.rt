//! The appointments of proxies in a meeting (section 324), by who gave them and by whom they name.
ghost use Rattle.std.specs.Prelude.{◌∷◌, []};
ghost use Rattle.sql_queries.specs.HandedInQueries.{appointment_given_by, appointment_naming, appointments_of_meeting};

use desk_words::{MeetingId, Party};
use sql_meeting_tables::appointments::Appointments;
use sql_meeting_tables::appointments_text;
use sql_stored::{Query, finding};

/// The appointments that a member gave in a meeting.
pub struct GivenBy;

impl Query for GivenBy {
    type Table = Appointments;

    type Key = (MeetingId, Party);

    ghost places = { 0 ∷ 1 ∷ [] };

    ghost key_of = { λ it. (it.meeting, it.item.member) };

    fn finding() -> &'static str {
        appointments_text!(finding, "meeting = ?1 AND member = ?2")
    }

    ghost finds = { appointment_given_by };
}

/// The appointments in a meeting that name a party as their proxy.
pub struct Naming;

impl Query for Naming {
    type Table = Appointments;

    type Key = (MeetingId, Party);

    ghost places = { 0 ∷ 3 ∷ [] };

    ghost key_of = { λ it. (it.meeting, it.item.proxy) };

    fn finding() -> &'static str {
        appointments_text!(finding, "meeting = ?1 AND proxy = ?2")
    }

    ghost finds = { appointment_naming };
}

/// The appointments of proxies in a meeting (section 324).
pub struct OfMeeting;

impl Query for OfMeeting {
    type Table = Appointments;

    type Key = MeetingId;

    ghost places = { 0 ∷ [] };

    ghost key_of = { λ it. it.meeting };

    fn finding() -> &'static str {
        appointments_text!(finding, "meeting = ?1")
    }

    ghost finds = { appointments_of_meeting };
}
