//! The rows of members in the register of a meeting (section 113).
ghost use Rattle.std.specs.Prelude.{◌∷◌, []};
ghost use Rattle.sql_queries.specs.DeskQueries.{holding_of_member, register_of_meeting};

use desk_words::{MeetingId, Party};
use sql_desk_tables::register::Register;
use sql_desk_tables::register_text;
use sql_stored::{Query, finding};

/// The row of a member in the register of a meeting, of which there is one at most.
pub struct OfMember;

impl Query for OfMember {
    type Table = Register;

    type Key = (MeetingId, Party);

    ghost places = { 0 ∷ 1 ∷ [] };

    ghost key_of = { λ it. (it.meeting, it.item.member) };

    fn finding() -> &'static str {
        register_text!(finding, "meeting = ?1 AND member = ?2")
    }

    ghost finds = { holding_of_member };
}

/// The register of a meeting (section 113).
pub struct OfMeeting;

impl Query for OfMeeting {
    type Table = Register;

    type Key = MeetingId;

    ghost places = { 0 ∷ [] };

    ghost key_of = { λ it. it.meeting };

    fn finding() -> &'static str {
        register_text!(finding, "meeting = ?1")
    }

    ghost finds = { register_of_meeting };
}
