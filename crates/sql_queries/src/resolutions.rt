//! The resolutions of a meeting (section 283(6)).
ghost use Rattle.std.specs.Prelude.{◌≡◌, ◌∷◌, [], IfOk};
ghost use Rattle.sql_queries.specs.DeskQueries.{resolutions_of_meeting};
ghost use Rattle.sql_queries.specs.LastRecords.{FindsLast};
ghost use Rattle.sql_schema.specs.Contents.{resolutions};
ghost use Rattle.sql_schema.specs.Statements.{ChangesNothing, IsRead};
ghost use Rattle.vocabulary.specs.Names.{same_name};

use desk_words::MeetingId;
use sql_desk_tables::resolutions::Resolutions;
use sql_desk_tables::resolutions_text;
use sql_rows::meeting_text;
use sql_stored::{Query, finding};
use sqlite::{Alter, Error, Row, Transaction, params};

/// The resolutions of a meeting.
pub struct OfMeeting;

impl Query for OfMeeting {
    type Table = Resolutions;

    type Key = MeetingId;

    ghost places = { 0 ∷ [] };

    ghost key_of = { λ it. it.meeting };

    fn finding() -> &'static str {
        resolutions_text!(finding, "meeting = ?1")
    }

    ghost finds = { resolutions_of_meeting };
}

/// The row of the last resolution of a meeting, by their numbers. The index of their key leads to it
/// at once, so no other row is read.
pub fn last_of_meeting<S: Alter>(
    tx: &mut Transaction<'_, S>,
    meeting: MeetingId,
) -> Result<Vec<Row>, Error>
    ensures same_reference { tx.new.conn.ghost_name ≡ tx.old.conn.ghost_name }
    ensures rows { IsRead S.Store tx.old.conn.now tx.new.conn.now
        → IfOk result
        (λ rows. FindsLast S.Store tx.old.conn.now tx.new.conn.now resolutions
        (λ it. same_name it.meeting meeting) (λ it. it.item.number) rows.items) }
    ensures changes { ChangesNothing S.Store tx.old.conn.now tx.new.conn.now }
{
    tx.query_all(
        "SELECT meeting, number, kind, body FROM resolutions WHERE meeting = ?1 ORDER BY number DESC LIMIT 1",
        params![meeting_text(&meeting)],
    )
}
