//! The meetings (section 307), found by their names, and counted.
ghost use Rattle.std.specs.Prelude.{◌≡◌, ◌∷◌, [], IfOk, true};
ghost use Rattle.sql_queries.specs.CountedRecords.{CountsRecords};
ghost use Rattle.sql_queries.specs.DeskQueries.{meeting_named};
ghost use Rattle.sql_schema.specs.Contents.{meetings};
ghost use Rattle.sql_schema.specs.Statements.{ChangesNothing, IsRead};

use desk_words::MeetingId;
use sql_desk_tables::meetings::Meetings;
use sql_desk_tables::meetings_text;
use sql_stored::{Query, finding};
use sqlite::{Alter, Error, Row, Transaction};

/// The meeting of a name, of which there is one at most.
pub struct Named;

impl Query for Named {
    type Table = Meetings;

    type Key = MeetingId;

    ghost places = { 0 ∷ [] };

    ghost key_of = { λ it. it.id };

    fn finding() -> &'static str {
        meetings_text!(finding, "meeting = ?1")
    }

    ghost finds = { meeting_named };
}

/// The row of how many meetings there are. None of them is shown.
pub fn count<S: Alter>(tx: &mut Transaction<'_, S>) -> Result<Vec<Row>, Error>
    ensures same_reference { tx.new.conn.ghost_name ≡ tx.old.conn.ghost_name }
    ensures rows { IsRead S.Store tx.old.conn.now tx.new.conn.now
        → IfOk result
        (λ rows. CountsRecords S.Store tx.old.conn.now tx.new.conn.now meetings
        (λ _. true) rows.items) }
    ensures changes { ChangesNothing S.Store tx.old.conn.now tx.new.conn.now }
{
    tx.query_all("SELECT COUNT(*) FROM meetings", &[])
}
