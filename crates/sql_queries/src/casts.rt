//! The votes of a meeting (sections 284 and 322), all, by the voter and by the resolution.
ghost use Rattle.std.specs.Prelude.{◌≡◌, ◌==◌, ◌&&◌, ◌∷◌, [], IfOk};
ghost use Rattle.sql_queries.specs.CountedRecords.{CountsRecords};
ghost use Rattle.sql_queries.specs.HandedInQueries.{cast_by, cast_on_resolution, casts_of_meeting};
ghost use Rattle.sql_schema.specs.Contents.{casts};
ghost use Rattle.sql_schema.specs.Statements.{ChangesNothing, IsRead};
ghost use Rattle.vocabulary.specs.Names.{same_name};

use desk_words::{MeetingId, Party};
use sql_meeting_tables::casts::Casts;
use sql_meeting_tables::casts_text;
use sql_stored::{Query, RowKey, finding};
use sqlite::{Alter, Error, Row, Transaction};

/// The votes that a voter cast in a meeting.
pub struct CastBy;

impl Query for CastBy {
    type Table = Casts;

    type Key = (MeetingId, Party);

    ghost places = { 0 ∷ 2 ∷ [] };

    ghost key_of = { λ it. (it.meeting, it.item.voter) };

    fn finding() -> &'static str {
        casts_text!(finding, "meeting = ?1 AND voter = ?2")
    }

    ghost finds = { cast_by };
}

/// The votes on a resolution in a meeting.
pub struct OnResolution;

impl Query for OnResolution {
    type Table = Casts;

    type Key = (MeetingId, u64);

    ghost places = { 0 ∷ 1 ∷ [] };

    ghost key_of = { λ it. (it.meeting, it.item.resolution) };

    fn finding() -> &'static str {
        casts_text!(finding, "meeting = ?1 AND resolution = ?2")
    }

    ghost finds = { cast_on_resolution };
}

/// The votes of a meeting.
pub struct OfMeeting;

impl Query for OfMeeting {
    type Table = Casts;

    type Key = MeetingId;

    ghost places = { 0 ∷ [] };

    ghost key_of = { λ it. it.meeting };

    fn finding() -> &'static str {
        casts_text!(finding, "meeting = ?1")
    }

    ghost finds = { casts_of_meeting };
}

/// The row of how many votes a voter cast on a resolution in a meeting. An index leads to them, and
/// none of them is shown. A number that no column holds is an error, as `whole` says.
pub fn count_cast_on<S: Alter>(
    tx: &mut Transaction<'_, S>,
    meeting: MeetingId,
    voter: Party,
    resolution: u64,
) -> Result<Vec<Row>, Error>
    ensures same_reference { tx.new.conn.ghost_name ≡ tx.old.conn.ghost_name }
    ensures rows { IsRead S.Store tx.old.conn.now tx.new.conn.now
        → IfOk result
        (λ rows. CountsRecords S.Store tx.old.conn.now tx.new.conn.now casts
        (λ it. same_name it.meeting meeting
        && (same_name it.item.voter voter && it.item.resolution == resolution)) rows.items) }
    ensures changes { ChangesNothing S.Store tx.old.conn.now tx.new.conn.now }
{
    let sql = "SELECT COUNT(*) FROM casts WHERE meeting = ?1 AND voter = ?2 AND resolution = ?3";
    (meeting, voter, resolution).ask(tx, sql)
}
