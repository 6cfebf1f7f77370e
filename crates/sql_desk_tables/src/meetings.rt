//! The table `meetings`: the meetings, in the order in which they were called (section 307).
ghost use Rattle.std.specs.Prelude.{◌≡◌, refl};
ghost use Rattle.sql_schema.specs.Contents.{first_opened_at, loaded_at, meetings, without_resolutions};
ghost use Rattle.sql_schema.specs.Statements.{Adds, CommitsNothing, Does, Makes, Sets};
ghost use Rattle.sql_schema.specs.Tables.{meetings_table, up_to_closed, up_to_meetings};
ghost use Rattle.sql_desk_tables.specs.DeskTables.{meetings_added, meetings_listed};

use desk_words::{Meeting, MeetingId, Moment};
use sql_rows::{
    MeetingRow, company_text, day_number, meeting_kind_text, meeting_text, moment_number,
    some_moment_number,
};
use sql_stored::{FilledTable, ListedTable, ReadTable, add_row, adding, listing};
use sqlite::{Alter, Error, Transaction, params};

/// The name and the columns of the table, for a text of this form.
#[macro_export]
macro_rules! meetings_text {
    ($form:ident $(, $more:literal)*) => {
        $form!("meetings", "meeting, company, kind, given, appointed, record, loaded, opened", "seq" $(, $more)*)
    };
}

/// The meetings, in the order in which they were called (section 307).
pub struct Meetings;

impl ListedTable for Meetings {
    type Record = MeetingRow;

    ghost declared = { meetings_table };

    ghost table = { meetings };

    fn listing() -> &'static str {
        meetings_text!(listing)
    }

    ghost lists = { meetings_listed };
}

impl ReadTable for Meetings {
    ghost reads_as = { refl };
}

impl FilledTable for Meetings {
    fn adding() -> &'static str {
        meetings_text!(adding, "?1, ?2, ?3, ?4, ?5, ?6, ?7, ?8")
    }

    ghost adds = { meetings_added };
}

/// Makes the table, after that of closed.
pub fn make<S: Alter>(tx: &mut Transaction<'_, S>) -> Result<usize, Error>
    ensures same_reference { tx.new.conn.ghost_name ≡ tx.old.conn.ghost_name }
    ensures made { Makes S.Store tx.old.conn.now tx.new.conn.now result
        up_to_closed up_to_meetings }
    ensures commits { CommitsNothing S.Store tx.old.conn.now tx.new.conn.now }
{
    tx.execute(
        "CREATE TABLE meetings (seq INTEGER PRIMARY KEY AUTOINCREMENT, meeting TEXT NOT NULL UNIQUE, company TEXT NOT NULL, kind TEXT NOT NULL, given INTEGER NOT NULL, appointed INTEGER NOT NULL, record INTEGER NOT NULL, loaded INTEGER NOT NULL, opened INTEGER) STRICT",
        &[],
    )
}

/// Adds a meeting, without its resolutions.
pub fn add<S: Alter>(tx: &mut Transaction<'_, S>, meeting: &Meeting) -> Result<usize, Error>
    ensures same_reference { tx.new.conn.ghost_name ≡ tx.old.conn.ghost_name }
    ensures added { Does S.Store tx.old.conn.now tx.new.conn.now result
        (Adds meetings (without_resolutions meeting.now)) }
    ensures commits { CommitsNothing S.Store tx.old.conn.now tx.new.conn.now }
{
    add_row::<Meetings, S>(
        tx,
        params![
            meeting_text(&meeting.id),
            company_text(meeting.company),
            meeting_kind_text(meeting.kind),
            day_number(meeting.given),
            moment_number(meeting.first.appointed),
            moment_number(meeting.record_moment),
            meeting.loaded,
            some_moment_number(meeting.first.opened)
        ],
    )
}

/// Notes that a meeting's register is loaded.
pub fn load<S: Alter>(tx: &mut Transaction<'_, S>, meeting: MeetingId) -> Result<usize, Error>
    ensures same_reference { tx.new.conn.ghost_name ≡ tx.old.conn.ghost_name }
    ensures set { Does S.Store tx.old.conn.now tx.new.conn.now result
        (Sets meetings (loaded_at meeting)) }
    ensures commits { CommitsNothing S.Store tx.old.conn.now tx.new.conn.now }
{
    tx.execute(
        "UPDATE meetings SET loaded = 1 WHERE meeting = ?1",
        params![meeting_text(&meeting)],
    )
}

/// Notes when a meeting opened.
pub fn open<S: Alter>(
    tx: &mut Transaction<'_, S>,
    meeting: MeetingId,
    moment: Moment,
) -> Result<usize, Error>
    ensures same_reference { tx.new.conn.ghost_name ≡ tx.old.conn.ghost_name }
    ensures set { Does S.Store tx.old.conn.now tx.new.conn.now result
        (Sets meetings (first_opened_at meeting moment)) }
    ensures commits { CommitsNothing S.Store tx.old.conn.now tx.new.conn.now }
{
    tx.execute(
        "UPDATE meetings SET opened = ?2 WHERE meeting = ?1",
        params![meeting_text(&meeting), moment_number(moment)],
    )
}
