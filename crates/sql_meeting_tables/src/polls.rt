//! The table `polls2`: the polls (section 321).
ghost use Rattle.std.specs.Prelude.{◌≡◌, refl};
ghost use Rattle.sql_schema.specs.Contents.{closed_at, declared_with, polls, polls_before_sessions, started_at};
ghost use Rattle.sql_schema.specs.CopiedRows.{Copies};
ghost use Rattle.sql_meeting_tables.specs.Copying.{CopiesTyped};
ghost use Rattle.sql_schema.specs.Statements.{Adds, CommitsNothing, Does, Sets};
ghost use Rattle.sql_schema.specs.Tables.{polls_table, polls_before_sessions_table, up_to_demands};
ghost use Rattle.sql_schema.specs.SqlTexts.{once_text};
ghost use Rattle.sqlite.specs.Listing.{understood};
ghost use Rattle.sqlite_schema.specs.Names.{same_name};
ghost use Rattle.sqlite_tied.specs.Compute.{everything};
ghost use Rattle.sql_lemmas.proofs.Frames.{wide};
ghost use Rattle.sql_stored.specs.Stored.{HasTexts};

use desk_words::{MeetingId, Moment, Poll, Tally};
use sql_rows::{InMeeting, meeting_text, moment_number, some_moment_number, tally, whole};
use sql_schema::PollName;
use sql_stored::{ReadTable, StoredTable, TableTexts, add_row, table_texts};
use sqlite::{Alter, Error, Transaction, params};

/// The name and the columns of the table, for a text of this form.
#[macro_export]
macro_rules! polls_text {
    ($form:ident $(, $more:literal)*) => {
        $form!("polls2", "meeting, session, resolution, ordered, take, chair, started, closed, votes_for, votes_against, withheld, eligible", "rowid" $(, $more)*)
    };
}

/// The polls (section 321).
pub struct Polls;

impl StoredTable for Polls {
    type Record = InMeeting<Poll>;

    ghost stands = { record {
      declared = polls_table;
      table = polls;
      before = up_to_demands;
      making = once_text polls_table;
    } };

    fn texts() -> TableTexts {
        polls_text!(
            table_texts,
            "?1, ?2, ?3, ?4, ?5, ?6, ?7, ?8, ?9, ?10, ?11, ?12",
            "CREATE TABLE polls2 (meeting TEXT NOT NULL REFERENCES meetings (meeting), session INTEGER NOT NULL, resolution INTEGER NOT NULL, ordered INTEGER NOT NULL, take INTEGER NOT NULL, chair INTEGER NOT NULL, started INTEGER, closed INTEGER, votes_for INTEGER, votes_against INTEGER, withheld INTEGER, eligible INTEGER, PRIMARY KEY (meeting, resolution)) STRICT"
        )
    }

    ghost stored = { unfold understood everything same_name in record {
      makes = record { is = refl; alone = refl; plain = (refl, refl); defined = refl; full = refl };
      texts = wide (HasTexts polls polls_table) (λ others apart indexes views. record {
        lists = record { is = refl; plain = (refl, refl); unlisted = refl };
        counts = record { is = refl; plain = (refl, refl); unlisted = refl };
        adds = record { place = 17; is = refl; plain = (refl, refl); there = refl; numbered = refl };
      });
      listed = (refl, refl);
    } };
}

impl ReadTable for Polls {
    ghost reads_as = { refl };
}

/// Adds a poll of a session of a meeting.
pub fn add<S: Alter>(
    tx: &mut Transaction<'_, S>,
    meeting: MeetingId,
    poll: &Poll,
) -> Result<usize, Error>
    ensures same_reference { tx.new.conn.ghost_name ≡ tx.old.conn.ghost_name }
    ensures added { Does S.Store tx.old.conn.now tx.new.conn.now result
        (Adds polls (record { meeting = meeting; item = poll.now })) }
    ensures commits { CommitsNothing S.Store tx.old.conn.now tx.new.conn.now }
{
    let session = whole(poll.session)?;
    let resolution = whole(poll.resolution)?;
    let tally = tally(poll.declared)?;
    add_row::<Polls, S>(
        tx,
        params![
            meeting_text(&meeting),
            session,
            resolution,
            moment_number(poll.ordered),
            moment_number(poll.take),
            poll.chair,
            some_moment_number(poll.started),
            some_moment_number(poll.closed),
            tally.votes_for,
            tally.votes_against,
            tally.withheld,
            tally.eligible
        ],
    )
}

/// Notes when a poll is started.
pub fn start<S: Alter>(
    tx: &mut Transaction<'_, S>,
    poll: PollName,
    moment: Moment,
) -> Result<usize, Error>
    ensures same_reference { tx.new.conn.ghost_name ≡ tx.old.conn.ghost_name }
    ensures set { Does S.Store tx.old.conn.now tx.new.conn.now result
        (Sets polls (started_at poll moment)) }
    ensures commits { CommitsNothing S.Store tx.old.conn.now tx.new.conn.now }
{
    let resolution = whole(poll.resolution)?;
    tx.execute(
        "UPDATE polls2 SET started = ?3 WHERE meeting = ?1 AND resolution = ?2",
        params![
            meeting_text(&poll.meeting),
            resolution,
            moment_number(moment)
        ],
    )
}

/// Notes when the voting on a poll is closed.
pub fn close<S: Alter>(
    tx: &mut Transaction<'_, S>,
    poll: PollName,
    moment: Moment,
) -> Result<usize, Error>
    ensures same_reference { tx.new.conn.ghost_name ≡ tx.old.conn.ghost_name }
    ensures set { Does S.Store tx.old.conn.now tx.new.conn.now result
        (Sets polls (closed_at poll moment)) }
    ensures commits { CommitsNothing S.Store tx.old.conn.now tx.new.conn.now }
{
    let resolution = whole(poll.resolution)?;
    tx.execute(
        "UPDATE polls2 SET closed = ?3 WHERE meeting = ?1 AND resolution = ?2",
        params![
            meeting_text(&poll.meeting),
            resolution,
            moment_number(moment)
        ],
    )
}

/// Notes the count that is declared of a poll.
pub fn declare<S: Alter>(
    tx: &mut Transaction<'_, S>,
    poll: PollName,
    tally: Tally,
) -> Result<usize, Error>
    ensures same_reference { tx.new.conn.ghost_name ≡ tx.old.conn.ghost_name }
    ensures set { Does S.Store tx.old.conn.now tx.new.conn.now result
        (Sets polls (declared_with poll tally)) }
    ensures commits { CommitsNothing S.Store tx.old.conn.now tx.new.conn.now }
{
    let resolution = whole(poll.resolution)?;
    let votes_for = whole(tally.votes_for)?;
    let votes_against = whole(tally.votes_against)?;
    let withheld = whole(tally.withheld)?;
    let eligible = whole(tally.eligible)?;
    tx.execute(
        "UPDATE polls2 SET votes_for = ?3, votes_against = ?4, withheld = ?5, eligible = ?6 WHERE meeting = ?1 AND resolution = ?2",
        params![
            meeting_text(&poll.meeting),
            resolution,
            votes_for,
            votes_against,
            withheld,
            eligible
        ],
    )
}

/// Copies the rows of version 1, each under the number that it has there and as of the first session
/// of its meeting.
pub fn copy<S: Alter>(tx: &mut Transaction<'_, S>) -> Result<usize, Error>
    ensures same_reference { tx.new.conn.ghost_name ≡ tx.old.conn.ghost_name }
    ensures copied { Does S.Store tx.old.conn.now tx.new.conn.now result (Copies polls_before_sessions polls) }
    ensures typed { Does S.Store tx.old.conn.now tx.new.conn.now result
        (CopiesTyped polls_before_sessions_table polls_before_sessions polls) }
    ensures commits { CommitsNothing S.Store tx.old.conn.now tx.new.conn.now }
{
    tx.execute(
        "INSERT INTO polls2 (rowid, meeting, session, resolution, ordered, take, chair, started, closed, votes_for, votes_against, withheld, eligible) SELECT rowid, meeting, 1, resolution, ordered, take, chair, started, closed, votes_for, votes_against, withheld, eligible FROM polls ORDER BY rowid",
        &[],
    )
}
