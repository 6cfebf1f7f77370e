//! The table `sessions`: the sessions to which meetings were adjourned, numbered from 2.
ghost use Rattle.std.specs.Prelude.{◌≡◌, refl};
ghost use Rattle.sql_schema.specs.Contents.{session_opened_at, sessions};
ghost use Rattle.sql_schema.specs.Statements.{Adds, CommitsNothing, Does, Sets};
ghost use Rattle.sql_schema.specs.Tables.{schema_one, sessions_table};
ghost use Rattle.sql_schema.specs.SqlTexts.{once_text};
ghost use Rattle.sqlite.specs.Listing.{understood};
ghost use Rattle.sqlite_schema.specs.Names.{same_name};
ghost use Rattle.sqlite_tied.specs.Compute.{everything};
ghost use Rattle.sql_lemmas.proofs.Frames.{wide};
ghost use Rattle.sql_stored.specs.Stored.{HasTexts};

use desk_words::{MeetingId, Moment, Session};
use sql_rows::{InMeeting, Numbered, meeting_text, moment_number, some_moment_number, whole};
use sql_stored::{ReadTable, StoredTable, TableTexts, add_row, table_texts};
use sqlite::{Alter, Error, Transaction, params};

/// The name and the columns of the table, for a text of this form.
#[macro_export]
macro_rules! sessions_text {
    ($form:ident $(, $more:literal)*) => {
        $form!("sessions", "meeting, number, appointed, opened", "rowid" $(, $more)*)
    };
}

/// The sessions to which meetings were adjourned, numbered from 2.
pub struct Sessions;

impl StoredTable for Sessions {
    type Record = InMeeting<Numbered<Session>>;

    ghost stands = { record {
      declared = sessions_table;
      table = sessions;
      before = schema_one;
      making = once_text sessions_table;
    } };

    fn texts() -> TableTexts {
        sessions_text!(
            table_texts,
            "?1, ?2, ?3, ?4",
            "CREATE TABLE sessions (meeting TEXT NOT NULL REFERENCES meetings (meeting), number INTEGER NOT NULL, appointed INTEGER NOT NULL, opened INTEGER, PRIMARY KEY (meeting, number)) STRICT"
        )
    }

    ghost stored = { unfold understood everything same_name in record {
      makes = record { is = refl; alone = refl; plain = (refl, refl); defined = refl; full = refl };
      texts = wide (HasTexts sessions sessions_table) (λ others apart indexes views. record {
        lists = record { is = refl; plain = (refl, refl); unlisted = refl };
        counts = record { is = refl; plain = (refl, refl); unlisted = refl };
        adds = record { place = 14; is = refl; plain = (refl, refl); there = refl; numbered = refl };
      });
      listed = (refl, refl);
    } };
}

impl ReadTable for Sessions {
    ghost reads_as = { refl };
}

/// Adds a further session of a meeting, with its number.
pub fn add<S: Alter>(
    tx: &mut Transaction<'_, S>,
    meeting: MeetingId,
    number: u64,
    session: &Session,
) -> Result<usize, Error>
    ensures same_reference { tx.new.conn.ghost_name ≡ tx.old.conn.ghost_name }
    ensures added { Does S.Store tx.old.conn.now tx.new.conn.now result
        (Adds sessions
        (record {
          meeting = meeting;
          item = record { number = number; item = session.now };
        })) }
    ensures commits { CommitsNothing S.Store tx.old.conn.now tx.new.conn.now }
{
    let number = whole(number)?;
    add_row::<Sessions, S>(
        tx,
        params![
            meeting_text(&meeting),
            number,
            moment_number(session.appointed),
            some_moment_number(session.opened)
        ],
    )
}

/// Notes when a further session of a meeting is opened.
pub fn open<S: Alter>(
    tx: &mut Transaction<'_, S>,
    meeting: MeetingId,
    number: u64,
    moment: Moment,
) -> Result<usize, Error>
    ensures same_reference { tx.new.conn.ghost_name ≡ tx.old.conn.ghost_name }
    ensures set { Does S.Store tx.old.conn.now tx.new.conn.now result
        (Sets sessions (session_opened_at meeting number moment)) }
    ensures commits { CommitsNothing S.Store tx.old.conn.now tx.new.conn.now }
{
    let number = whole(number)?;
    tx.execute(
        "UPDATE sessions SET opened = ?3 WHERE meeting = ?1 AND number = ?2",
        params![meeting_text(&meeting), number, moment_number(moment)],
    )
}
