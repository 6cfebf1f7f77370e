//! The table `casts`: the votes, in order of receipt (sections 284 and 322).
ghost use Rattle.std.specs.Prelude.{◌≡◌, refl};
ghost use Rattle.sql_schema.specs.Contents.{casts};
ghost use Rattle.sql_schema.specs.Statements.{Adds, CommitsNothing, Does};
ghost use Rattle.sql_schema.specs.Tables.{casts_table, up_to_polls_before_sessions};
ghost use Rattle.sql_schema.specs.SqlTexts.{filed_text};
ghost use Rattle.sqlite.specs.Listing.{understood};
ghost use Rattle.sqlite_schema.specs.Names.{same_name};
ghost use Rattle.sqlite_tied.specs.Compute.{everything};
ghost use Rattle.sql_lemmas.proofs.Frames.{wide_one};
ghost use Rattle.sql_stored.specs.Stored.{HasTexts};

use desk_words::{CastMark, MeetingId};
use sql_rows::{InMeeting, cast_columns, meeting_text, moment_number, party_text, whole};
use sql_stored::{ReadTable, StoredTable, TableTexts, add_row, table_texts};
use sqlite::{Alter, Error, Transaction, params};

/// The name and the columns of the table, for a text of this form.
#[macro_export]
macro_rules! casts_text {
    ($form:ident $(, $more:literal)*) => {
        $form!("casts", "meeting, resolution, voter, capacity, member, first, last, way, moment", "seq" $(, $more)*)
    };
}

/// The votes, in order of receipt (sections 284 and 322).
pub struct Casts;

impl StoredTable for Casts {
    type Record = InMeeting<CastMark>;

    ghost stands = { record {
      declared = casts_table;
      table = casts;
      before = up_to_polls_before_sessions;
      making = filed_text casts_table;
    } };

    fn texts() -> TableTexts {
        casts_text!(
            table_texts,
            "?1, ?2, ?3, ?4, ?5, ?6, ?7, ?8, ?9",
            "CREATE TABLE casts (seq INTEGER PRIMARY KEY AUTOINCREMENT, meeting TEXT NOT NULL REFERENCES meetings (meeting), resolution INTEGER NOT NULL, voter TEXT NOT NULL, capacity TEXT NOT NULL, member TEXT, first INTEGER, last INTEGER, way TEXT, moment INTEGER NOT NULL) STRICT"
        )
    }

    ghost stored = { unfold understood everything same_name in record {
      makes = record { is = refl; alone = refl; plain = (refl, refl); defined = refl; full = refl };
      texts = wide_one (HasTexts casts casts_table) (λ others apart indexes views. record {
        lists = record { is = refl; plain = (refl, refl); unlisted = refl };
        counts = record { is = refl; plain = (refl, refl); unlisted = refl };
        adds = record { place = 13; is = refl; plain = (refl, refl); there = refl; numbered = refl };
      });
      listed = (refl, refl);
    } };
}

impl ReadTable for Casts {
    ghost reads_as = { refl };
}

/// Adds a vote in a meeting.
pub fn add<S: Alter>(
    tx: &mut Transaction<'_, S>,
    meeting: MeetingId,
    cast: &CastMark,
) -> Result<usize, Error>
    ensures same_reference { tx.new.conn.ghost_name ≡ tx.old.conn.ghost_name }
    ensures added { Does S.Store tx.old.conn.now tx.new.conn.now result
        (Adds casts (record { meeting = meeting; item = cast.now })) }
    ensures commits { CommitsNothing S.Store tx.old.conn.now tx.new.conn.now }
{
    let resolution = whole(cast.resolution)?;
    let columns = cast_columns(&cast.what);
    add_row::<Casts, S>(
        tx,
        params![
            meeting_text(&meeting),
            resolution,
            party_text(&cast.voter),
            columns.capacity,
            columns.member,
            columns.first,
            columns.last,
            columns.way,
            moment_number(cast.moment)
        ],
    )
}
