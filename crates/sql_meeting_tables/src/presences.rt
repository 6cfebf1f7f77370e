//! The table `presences2`: the parties that are present, in order of receipt (section 318).
ghost use Rattle.std.specs.Prelude.{◌≡◌, refl};
ghost use Rattle.sqlite.specs.Listing.{understood};
ghost use Rattle.sqlite_schema.specs.Names.{same_name};
ghost use Rattle.sqlite_tied.specs.Compute.{everything};
ghost use Rattle.sql_lemmas.proofs.Frames.{wide};
ghost use Rattle.sql_rows.specs.Marks.{presence_in};
ghost use Rattle.sql_schema.specs.Contents.{presences, presences_before_sessions};
ghost use Rattle.sql_schema.specs.CopiedRows.{Copies};
ghost use Rattle.sql_schema.specs.Statements.{CommitsNothing, Does};
ghost use Rattle.sql_schema.specs.Tables.{presences_before_sessions_table, presences_table, up_to_sessions};
ghost use Rattle.sql_meeting_tables.specs.Copying.{CopiesTyped};
ghost use Rattle.sql_stored.specs.Stored.{HasTexts, as_filed};

use desk_words::PresenceMark;
use sql_stored::{FiledTable, TableTexts, table_texts};
use sqlite::{Alter, Error, Transaction};

/// The name and the columns of the table, for a text of this form.
#[macro_export]
macro_rules! presences_text {
    ($form:ident $(, $more:literal)*) => {
        $form!("presences2", "meeting, session, party, moment", "seq" $(, $more)*)
    };
}

/// The parties that are present, in order of receipt (section 318).
pub struct Presences;

impl FiledTable for Presences {
    type Item = PresenceMark;

    ghost stands = { as_filed presences_table presences up_to_sessions };

    fn texts() -> TableTexts {
        presences_text!(
            table_texts,
            "?1, ?2, ?3, ?4",
            "CREATE TABLE presences2 (seq INTEGER PRIMARY KEY AUTOINCREMENT, meeting TEXT NOT NULL REFERENCES meetings (meeting), session INTEGER NOT NULL, party TEXT NOT NULL, moment INTEGER NOT NULL, UNIQUE (meeting, session, party)) STRICT"
        )
    }

    ghost filed = { unfold understood everything same_name presence_in in record {
      stored = record {
        makes = record { is = refl; alone = refl; plain = (refl, refl); defined = refl; full = refl };
        texts = wide (HasTexts presences presences_table) (λ others apart indexes views. record {
          lists = record { is = refl; plain = (refl, refl); unlisted = refl };
          counts = record { is = refl; plain = (refl, refl); unlisted = refl };
          adds = record { place = 15; is = refl; plain = (refl, refl); there = refl; numbered = refl };
        });
        listed = (refl, refl);
      };
      keeps = λ a b c d. (refl, λ id. refl);
      meant = refl;
    } };
}

/// Copies the rows of version 1, each under the number that it has there and as of the first session
/// of its meeting.
pub fn copy<S: Alter>(tx: &mut Transaction<'_, S>) -> Result<usize, Error>
    ensures same_reference { tx.new.conn.ghost_name ≡ tx.old.conn.ghost_name }
    ensures copied { Does S.Store tx.old.conn.now tx.new.conn.now result (Copies presences_before_sessions presences) }
    ensures typed { Does S.Store tx.old.conn.now tx.new.conn.now result
        (CopiesTyped presences_before_sessions_table presences_before_sessions presences) }
    ensures commits { CommitsNothing S.Store tx.old.conn.now tx.new.conn.now }
{
    tx.execute(
        "INSERT INTO presences2 (seq, meeting, session, party, moment) SELECT seq, meeting, 1, party, moment FROM presences ORDER BY seq",
        &[],
    )
}
