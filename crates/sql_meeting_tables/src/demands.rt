//! The table `demands2`: the demands of polls, in order of receipt (sections 321 and 329).
ghost use Rattle.std.specs.Prelude.{◌≡◌, refl};
ghost use Rattle.sqlite.specs.Listing.{understood};
ghost use Rattle.sqlite_schema.specs.Names.{same_name};
ghost use Rattle.sqlite_tied.specs.Compute.{everything};
ghost use Rattle.sql_lemmas.proofs.Frames.{wide};
ghost use Rattle.sql_rows.specs.Marks.{demand_mark_in};
ghost use Rattle.sql_schema.specs.Contents.{demands, demands_before_sessions};
ghost use Rattle.sql_schema.specs.CopiedRows.{Copies};
ghost use Rattle.sql_schema.specs.Statements.{CommitsNothing, Does};
ghost use Rattle.sql_schema.specs.Tables.{demands_before_sessions_table, demands_table, up_to_presences};
ghost use Rattle.sql_meeting_tables.specs.Copying.{CopiesTyped};
ghost use Rattle.sql_stored.specs.Stored.{HasTexts, as_filed};

use desk_words::DemandMark;
use sql_stored::{FiledTable, TableTexts, table_texts};
use sqlite::{Alter, Error, Transaction};

/// The name and the columns of the table, for a text of this form.
#[macro_export]
macro_rules! demands_text {
    ($form:ident $(, $more:literal)*) => {
        $form!("demands2", "meeting, session, resolution, party, moment", "seq" $(, $more)*)
    };
}

/// The demands of polls, in order of receipt (sections 321 and 329).
pub struct Demands;

impl FiledTable for Demands {
    type Item = DemandMark;

    ghost stands = { as_filed demands_table demands up_to_presences };

    fn texts() -> TableTexts {
        demands_text!(
            table_texts,
            "?1, ?2, ?3, ?4, ?5",
            "CREATE TABLE demands2 (seq INTEGER PRIMARY KEY AUTOINCREMENT, meeting TEXT NOT NULL REFERENCES meetings (meeting), session INTEGER NOT NULL, resolution INTEGER NOT NULL, party TEXT NOT NULL, moment INTEGER NOT NULL, UNIQUE (meeting, session, resolution, party)) STRICT"
        )
    }

    ghost filed = { unfold understood everything same_name demand_mark_in in record {
      stored = record {
        makes = record { is = refl; alone = refl; plain = (refl, refl); defined = refl; full = refl };
        texts = wide (HasTexts demands demands_table) (λ others apart indexes views. record {
          lists = record { is = refl; plain = (refl, refl); unlisted = refl };
          counts = record { is = refl; plain = (refl, refl); unlisted = refl };
          adds = record { place = 16; is = refl; plain = (refl, refl); there = refl; numbered = refl };
        });
        listed = (refl, refl);
      };
      keeps = λ a b c d e. (refl, λ id. refl);
      meant = refl;
    } };
}

/// Copies the rows of version 1, each under the number that it has there and as of the first session
/// of its meeting.
pub fn copy<S: Alter>(tx: &mut Transaction<'_, S>) -> Result<usize, Error>
    ensures same_reference { tx.new.conn.ghost_name ≡ tx.old.conn.ghost_name }
    ensures copied { Does S.Store tx.old.conn.now tx.new.conn.now result (Copies demands_before_sessions demands) }
    ensures typed { Does S.Store tx.old.conn.now tx.new.conn.now result
        (CopiesTyped demands_before_sessions_table demands_before_sessions demands) }
    ensures commits { CommitsNothing S.Store tx.old.conn.now tx.new.conn.now }
{
    tx.execute(
        "INSERT INTO demands2 (seq, meeting, session, resolution, party, moment) SELECT seq, meeting, 1, resolution, party, moment FROM demands ORDER BY seq",
        &[],
    )
}
