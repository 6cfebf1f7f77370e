//! The table `resolutions`: the resolutions of which notice was given (section 283(6)).
ghost use Rattle.std.specs.Prelude.{◌≡◌, refl};
ghost use Rattle.sql_schema.specs.Contents.{resolutions};
ghost use Rattle.sql_schema.specs.Statements.{Adds, CommitsNothing, Does};
ghost use Rattle.sql_schema.specs.Tables.{resolutions_table, up_to_meetings};
ghost use Rattle.sql_schema.specs.SqlTexts.{once_text};
ghost use Rattle.sqlite.specs.Listing.{understood};
ghost use Rattle.sqlite_schema.specs.Names.{same_name};
ghost use Rattle.sqlite_tied.specs.Compute.{everything};
ghost use Rattle.sql_lemmas.proofs.Frames.{wide_one};
ghost use Rattle.sql_stored.specs.Stored.{HasTexts};

use desk_words::{MeetingId, Resolution};
use sql_rows::{InMeeting, Numbered, meeting_text, resolution_kind_text, text_value, whole};
use sql_stored::{ReadTable, StoredTable, TableTexts, add_row, table_texts};
use sqlite::{Alter, Error, Transaction, params};

/// The name and the columns of the table, for a text of this form.
#[macro_export]
macro_rules! resolutions_text {
    ($form:ident $(, $more:literal)*) => {
        $form!("resolutions", "meeting, number, kind, body", "rowid" $(, $more)*)
    };
}

/// The resolutions of which notice was given (section 283(6)).
pub struct Resolutions;

impl StoredTable for Resolutions {
    type Record = InMeeting<Numbered<Resolution>>;

    ghost stands = { record {
      declared = resolutions_table;
      table = resolutions;
      before = up_to_meetings;
      making = once_text resolutions_table;
    } };

    fn texts() -> TableTexts {
        resolutions_text!(
            table_texts,
            "?1, ?2, ?3, ?4",
            "CREATE TABLE resolutions (meeting TEXT NOT NULL REFERENCES meetings (meeting), number INTEGER NOT NULL, kind TEXT NOT NULL, body TEXT NOT NULL, PRIMARY KEY (meeting, number)) STRICT"
        )
    }

    ghost stored = { unfold understood everything same_name in record {
      makes = record { is = refl; alone = refl; plain = (refl, refl); defined = refl; full = refl };
      texts = wide_one (HasTexts resolutions resolutions_table) (λ others apart indexes views. record {
        lists = record { is = refl; plain = (refl, refl); unlisted = refl };
        counts = record { is = refl; plain = (refl, refl); unlisted = refl };
        adds = record { place = 5; is = refl; plain = (refl, refl); there = refl; numbered = refl };
      });
      listed = (refl, refl);
    } };
}

impl ReadTable for Resolutions {
    ghost reads_as = { refl };
}

/// Adds a resolution of a meeting, with its number.
pub fn add<S: Alter>(
    tx: &mut Transaction<'_, S>,
    meeting: MeetingId,
    number: u64,
    resolution: &Resolution,
) -> Result<usize, Error>
    ensures same_reference { tx.new.conn.ghost_name ≡ tx.old.conn.ghost_name }
    ensures added { Does S.Store tx.old.conn.now tx.new.conn.now result
        (Adds resolutions
        (record {
          meeting = meeting;
          item = record { number = number; item = resolution.now };
        })) }
    ensures commits { CommitsNothing S.Store tx.old.conn.now tx.new.conn.now }
{
    let number = whole(number)?;
    add_row::<Resolutions, S>(
        tx,
        params![
            meeting_text(&meeting),
            number,
            resolution_kind_text(resolution.kind),
            text_value(&resolution.text)
        ],
    )
}
