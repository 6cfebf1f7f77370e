//! The table `endings`: the endings of appointments, in order of receipt (section 330).
ghost use Rattle.std.specs.Prelude.{refl};
ghost use Rattle.sqlite.specs.Listing.{understood};
ghost use Rattle.sqlite_schema.specs.Names.{same_name};
ghost use Rattle.sqlite_tied.specs.Compute.{everything};
ghost use Rattle.sql_lemmas.proofs.Frames.{wide_one};
ghost use Rattle.sql_rows.specs.AppointmentRows.{ending_in};
ghost use Rattle.sql_schema.specs.Contents.{endings};
ghost use Rattle.sql_schema.specs.Tables.{endings_table, up_to_appointments};
ghost use Rattle.sql_stored.specs.Stored.{HasTexts, as_filed};

use desk_words::Ending;
use sql_stored::{FiledTable, TableTexts, table_texts};

/// The name and the columns of the table, for a text of this form.
#[macro_export]
macro_rules! endings_text {
    ($form:ident $(, $more:literal)*) => {
        $form!("endings", "meeting, member, number, moment", "seq" $(, $more)*)
    };
}

/// The endings of appointments, in order of receipt (section 330).
pub struct Endings;

impl FiledTable for Endings {
    type Item = Ending;

    ghost stands = { as_filed endings_table endings up_to_appointments };

    fn texts() -> TableTexts {
        endings_text!(
            table_texts,
            "?1, ?2, ?3, ?4",
            "CREATE TABLE endings (seq INTEGER PRIMARY KEY AUTOINCREMENT, meeting TEXT NOT NULL REFERENCES meetings (meeting), member TEXT NOT NULL, number INTEGER NOT NULL, moment INTEGER NOT NULL, UNIQUE (meeting, member, number)) STRICT"
        )
    }

    ghost filed = { unfold understood everything same_name ending_in in record {
      stored = record {
        makes = record { is = refl; alone = refl; plain = (refl, refl); defined = refl; full = refl };
        texts = wide_one (HasTexts endings endings_table) (λ others apart indexes views. record {
          lists = record { is = refl; plain = (refl, refl); unlisted = refl };
          counts = record { is = refl; plain = (refl, refl); unlisted = refl };
          adds = record { place = 8; is = refl; plain = (refl, refl); there = refl; numbered = refl };
        });
        listed = (refl, refl);
      };
      keeps = λ a b c d. (refl, λ id. refl);
      meant = refl;
    } };
}
