//! The table `authorities`: the authorities of representatives, in order of receipt (section 323).
ghost use Rattle.std.specs.Prelude.{refl};
ghost use Rattle.sqlite.specs.Listing.{understood};
ghost use Rattle.sqlite_schema.specs.Names.{same_name};
ghost use Rattle.sqlite_tied.specs.Compute.{everything};
ghost use Rattle.sql_lemmas.proofs.Frames.{wide_one};
ghost use Rattle.sql_rows.specs.AppointmentRows.{authority_in};
ghost use Rattle.sql_schema.specs.Contents.{authorities};
ghost use Rattle.sql_schema.specs.Tables.{authorities_table, up_to_endings};
ghost use Rattle.sql_stored.specs.Stored.{HasTexts, as_filed};

use desk_words::Authority;
use sql_stored::{FiledTable, TableTexts, table_texts};

/// The name and the columns of the table, for a text of this form.
#[macro_export]
macro_rules! authorities_text {
    ($form:ident $(, $more:literal)*) => {
        $form!("authorities", "meeting, corporation, person, moment", "seq" $(, $more)*)
    };
}

/// The authorities of representatives, in order of receipt (section 323).
pub struct Authorities;

impl FiledTable for Authorities {
    type Item = Authority;

    ghost stands = { as_filed authorities_table authorities up_to_endings };

    fn texts() -> TableTexts {
        authorities_text!(
            table_texts,
            "?1, ?2, ?3, ?4",
            "CREATE TABLE authorities (seq INTEGER PRIMARY KEY AUTOINCREMENT, meeting TEXT NOT NULL REFERENCES meetings (meeting), corporation TEXT NOT NULL, person TEXT NOT NULL, moment INTEGER NOT NULL, UNIQUE (meeting, corporation, person)) STRICT"
        )
    }

    ghost filed = { unfold understood everything same_name authority_in in record {
      stored = record {
        makes = record { is = refl; alone = refl; plain = (refl, refl); defined = refl; full = refl };
        texts = wide_one (HasTexts authorities authorities_table) (λ others apart indexes views. record {
          lists = record { is = refl; plain = (refl, refl); unlisted = refl };
          counts = record { is = refl; plain = (refl, refl); unlisted = refl };
          adds = record { place = 9; is = refl; plain = (refl, refl); there = refl; numbered = refl };
        });
        listed = (refl, refl);
      };
      keeps = λ a b c d. (refl, λ id. refl);
      meant = refl;
    } };
}
