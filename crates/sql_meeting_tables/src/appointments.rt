//! The table `appointments`: the appointments of proxies, in order of receipt (section 324).
ghost use Rattle.std.specs.Prelude.{◌≡◌, refl};
ghost use Rattle.sql_schema.specs.Contents.{appointments};
ghost use Rattle.sql_schema.specs.Statements.{Adds, CommitsNothing, Does};
ghost use Rattle.sql_schema.specs.Tables.{appointments_table, up_to_register};
ghost use Rattle.sql_schema.specs.SqlTexts.{filed_text};
ghost use Rattle.sqlite.specs.Listing.{understood};
ghost use Rattle.sqlite_schema.specs.Names.{same_name};
ghost use Rattle.sqlite_tied.specs.Compute.{everything};
ghost use Rattle.sql_lemmas.proofs.Frames.{wide_one};
ghost use Rattle.sql_stored.specs.Stored.{HasTexts};

use desk_words::{Appointment, MeetingId};
use sql_rows::{
    InMeeting, letters_of, meeting_text, moment_number, party_text, range_numbers, whole,
};
use sql_stored::{ReadTable, StoredTable, TableTexts, add_row, table_texts};
use sqlite::{Alter, Error, Transaction, params};
use std::alloc::Global;

/// The name and the columns of the table, for a text of this form.
#[macro_export]
macro_rules! appointments_text {
    ($form:ident $(, $more:literal)*) => {
        $form!("appointments", "meeting, member, number, proxy, first, last, instructions, moment", "seq" $(, $more)*)
    };
}

/// The appointments of proxies, in order of receipt (section 324).
pub struct Appointments;

impl StoredTable for Appointments {
    type Record = InMeeting<Appointment>;

    ghost stands = { record {
      declared = appointments_table;
      table = appointments;
      before = up_to_register;
      making = filed_text appointments_table;
    } };

    fn texts() -> TableTexts {
        appointments_text!(
            table_texts,
            "?1, ?2, ?3, ?4, ?5, ?6, ?7, ?8",
            "CREATE TABLE appointments (seq INTEGER PRIMARY KEY AUTOINCREMENT, meeting TEXT NOT NULL REFERENCES meetings (meeting), member TEXT NOT NULL, number INTEGER NOT NULL, proxy TEXT NOT NULL, first INTEGER NOT NULL, last INTEGER NOT NULL, instructions TEXT NOT NULL, moment INTEGER NOT NULL, UNIQUE (meeting, member, number)) STRICT"
        )
    }

    ghost stored = { unfold understood everything same_name in record {
      makes = record { is = refl; alone = refl; plain = (refl, refl); defined = refl; full = refl };
      texts = wide_one (HasTexts appointments appointments_table) (λ others apart indexes views. record {
        lists = record { is = refl; plain = (refl, refl); unlisted = refl };
        counts = record { is = refl; plain = (refl, refl); unlisted = refl };
        adds = record { place = 7; is = refl; plain = (refl, refl); there = refl; numbered = refl };
      });
      listed = (refl, refl);
    } };
}

impl ReadTable for Appointments {
    ghost reads_as = { refl };
}

/// Adds an appointment in a meeting.
pub fn add<S: Alter>(
    alloc: Global,
    tx: &mut Transaction<'_, S>,
    meeting: MeetingId,
    appointment: &Appointment,
) -> Result<usize, Error>
    ensures same_reference { tx.new.conn.ghost_name ≡ tx.old.conn.ghost_name }
    ensures added { Does S.Store tx.old.conn.now tx.new.conn.now result
        (Adds appointments (record { meeting = meeting; item = appointment.now })) }
    ensures commits { CommitsNothing S.Store tx.old.conn.now tx.new.conn.now }
{
    let number = whole(appointment.number)?;
    let (first, last) = range_numbers(appointment.range);
    let letters = letters_of(alloc, &appointment.instructions)?;
    add_row::<Appointments, S>(
        tx,
        params![
            meeting_text(&meeting),
            party_text(&appointment.member),
            number,
            party_text(&appointment.proxy),
            first,
            last,
            &letters,
            moment_number(appointment.moment)
        ],
    )
}
