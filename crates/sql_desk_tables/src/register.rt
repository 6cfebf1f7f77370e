//! The table `register`: the rows of the registers (section 113).
ghost use Rattle.std.specs.Prelude.{◌++◌, ◌∷◌, ◌≡◌, IfOk, List, OnOk, Some, flat_map, refl, ℕ};
ghost use Rattle.vocabulary.specs.Names.{meeting_of, same_name};
ghost use Rattle.sql_schema.specs.Contents.{register};
ghost use Rattle.sql_schema.specs.Statements.{Adds, CommitsNothing, Does, TakesOut};
ghost use Rattle.sql_schema.specs.Tables.{register_table, up_to_resolutions};
ghost use Rattle.sql_desk_tables.specs.Together.{AddsAll, AreValuesOf, EachMeans, RowValues, rows_of_meeting, values_row};
ghost use Rattle.sqlite.specs.Values.{bound};
ghost use Rattle.sqlite.specs.declared.types.Value.TheVariants.{Text};
ghost use Rattle.sql_schema.specs.SqlTexts.{once_text};
ghost use Rattle.sqlite.specs.Listing.{understood};
ghost use Rattle.sqlite_schema.specs.Names.{same_name as same_column};
ghost use Rattle.sqlite_tied.specs.Compute.{everything};
ghost use Rattle.sql_lemmas.proofs.Frames.{wide_one};
ghost use Rattle.sql_stored.specs.Stored.{HasTexts};

use desk_words::{MeetingId, RegisterRow};
use sql_rows::{InMeeting, holder_kind_text, meeting_text, party_text, text_value, whole};
use sql_stored::{ReadTable, StoredTable, TableTexts, add_row, table_texts};
use sqlite::types::{ToSql, ValueRef};
use sqlite::{Alter, Error, Transaction, params};
use std::alloc::Global;

/// The name and the columns of the table, for a text of this form.
#[macro_export]
macro_rules! register_text {
    ($form:ident $(, $more:literal)*) => {
        $form!("register", "meeting, member, kind, name, shares, paid", "rowid" $(, $more)*)
    };
}

/// The rows of the registers (section 113).
pub struct Register;

impl StoredTable for Register {
    type Record = InMeeting<RegisterRow>;

    ghost stands = { record {
      declared = register_table;
      table = register;
      before = up_to_resolutions;
      making = once_text register_table;
    } };

    fn texts() -> TableTexts {
        register_text!(
            table_texts,
            "?1, ?2, ?3, ?4, ?5, ?6",
            "CREATE TABLE register (meeting TEXT NOT NULL REFERENCES meetings (meeting), member TEXT NOT NULL, kind TEXT NOT NULL, name TEXT NOT NULL, shares INTEGER NOT NULL, paid INTEGER NOT NULL, PRIMARY KEY (meeting, member)) STRICT"
        )
    }

    ghost stored = { unfold understood everything same_column in record {
      makes = record { is = refl; alone = refl; plain = (refl, refl); defined = refl; full = refl };
      texts = wide_one (HasTexts register register_table) (λ others apart indexes views. record {
        lists = record { is = refl; plain = (refl, refl); unlisted = refl };
        counts = record { is = refl; plain = (refl, refl); unlisted = refl };
        adds = record { place = 6; is = refl; plain = (refl, refl); there = refl; numbered = refl };
      });
      listed = (refl, refl);
    } };
}

impl ReadTable for Register {
    ghost reads_as = { refl };
}

/// How many rows `add_together` adds.
pub const TOGETHER: usize = 8;

/// Adds a row of a meeting's register.
pub fn add<S: Alter>(
    tx: &mut Transaction<'_, S>,
    meeting: MeetingId,
    holding: &RegisterRow,
) -> Result<usize, Error>
    ensures same_reference { tx.new.conn.ghost_name ≡ tx.old.conn.ghost_name }
    ensures added { Does S.Store tx.old.conn.now tx.new.conn.now result
        (Adds register (record { meeting = meeting; item = holding.now })) }
    ensures commits { CommitsNothing S.Store tx.old.conn.now tx.new.conn.now }
{
    let shares = whole(holding.shares)?;
    let paid = whole(holding.paid)?;
    add_row::<Register, S>(
        tx,
        params![
            meeting_text(&meeting),
            party_text(&holding.member),
            holder_kind_text(holding.kind),
            text_value(&holding.name),
            shares,
            paid
        ],
    )
}

/// Pushes the values of a row: its member, its kind, its name, its shares, and what is paid up on
/// each.
fn push_values<'a>(values: &mut Vec<ValueRef<'a>>, row: &'a RegisterRow) -> Result<(), Error>
    ensures { OnOk result ((v : RowValues) × AreValuesOf v row.now
        × (bound values.new.items ≡ bound values.old.items ++ values_row v)) }
{
    let shares = whole(row.shares)?;
    let paid = whole(row.paid)?;
    values.push(party_text(&row.member).to_sql())?;
    values.push(holder_kind_text(row.kind).to_sql())?;
    values.push(text_value(&row.name).to_sql())?;
    values.push(shares.to_sql())?;
    values.push(paid.to_sql())?;
    Ok(())
}

/// The name of a meeting, and behind it the values of rows of its register.
fn values_of<'a>(
    alloc: Global,
    meeting: &'a MeetingId,
    rows: &'a [RegisterRow],
) -> Result<Vec<ValueRef<'a>>, Error>
    ensures { IfOk result (λ values. (name : List ℕ) × (each : List RowValues)
        × (bound values.items ≡ Text name ∷ flat_map values_row each)
        × (meeting_of name ≡ Some meeting.now) × EachMeans each rows.now) }
{
    let mut values = Vec::new(alloc);
    values.push(meeting_text(meeting).to_sql())?;
    for row in rows {
        push_values(&mut values, row)?;
    }
    Ok(values)
}

/// Adds `TOGETHER` rows of a meeting's register by one statement, in their order.
pub fn add_together<S: Alter>(
    alloc: Global,
    tx: &mut Transaction<'_, S>,
    meeting: MeetingId,
    rows: &[RegisterRow; TOGETHER],
) -> Result<usize, Error>
    ensures same_reference { tx.new.conn.ghost_name ≡ tx.old.conn.ghost_name }
    ensures added { Does S.Store tx.old.conn.now tx.new.conn.now result
        (AddsAll register (rows_of_meeting meeting rows.now)) }
    ensures commits { CommitsNothing S.Store tx.old.conn.now tx.new.conn.now }
{
    let values = values_of(alloc, &meeting, rows)?;
    tx.execute(
        "INSERT INTO register (meeting, member, kind, name, shares, paid) VALUES (?1, ?2, ?3, ?4, ?5, ?6), (?1, ?7, ?8, ?9, ?10, ?11), (?1, ?12, ?13, ?14, ?15, ?16), (?1, ?17, ?18, ?19, ?20, ?21), (?1, ?22, ?23, ?24, ?25, ?26), (?1, ?27, ?28, ?29, ?30, ?31), (?1, ?32, ?33, ?34, ?35, ?36), (?1, ?37, ?38, ?39, ?40, ?41)",
        values.as_slice(),
    )
}

/// Takes out the rows of a meeting's register.
pub fn empty<S: Alter>(tx: &mut Transaction<'_, S>, meeting: MeetingId) -> Result<usize, Error>
    ensures same_reference { tx.new.conn.ghost_name ≡ tx.old.conn.ghost_name }
    ensures emptied { Does S.Store tx.old.conn.now tx.new.conn.now result
        (TakesOut register (λ holding. same_name holding.meeting meeting)) }
    ensures commits { CommitsNothing S.Store tx.old.conn.now tx.new.conn.now }
{
    tx.execute(
        "DELETE FROM register WHERE meeting = ?1",
        params![meeting_text(&meeting)],
    )
}
