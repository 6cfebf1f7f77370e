//! Tables of rows of the meetings whose columns are described one by one: a record is added by its
//! parts.
ghost use Rattle.std.specs.Prelude.{◌≡◌};
ghost use Rattle.sql_rows.specs.Columns.{in_meeting};
ghost use Rattle.sql_rows.specs.declared.stored_records.InMeeting.{InMeeting};
ghost use Rattle.sql_lemmas.proofs.Counting.{counting_text};
ghost use Rattle.sql_schema.specs.SqlTexts.{adding_text, listing_text};
ghost use Rattle.sql_schema.specs.Statements.{Adds, CommitsNothing, Does};
ghost use Rattle.sql_stored.specs.Stored.{IsFiled, Stands};

use crate::table::{ReadTable, StoredTable, TableTexts, add_row};
use desk_words::MeetingId;
use sql_rows::{Columns, InMeeting, MeetingRecord};
use sqlite::{Alter, Error, Transaction};
use sqlite_value::value::ValueRef;

/// A table whose columns are a meeting and the parts of a record.
pub trait FiledTable {
    type Item: MeetingRecord;

    // How it is declared, what its rows mean, and how it is made.
    ghost stands: { Stands (InMeeting Self.Item) };

    /// The texts of its statements.
    fn texts() -> TableTexts
        ensures making { result.making.now ≡ stands.making }
        ensures listing { result.listing.now ≡ listing_text stands.declared }
        ensures counting { result.counting.now ≡ counting_text stands.declared }
        ensures adding { result.adding.now ≡ adding_text stands.declared };

    // The texts do what they say, and its rows keep the parts and mean what is made of them.
    ghost filed: { IsFiled stands (⟦<(MeetingId, <Self::Item as MeetingRecord>::Parts) as Columns>⟧.kinds)
        (in_meeting Self.Item.Parts.means Self.Item.of) };
}

impl<T: FiledTable> StoredTable for T {
    type Record = InMeeting<T::Item>;

    ghost stands = { T.stands };

    fn texts() -> TableTexts {
        <T as FiledTable>::texts()
    }

    ghost stored = { T.filed.stored };
}

impl<T: FiledTable> ReadTable for T {
    ghost reads_as = { T.filed.meant };
}

/// Adds a row of a meeting and of parts.
fn add_parts<'a, T: FiledTable, S: Alter>(
    tx: &mut Transaction<'_, S>,
    row: &'a (MeetingId, <T::Item as MeetingRecord>::Parts),
) -> Result<usize, Error>
    ensures same_reference { tx.new.conn.ghost_name ≡ tx.old.conn.ghost_name }
    ensures added { Does S.Store tx.old.conn.now tx.new.conn.now result
        (Adds T.stands.table (record { meeting = row.now.0; item = T.Item.of row.now.1 })) }
    ensures commits { CommitsNothing S.Store tx.old.conn.now tx.new.conn.now }
{
    let mut values: [ValueRef<'a>; 12] = [ValueRef::Null; 12];
    let mut at = 0;
    row.put(&mut at, &mut values)?;
    add_row::<T, S>(tx, &values[..at])
}

/// Adds a record of a meeting to a table. A number above 2^63 - 1 is an error, as `whole` says.
pub fn add<T: FiledTable, S: Alter>(
    tx: &mut Transaction<'_, S>,
    meeting: MeetingId,
    item: &T::Item,
) -> Result<usize, Error>
    ensures same_reference { tx.new.conn.ghost_name ≡ tx.old.conn.ghost_name }
    ensures added { Does S.Store tx.old.conn.now tx.new.conn.now result
        (Adds T.stands.table (record { meeting = meeting; item = item.now })) }
    ensures commits { CommitsNothing S.Store tx.old.conn.now tx.new.conn.now }
{
    let row = (meeting, item.parts());
    add_parts::<T, S>(tx, &row)
}
