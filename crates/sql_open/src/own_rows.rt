//! What the rows of a table that name a meeting are.
ghost use Rattle.std.specs.Prelude.{◌≡◌, ◌∷◌, [], IfOk};
ghost use Rattle.sql_load.specs.LoadResults.{any_at_all};
ghost use Rattle.sql_open.specs.MeetingReading.{own_in, rows_of_meeting};
ghost use Rattle.sql_load.specs.WholeReading.{IsReading};
ghost use Rattle.sql_schema.specs.Statements.{ChangesNothing, IsRead};
ghost use Rattle.sqlite.specs.Held.{state};
ghost use Rattle.sqlite.specs.State.{IsUnchanged};

use desk_words::{Filed, Listing, MeetingId};
use keyed_seq::FiledBy;
use sql_load::LoadError;
use sql_load::query_records::{items, records_found};
use sql_rows::{FromRow, InMeeting};
use sql_stored::{ListedTable, Query, ReadTable, RowKey};
use sqlite::{Alter, Error, Row, Transaction};
use std::alloc::{AllocError, Global};

/// The rows of a table that name a meeting, in the order of their numbers.
fn own_rows<Q: Query<Key = MeetingId>, S: Alter>(
    tx: &mut Transaction<'_, S>,
    meeting: MeetingId,
) -> Result<Vec<Row>, Error>
    requires { Q.places ≡ 0 ∷ [] }
    ensures same_reference { tx.new.conn.ghost_name ≡ tx.old.conn.ghost_name }
    ensures rows { IsRead S.Store tx.old.conn.now tx.new.conn.now → IfOk result (λ rows.
        (rows.items ≡ rows_of_meeting Q.Table.table meeting (state S.Store tx.old.conn.now).now.trees)
        × IsUnchanged (state S.Store tx.old.conn.now) (state S.Store tx.new.conn.now)) }
    ensures changes { ChangesNothing S.Store tx.old.conn.now tx.new.conn.now }
{
    meeting.ask(tx, Q::finding())
}

/// What the rows of a table that name a meeting are, in the order of their numbers. The fault is
/// `NoOffice` only where one of them is no such record.
pub(crate) fn own<Q, T, S>(
    tx: &mut Transaction<'_, S>,
    alloc: Global,
    meeting: MeetingId,
) -> Result<Listing<T>, LoadError>
where
    Q: Query<Key = MeetingId>,
    Q::Table: ReadTable + ListedTable<Record = InMeeting<T>>,
    InMeeting<T>: FromRow,
    T: Drop,
    S: Alter,
    requires { Q.places ≡ 0 ∷ [] }
    ensures same_reference { tx.new.conn.ghost_name ≡ tx.old.conn.ghost_name }
    ensures read { IsReading S.Store tx.old.conn.now tx.new.conn.now any_at_all result
        (own_in Q.Table.table meeting) }
{
    items(alloc, records_found(alloc, own_rows::<Q, S>(tx, meeting)))
}

/// The items, filed by their keys. The error is want of memory.
pub(crate) fn filed<T: FiledBy + Drop>(
    alloc: Global,
    items: Listing<T>,
) -> Result<Filed<T>, AllocError>
    ensures { IfOk result (λ filed. filed ≡ items) }
{
    let mut filed = Filed::new(alloc);
    for item in items.into_vec() {
        filed.push(item)?;
    }
    Ok(filed)
}

/// The same, filed by their keys.
pub(crate) fn own_filed<Q, T, S>(
    tx: &mut Transaction<'_, S>,
    alloc: Global,
    meeting: MeetingId,
) -> Result<Filed<T>, LoadError>
where
    Q: Query<Key = MeetingId>,
    Q::Table: ReadTable + ListedTable<Record = InMeeting<T>>,
    InMeeting<T>: FromRow,
    T: FiledBy + Drop,
    S: Alter,
    requires { Q.places ≡ 0 ∷ [] }
    ensures same_reference { tx.new.conn.ghost_name ≡ tx.old.conn.ghost_name }
    ensures read { IsReading S.Store tx.old.conn.now tx.new.conn.now any_at_all result
        (own_in Q.Table.table meeting) }
{
    let items = own::<Q, T, S>(tx, alloc, meeting)?;
    Ok(filed(alloc, items)?)
}
