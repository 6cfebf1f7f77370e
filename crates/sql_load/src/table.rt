//! What one table holds, read whole.
ghost use Rattle.std.specs.Prelude.{◌≡◌};
ghost use Rattle.sql_load.specs.WholeReading.{IsReading};
ghost use Rattle.sql_schema.specs.Statements.{records_in};
ghost use Rattle.sql_load.specs.LoadResults.{any_at_all};

use crate::fault::LoadError;
use desk_words::Listing;
use sql_rows::{FromRow, records};
use sql_stored::{ReadTable, all};
use sqlite::{Alter, Transaction};
use std::alloc::Global;

/// All records of a table, in the order of its rows. The fault is `NoOffice` only where a row is no
/// such record.
pub fn listing<T: ReadTable, S: Alter>(
    tx: &mut Transaction<'_, S>,
    alloc: Global,
) -> Result<Listing<T::Record>, LoadError>
where
    T::Record: FromRow + Drop,
    ensures same_reference { tx.new.conn.ghost_name ≡ tx.old.conn.ghost_name }
    ensures read { IsReading S.Store tx.old.conn.now tx.new.conn.now any_at_all result
        (records_in T.table) }
{
    let rows = all::<T, S>(tx)?;
    Ok(Listing::from_vec(records(alloc, &rows)?))
}
