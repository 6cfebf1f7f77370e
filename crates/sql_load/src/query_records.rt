//! The records that a query found.
ghost use Rattle.std.specs.Prelude.{◌≡◌, ◌∷◌, [], ℕ, pos, Err, MatchResult, Ok, map};
ghost use Rattle.sqlite.specs.declared.types.Value.TheVariants.{Int};
ghost use Rattle.std.specs.List.{slice_get};
ghost use Rattle.sql_rows.specs.Meanings.{all_meanings};
ghost use Rattle.sql_load.specs.LoadResults.{ReadAgrees, any_at_all, fault_of_error};
ghost use Rattle.sql_load.specs.declared.fault.LoadError.TheVariants.{Memory};
ghost use Rattle.sql_load.specs.MeetingRecords.{without_meeting};

use crate::fault::LoadError;
use desk_words::Listing;
use sql_rows::{Column, FromRow, InMeeting, records};
use sqlite::{Error, Row};
use std::alloc::Global;

/// The records that the rows are. The fault is that of the query, or `NoOffice` only where a row is
/// no such record.
pub fn records_found<T: FromRow + Drop>(
    alloc: Global,
    rows: Result<Vec<Row>, Error>,
) -> Result<Listing<T>, LoadError>
    ensures { MatchResult rows
        (λ rows. ReadAgrees any_at_all result (all_meanings T.means rows.items))
        (λ error. result ≡ Err (fault_of_error error)) }
{
    let rows = rows?;
    Ok(Listing::from_vec(records(alloc, &rows)?))
}

/// The records that were found, without their meeting. The fault is that of the finding, or
/// `Memory`.
pub fn items<T: Drop>(
    alloc: Global,
    found: Result<Listing<InMeeting<T>>, LoadError>,
) -> Result<Listing<T>, LoadError>
    ensures { MatchResult found
        (λ all. MatchResult result (λ items. items ≡ map without_meeting all) (λ fault. fault ≡ Memory))
        (λ fault. result ≡ Err fault) }
{
    let mut items = Listing::new(alloc);
    for record in found?.into_vec() {
        items.push(record.item)?;
    }
    Ok(items)
}

/// The first of the records, if there is one.
pub fn first<T: Drop>(records: Listing<T>) -> Option<T>
    ensures { result ≡ slice_get records 0 }
{
    records.into_vec().into_iter().next()
}

/// The number that a query counted. The fault is that of the query.
pub fn counted(rows: Result<Vec<Row>, Error>) -> Result<usize, LoadError>
    ensures { MatchResult rows
        (λ rows. (count : ℕ) → rows.items ≡ (Int (pos count) ∷ []) ∷ [] → result ≡ Ok count)
        (λ error. result ≡ Err (fault_of_error error)) }
{
    let rows = rows?;
    match rows.as_slice() {
        [row] => Ok(<u64 as Column>::read(row, 0)? as usize),
        _ => Err(LoadError::NoOffice),
    }
}
