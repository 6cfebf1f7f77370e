//! What the rows of a table mean, row by row.
ghost use Rattle.std.specs.Prelude.{◌≡◌, Option};
ghost use Rattle.vocabulary.specs.Identity.{id};
ghost use Rattle.sqlite.specs.Order.{Row as Values};
ghost use Rattle.sql_rows.specs.Meanings.{RowAgrees, all_meanings};

use crate::fault::RowError;
use sqlite::Row;
use std::alloc::Global;

/// What a row of a table means.
pub trait FromRow: Sized {
    ghost means: { Values → Option Self };

    /// What the row means. The fault is `Unreadable` only where it means nothing.
    fn from_row(alloc: Global, row: &Row) -> Result<Self, RowError>
        ensures { RowAgrees id result (means row.now) };
}

/// What each row means, in their order. The fault is `Unreadable` only where one of them means
/// nothing.
pub fn records<T: FromRow + Drop>(alloc: Global, rows: &[Row]) -> Result<Vec<T>, RowError>
    ensures { RowAgrees (λ v. v.items) result (all_meanings T.means rows.now) }
{
    let mut found = Vec::new(alloc);
    for row in rows {
        found.push(T::from_row(alloc, row)?)?;
    }
    Ok(found)
}
