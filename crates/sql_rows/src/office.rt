//! Rows of the desk's version, the keys and the closed days.
ghost use Rattle.std.specs.Prelude.{◌≡◌};
ghost use Rattle.vocabulary.specs.Identity.{id};
ghost use Rattle.sql_rows.specs.Meanings.{RowAgreesExactly};
ghost use Rattle.sql_rows.specs.DeskRows.{version_in, key_row_in, closed_in};

use crate::column::{caller_in, day_in, key_in, number_in};
use crate::fault::RowError;
use crate::list::FromRow;
use crate::stored_records::Version;
use desk_words::{Day, KeyRow};
use sqlite::Row;
use std::alloc::Global;

impl FromRow for Version {
    ghost means = { version_in };

    #[tactic(auto, unfolding(crate::specs::DeskRows::version_in))]
    fn from_row(_: Global, row: &Row) -> Result<Version, RowError>
        ensures { RowAgreesExactly id result (version_in row.now) }
    {
        if number_in(row, 0)? != 1 {
            return Err(RowError::Unreadable);
        }
        let number = number_in(row, 1)?;
        Ok(Version { number })
    }
}

impl FromRow for KeyRow {
    ghost means = { key_row_in };

    #[tactic(auto, unfolding(crate::specs::DeskRows::key_row_in))]
    fn from_row(_: Global, row: &Row) -> Result<KeyRow, RowError>
        ensures { RowAgreesExactly id result (key_row_in row.now) }
    {
        let caller = caller_in(row, 0)?;
        let secret = key_in(row, 1)?;
        Ok(KeyRow { caller, secret })
    }
}

impl FromRow for Day {
    ghost means = { closed_in };

    #[tactic(auto, unfolding(crate::specs::DeskRows::closed_in))]
    fn from_row(_: Global, row: &Row) -> Result<Day, RowError>
        ensures { RowAgreesExactly id result (closed_in row.now) }
    {
        day_in(row, 0)
    }
}
