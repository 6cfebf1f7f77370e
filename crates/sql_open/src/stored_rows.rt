//! How many rows the tables have whose rows name a meeting.
ghost use Rattle.std.specs.Prelude.{◌≡◌, ◌+◌, ℕ, MatchResult, Some};
ghost use Rattle.sqlite.specs.Tree.{Trees};
ghost use Rattle.sql_load.specs.LoadResults.{any_at_all};
ghost use Rattle.sql_load.specs.declared.fault.LoadError.TheVariants.{Memory};
ghost use Rattle.sql_open.specs.StoredRows.{rows_in, stored_rows};
ghost use Rattle.sql_load.specs.WholeReading.{IsReading};

use sql_desk_tables::register::Register;
use sql_desk_tables::resolutions::Resolutions;
use sql_desk_tables::sessions::Sessions;
use sql_load::LoadError;
use sql_load::query_records::counted;
use sql_meeting_tables::appointments::Appointments;
use sql_meeting_tables::authorities::Authorities;
use sql_meeting_tables::casts::Casts;
use sql_meeting_tables::demands::Demands;
use sql_meeting_tables::endings::Endings;
use sql_meeting_tables::polls::Polls;
use sql_meeting_tables::presences::Presences;
use sql_stored::{CountedTable, row_count};
use sqlite::{Alter, Transaction};

/// The sum of two counts. The fault is `Memory`: there is no room for so many.
pub(crate) fn added(some: usize, others: usize) -> Result<usize, LoadError>
    ensures { MatchResult result (λ sum. sum ≡ some + others) (λ fault. fault ≡ Memory) }
{
    some.checked_add(others).ok_or(LoadError::Memory)
}

/// How many rows a table has. Of as many as a statement can count, or more, the fault is `Memory`.
fn rows_in<T: CountedTable, S: Alter>(tx: &mut Transaction<'_, S>) -> Result<usize, LoadError>
    ensures same_reference { tx.new.conn.ghost_name ≡ tx.old.conn.ghost_name }
    ensures read { IsReading S.Store tx.old.conn.now tx.new.conn.now any_at_all result
        (λ trees. Some (rows_in T.table trees)) }
{
    let count = counted(row_count::<T, S>(tx))?;
    if count >= i64::MAX as usize {
        return Err(LoadError::Memory);
    }
    Ok(count)
}

/// Tables, the first in a pair with the others. The last stands before `()`.
trait CountedTables {
    // How many rows they have together.
    ghost rows: { Trees → ℕ };

    /// Counts the rows of each.
    fn count<S: Alter>(tx: &mut Transaction<'_, S>) -> Result<usize, LoadError>
        ensures same_reference { tx.new.conn.ghost_name ≡ tx.old.conn.ghost_name }
        ensures read { IsReading S.Store tx.old.conn.now tx.new.conn.now any_at_all result
            (λ trees. Some (rows trees)) };
}

impl<T: CountedTable> CountedTables for (T, ()) {
    ghost rows = { rows_in T.table };

    fn count<S: Alter>(tx: &mut Transaction<'_, S>) -> Result<usize, LoadError> {
        rows_in::<T, S>(tx)
    }
}

impl<T: CountedTable, R: CountedTables> CountedTables for (T, R) {
    ghost rows = { λ trees. rows_in T.table trees + R.rows trees };

    fn count<S: Alter>(tx: &mut Transaction<'_, S>) -> Result<usize, LoadError> {
        let first = rows_in::<T, S>(tx)?;
        let others = R::count(tx)?;
        added(first, others)
    }
}

/// The tables whose rows each name a meeting: those of what it is called with, and the others.
type Called = (Sessions, (Resolutions, (Register, Given)));

/// Those of what its members give, and the others.
type Given = (Appointments, (Endings, (Authorities, Polled)));

/// Those of who is present, of what is demanded, and of the polls and their votes.
type Polled = (Presences, (Demands, (Polls, (Casts, ()))));

/// How many rows of the tables name a meeting, which each of these rows does.
pub(crate) fn stored_rows<S: Alter>(tx: &mut Transaction<'_, S>) -> Result<usize, LoadError>
    ensures same_reference { tx.new.conn.ghost_name ≡ tx.old.conn.ghost_name }
    ensures read { IsReading S.Store tx.old.conn.now tx.new.conn.now any_at_all result
        (λ trees. Some (stored_rows trees)) }
{
    Called::count(tx)
}
