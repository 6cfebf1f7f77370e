//! The tables of version 1 that version 2 leaves empty.
ghost use Rattle.std.specs.Prelude.{◌≡◌, ◌==◌, length};
ghost use Rattle.sql_load.specs.LoadResults.{ReadAgrees, any_at_all};
ghost use Rattle.sql_load.specs.WholeReading.{IsReading};
ghost use Rattle.sql_model.specs.OfficeRecords.{are_left_empty, has_no_row};
ghost use Rattle.vocabulary.specs.OptionSteps.{guard};

use sql_load::LoadError;
use sql_meeting_tables::demands_before_sessions::DemandsBeforeSessions;
use sql_meeting_tables::polls_before_sessions::PollsBeforeSessions;
use sql_meeting_tables::presences_before_sessions::PresencesBeforeSessions;
use sql_stored::{ListedTable, all};
use sqlite::{Alter, Row, Transaction};

/// Takes rows where there are none. The fault is `NoOffice` only where there is one.
fn nothing(rows: Vec<Row>) -> Result<(), LoadError>
    ensures { ReadAgrees any_at_all result (guard (length rows.items == 0)) }
{
    if !rows.is_empty() {
        return Err(LoadError::NoOffice);
    }
    Ok(())
}

/// Reads that a table has no row. The fault is `NoOffice` only where it has one.
fn no_rows<T: ListedTable, S: Alter>(tx: &mut Transaction<'_, S>) -> Result<(), LoadError>
    ensures same_reference { tx.new.conn.ghost_name ≡ tx.old.conn.ghost_name }
    ensures read { IsReading S.Store tx.old.conn.now tx.new.conn.now any_at_all result
        (λ trees. guard (has_no_row T.table trees)) }
{
    nothing(all::<T, S>(tx)?)
}

/// Reads that the tables that version 2 leaves empty have no row. The fault is `NoOffice` only where
/// one has a row.
pub(crate) fn read_left<S: Alter>(tx: &mut Transaction<'_, S>) -> Result<(), LoadError>
    ensures same_reference { tx.new.conn.ghost_name ≡ tx.old.conn.ghost_name }
    ensures read { IsReading S.Store tx.old.conn.now tx.new.conn.now any_at_all result
        (λ trees. guard (are_left_empty trees)) }
{
    no_rows::<PresencesBeforeSessions, S>(tx)?;
    no_rows::<DemandsBeforeSessions, S>(tx)?;
    no_rows::<PollsBeforeSessions, S>(tx)
}
