//! The tables of version 1 become those of version 2.
ghost use Rattle.std.specs.Prelude.{◌≡◌};
ghost use Rattle.sql_open.specs.Migration.{CopiesAll, DoesAll, EmptiesAll, MovesTables};
ghost use Rattle.sql_schema.specs.Statements.{CommitsNothing};

use crate::new_tables::make_later;
use sql_desk_tables::desk;
use sql_meeting_tables::demands_before_sessions::DemandsBeforeSessions;
use sql_meeting_tables::polls_before_sessions::PollsBeforeSessions;
use sql_meeting_tables::presences_before_sessions::PresencesBeforeSessions;
use sql_meeting_tables::{demands, polls, presences};
use sql_stored::empty;
use sqlite::{Alter, Error, Transaction};

/// Copies presences, demands and polls into the tables of version 2.
fn copy_tables<S: Alter>(tx: &mut Transaction<'_, S>) -> Result<(), Error>
    ensures same_reference { tx.new.conn.ghost_name ≡ tx.old.conn.ghost_name }
    ensures copied { DoesAll S.Store tx.old.conn.now tx.new.conn.now result
        (CopiesAll S.Store tx.old.conn.now tx.new.conn.now) }
    ensures commits { CommitsNothing S.Store tx.old.conn.now tx.new.conn.now }
{
    presences::copy(tx)?;
    demands::copy(tx)?;
    polls::copy(tx)?;
    Ok(())
}

/// Takes out every row of the tables of version 1 that were copied.
fn empty_tables<S: Alter>(tx: &mut Transaction<'_, S>) -> Result<(), Error>
    ensures same_reference { tx.new.conn.ghost_name ≡ tx.old.conn.ghost_name }
    ensures emptied { DoesAll S.Store tx.old.conn.now tx.new.conn.now result
        (EmptiesAll S.Store tx.old.conn.now tx.new.conn.now) }
    ensures commits { CommitsNothing S.Store tx.old.conn.now tx.new.conn.now }
{
    empty::<PresencesBeforeSessions, S>(tx)?;
    empty::<DemandsBeforeSessions, S>(tx)?;
    empty::<PollsBeforeSessions, S>(tx)?;
    Ok(())
}

/// Moves the tables of version 1 to version 2: the new tables and indexes are made, presences,
/// demands and polls stand in the new tables alone, and the version is noted. Nothing is committed.
pub(crate) fn move_tables<S: Alter>(tx: &mut Transaction<'_, S>) -> Result<(), Error>
    ensures same_reference { tx.new.conn.ghost_name ≡ tx.old.conn.ghost_name }
    ensures moves { MovesTables S.Store tx.old.conn.now tx.new.conn.now result }
{
    make_later(tx)?;
    copy_tables(tx)?;
    empty_tables(tx)?;
    desk::raise(tx)?;
    Ok(())
}
