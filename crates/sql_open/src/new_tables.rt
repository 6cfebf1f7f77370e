//! The tables and indexes that version 2 has beyond version 1.
ghost use Rattle.std.specs.Prelude.{◌≡◌};
ghost use Rattle.sql_open.specs.NewTables.{IsMaking};
ghost use Rattle.sql_schema.specs.Tables.{desk_schema, schema_one, up_to_polls};

use sql_desk_tables::sessions::Sessions;
use sql_meeting_tables::demands::Demands;
use sql_meeting_tables::indexes::{CastsByResolution, DemandsByParty, PresencesByParty};
use sql_meeting_tables::polls::Polls;
use sql_meeting_tables::presences::Presences;
use sql_stored::{make, make_index};
use sqlite::{Alter, Error, Transaction};

/// Makes the tables of further sessions, and of presences, demands and polls in each session.
fn make_tables<S: Alter>(tx: &mut Transaction<'_, S>) -> Result<(), Error>
    ensures same_reference { tx.new.conn.ghost_name ≡ tx.old.conn.ghost_name }
    ensures made { IsMaking S.Store tx.old.conn.now tx.new.conn.now result schema_one up_to_polls }
{
    make::<Sessions, S>(tx)?;
    make::<Presences, S>(tx)?;
    make::<Demands, S>(tx)?;
    make::<Polls, S>(tx)?;
    Ok(())
}

/// Makes the indexes of these tables, and that of votes by the resolution.
fn make_indexes<S: Alter>(tx: &mut Transaction<'_, S>) -> Result<(), Error>
    ensures same_reference { tx.new.conn.ghost_name ≡ tx.old.conn.ghost_name }
    ensures made { IsMaking S.Store tx.old.conn.now tx.new.conn.now result
        up_to_polls desk_schema }
{
    make_index::<PresencesByParty, S>(tx)?;
    make_index::<DemandsByParty, S>(tx)?;
    make_index::<CastsByResolution, S>(tx)?;
    Ok(())
}

/// Makes the tables and indexes that version 2 has beyond version 1, beside its tables, which keep
/// their rows.
pub(crate) fn make_later<S: Alter>(tx: &mut Transaction<'_, S>) -> Result<(), Error>
    ensures same_reference { tx.new.conn.ghost_name ≡ tx.old.conn.ghost_name }
    ensures made { IsMaking S.Store tx.old.conn.now tx.new.conn.now result schema_one desk_schema }
{
    make_tables(tx)?;
    make_indexes(tx)
}
