//! The tables of a desk that holds nothing yet.
ghost use Rattle.std.specs.Prelude.{◌≡◌};
ghost use Rattle.sql_open.specs.NewTables.{IsMaking};
ghost use Rattle.sql_open.specs.NewDesk.{LeavesEmptyDesk};
ghost use Rattle.sql_schema.specs.Tables.{desk_schema, no_schema, schema_one, up_to_casts};
ghost use Rattle.sql_schema.specs.Tables.{up_to_presences_before_sessions, up_to_register};

use crate::new_tables::make_later;
use sql_desk_tables::closed::ClosedDays;
use sql_desk_tables::keys::Keys;
use sql_desk_tables::register::Register;
use sql_desk_tables::resolutions::Resolutions;
use sql_desk_tables::{desk, meetings};
use sql_meeting_tables::appointments::Appointments;
use sql_meeting_tables::authorities::Authorities;
use sql_meeting_tables::casts::Casts;
use sql_meeting_tables::demands_before_sessions::DemandsBeforeSessions;
use sql_meeting_tables::endings::Endings;
use sql_meeting_tables::indexes::{
    AppointmentsByProxy, AuthoritiesByPerson, CastsByVoter, DemandsBeforeSessionsByParty,
};
use sql_meeting_tables::polls_before_sessions::PollsBeforeSessions;
use sql_meeting_tables::presences_before_sessions::PresencesBeforeSessions;
use sql_stored::{make, make_index};
use sqlite::{Alter, Error, Transaction};

/// Makes the tables of the desk, of its meetings, and of their resolutions and registers.
fn make_meetings<S: Alter>(tx: &mut Transaction<'_, S>) -> Result<(), Error>
    ensures same_reference { tx.new.conn.ghost_name ≡ tx.old.conn.ghost_name }
    ensures made { IsMaking S.Store tx.old.conn.now tx.new.conn.now result
        no_schema up_to_register }
{
    desk::make(tx)?;
    make::<Keys, S>(tx)?;
    make::<ClosedDays, S>(tx)?;
    meetings::make(tx)?;
    make::<Resolutions, S>(tx)?;
    make::<Register, S>(tx)?;
    Ok(())
}

/// Makes the tables of what is handed in: appointments, endings, authorities and presences.
fn make_proxy_tables<S: Alter>(tx: &mut Transaction<'_, S>) -> Result<(), Error>
    ensures same_reference { tx.new.conn.ghost_name ≡ tx.old.conn.ghost_name }
    ensures made { IsMaking S.Store tx.old.conn.now tx.new.conn.now result
        up_to_register up_to_presences_before_sessions }
{
    make::<Appointments, S>(tx)?;
    make::<Endings, S>(tx)?;
    make::<Authorities, S>(tx)?;
    make::<PresencesBeforeSessions, S>(tx)?;
    Ok(())
}

/// Makes the tables of demands, polls and votes.
fn make_polls<S: Alter>(tx: &mut Transaction<'_, S>) -> Result<(), Error>
    ensures same_reference { tx.new.conn.ghost_name ≡ tx.old.conn.ghost_name }
    ensures made { IsMaking S.Store tx.old.conn.now tx.new.conn.now result
        up_to_presences_before_sessions up_to_casts }
{
    make::<DemandsBeforeSessions, S>(tx)?;
    make::<PollsBeforeSessions, S>(tx)?;
    make::<Casts, S>(tx)?;
    Ok(())
}

/// Makes the indexes of these tables.
fn make_indexes<S: Alter>(tx: &mut Transaction<'_, S>) -> Result<(), Error>
    ensures same_reference { tx.new.conn.ghost_name ≡ tx.old.conn.ghost_name }
    ensures made { IsMaking S.Store tx.old.conn.now tx.new.conn.now result
        up_to_casts schema_one }
{
    make_index::<AppointmentsByProxy, S>(tx)?;
    make_index::<AuthoritiesByPerson, S>(tx)?;
    make_index::<DemandsBeforeSessionsByParty, S>(tx)?;
    make_index::<CastsByVoter, S>(tx)?;
    Ok(())
}

/// Makes the tables and indexes of version 1, all empty.
pub(crate) fn make_first<S: Alter>(tx: &mut Transaction<'_, S>) -> Result<(), Error>
    ensures same_reference { tx.new.conn.ghost_name ≡ tx.old.conn.ghost_name }
    ensures made { IsMaking S.Store tx.old.conn.now tx.new.conn.now result
        no_schema schema_one }
{
    make_meetings(tx)?;
    make_proxy_tables(tx)?;
    make_polls(tx)?;
    make_indexes(tx)
}

/// Makes the tables and indexes, all empty: first those that version 1 has already.
fn make_tables<S: Alter>(tx: &mut Transaction<'_, S>) -> Result<(), Error>
    ensures same_reference { tx.new.conn.ghost_name ≡ tx.old.conn.ghost_name }
    ensures made { IsMaking S.Store tx.old.conn.now tx.new.conn.now result
        no_schema desk_schema }
{
    make_first(tx)?;
    make_later(tx)
}

/// Makes the tables of a desk that holds nothing, and notes their version.
pub(crate) fn make_empty_desk<S: Alter>(tx: &mut Transaction<'_, S>) -> Result<(), Error>
    ensures same_reference { tx.new.conn.ghost_name ≡ tx.old.conn.ghost_name }
    ensures made { LeavesEmptyDesk S.Store tx.old.conn.now tx.new.conn.now result }
{
    make_tables(tx)?;
    desk::add(tx)?;
    Ok(())
}
