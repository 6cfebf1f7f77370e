//! What the office's requests of the whole desk read.
ghost use Rattle.std.specs.Prelude.{◌≡◌, is_some, length};
ghost use Rattle.party_views.specs.Views.{meeting_at};
ghost use Rattle.sql_load.specs.TableLookUps.{HoldsOfStoredOffice};

use desk_words::{KeyRows, Listing, MeetingId};
use sql_desk_tables::keys::Keys;
use sql_load::query_records::{counted, first, records_found};
use sql_load::{LoadError, key_rows, listing};
use sql_queries::meetings;
use sql_rows::MeetingRow;
use sql_stored::find;
use sqlite::{Alter, Transaction};
use std::alloc::Global;

/// What the call of a meeting asks of those that are called.
#[derive(Clone, Copy, PartialEq, Eq)]
pub struct MeetingCount {
    /// Whether one has the name.
    pub is_named: bool,
    /// How many there are.
    pub held: usize,
}

/// The keys by which callers are known.
pub fn read_keys<S: Alter>(tx: &mut Transaction<'_, S>, alloc: Global) -> Result<KeyRows, LoadError>
    ensures same_reference { tx.new.conn.ghost_name ≡ tx.old.conn.ghost_name }
    ensures holds { HoldsOfStoredOffice S.Store tx.old.conn.now tx.new.conn.now result
        (λ office keys. keys ≡ office.keys) }
{
    let rows = listing::<Keys, S>(tx, alloc)?;
    key_rows(rows)
}

/// Whether a meeting has the name.
fn is_named<S: Alter>(
    tx: &mut Transaction<'_, S>,
    alloc: Global,
    meeting: MeetingId,
) -> Result<bool, LoadError>
    ensures same_reference { tx.new.conn.ghost_name ≡ tx.old.conn.ghost_name }
    ensures holds { HoldsOfStoredOffice S.Store tx.old.conn.now tx.new.conn.now result
        (λ office named. named ≡ is_some (meeting_at office meeting)) }
{
    let rows: Listing<MeetingRow> = records_found(alloc, find::<meetings::Named, S>(tx, meeting))?;
    Ok(first(rows).is_some())
}

/// How many meetings there are.
fn held<S: Alter>(tx: &mut Transaction<'_, S>) -> Result<usize, LoadError>
    ensures same_reference { tx.new.conn.ghost_name ≡ tx.old.conn.ghost_name }
    ensures holds { HoldsOfStoredOffice S.Store tx.old.conn.now tx.new.conn.now result
        (λ office held. held ≡ length office.meetings) }
{
    counted(meetings::count(tx))
}

/// How many meetings there are, and whether one has a name. No meeting is read but that of the name.
pub fn read_count<S: Alter>(
    tx: &mut Transaction<'_, S>,
    alloc: Global,
    meeting: MeetingId,
) -> Result<MeetingCount, LoadError>
    ensures same_reference { tx.new.conn.ghost_name ≡ tx.old.conn.ghost_name }
    ensures holds { HoldsOfStoredOffice S.Store tx.old.conn.now tx.new.conn.now result
        (λ office count. count
        ≡ record {
          is_named = is_some (meeting_at office meeting);
          held = length office.meetings;
        }) }
{
    let is_named = is_named(tx, alloc, meeting)?;
    let held = held(tx)?;
    Ok(MeetingCount { is_named, held })
}
