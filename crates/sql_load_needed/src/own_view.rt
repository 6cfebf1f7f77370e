//! A party's own things in a meeting, read from the tables by its name and the meeting's.
ghost use Rattle.std.specs.Prelude.{◌≡◌, MatchResult};
ghost use Rattle.party_views.specs.OwnViews as own;
ghost use Rattle.party_views.specs.Views.{own_of};
ghost use Rattle.sql_load.specs.declared.fault.LoadError.TheVariants.{Memory};
ghost use Rattle.sql_load.specs.TableLookUps.{HoldsOfStoredOffice};

use crate::needed_rows::read_own_rows;
use desk_words::{MeetingId, Moment, Party};
use party_views::{OwnRows, OwnView, own_from};
use sql_load::{LoadError, OwnedRecord, read_public};
use sqlite::{Alter, Transaction};
use std::alloc::Global;

/// The own things that rows and a public record make. The fault is want of memory.
fn own_made(
    alloc: Global,
    rows: OwnRows,
    public: &OwnedRecord,
    now: Moment,
) -> Result<OwnView, LoadError>
    ensures { MatchResult result
        (λ made. made ≡ own.own_from rows public.now now) (λ fault. fault ≡ Memory) }
{
    Ok(own_from(alloc, rows, &public.record(), now)?)
}

/// The own things of a party in a meeting at a moment; where there is none of that name, its own
/// name alone.
pub fn read_own<S: Alter>(
    tx: &mut Transaction<'_, S>,
    alloc: Global,
    party: Party,
    meeting: MeetingId,
    now: Moment,
) -> Result<OwnView, LoadError>
    ensures same_reference { tx.new.conn.ghost_name ≡ tx.old.conn.ghost_name }
    ensures holds { HoldsOfStoredOffice S.Store tx.old.conn.now tx.new.conn.now result
        (λ office own. own ≡ own_of office party meeting now) }
{
    let public = read_public(tx, alloc, meeting)?;
    let rows = read_own_rows(tx, alloc, meeting, party)?;
    own_made(alloc, rows, &public, now)
}
