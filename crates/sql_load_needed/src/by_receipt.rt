//! The lists of a meeting that stand in order of receipt, filed by the parties that each record
//! names.
ghost use Rattle.std.specs.Prelude.{◌≡◌, Err, MatchResult, filter, map};
ghost use Rattle.party_views.specs.Views.{meeting_at};
ghost use Rattle.sql_load.specs.declared.fault.LoadError.TheVariants.{Memory};
ghost use Rattle.row_source.specs.LookUps.{appointments_in, authorities_in, casts_in};
ghost use Rattle.row_source.specs.LookUps.{demands_in, endings_in, presences_in};
ghost use Rattle.sql_load.specs.MeetingRecords.{without_meeting};
ghost use Rattle.sql_load.specs.TableLookUps.{HoldsOfStoredOffice};
ghost use Rattle.proxy_rules.specs.Parties.{is_presence_of};
ghost use Rattle.vote_rules.specs.TallyLaws.{casts_on};

use desk_words::{
    Appointment, Authority, CastMark, DemandMark, Ending, Filed, Listing, MeetingId, Party,
    PresenceMark,
};
use keyed_seq::FiledBy;
use sql_load::LoadError;
use sql_load::query_records::records_found;
use sql_queries::{appointments, authorities, casts, demands, endings, presences};
use sql_rows::InMeeting;
use sql_stored::find;
use sqlite::{Alter, Transaction};
use std::alloc::Global;

/// The records that were found, without their meeting, filed. The fault is that of the finding, or
/// `Memory`.
fn filed<T: FiledBy + Drop>(
    alloc: Global,
    found: Result<Listing<InMeeting<T>>, LoadError>,
) -> Result<Filed<T>, LoadError>
    ensures { MatchResult found
        (λ all. MatchResult result (λ items. items ≡ map without_meeting all) (λ fault. fault ≡ Memory))
        (λ fault. result ≡ Err fault) }
{
    let mut items = Filed::new(alloc);
    for record in found?.into_vec() {
        items.push(record.item)?;
    }
    Ok(items)
}

/// The appointments of a meeting (section 324), in order of receipt.
pub(crate) fn appointments_of<S: Alter>(
    tx: &mut Transaction<'_, S>,
    alloc: Global,
    meeting: MeetingId,
) -> Result<Filed<Appointment>, LoadError>
    ensures same_reference { tx.new.conn.ghost_name ≡ tx.old.conn.ghost_name }
    ensures holds { HoldsOfStoredOffice S.Store tx.old.conn.now tx.new.conn.now result
        (λ office given. given ≡ appointments_in (meeting_at office meeting)) }
{
    filed(
        alloc,
        records_found(alloc, find::<appointments::OfMeeting, S>(tx, meeting)),
    )
}

/// The endings of appointments in a meeting (section 330), in order of receipt.
pub(crate) fn endings_of<S: Alter>(
    tx: &mut Transaction<'_, S>,
    alloc: Global,
    meeting: MeetingId,
) -> Result<Filed<Ending>, LoadError>
    ensures same_reference { tx.new.conn.ghost_name ≡ tx.old.conn.ghost_name }
    ensures holds { HoldsOfStoredOffice S.Store tx.old.conn.now tx.new.conn.now result
        (λ office ended. ended ≡ endings_in (meeting_at office meeting)) }
{
    filed(
        alloc,
        records_found(alloc, find::<endings::OfMeeting, S>(tx, meeting)),
    )
}

/// The authorities of representatives in a meeting (section 323), in order of receipt.
pub(crate) fn authorities_of<S: Alter>(
    tx: &mut Transaction<'_, S>,
    alloc: Global,
    meeting: MeetingId,
) -> Result<Filed<Authority>, LoadError>
    ensures same_reference { tx.new.conn.ghost_name ≡ tx.old.conn.ghost_name }
    ensures holds { HoldsOfStoredOffice S.Store tx.old.conn.now tx.new.conn.now result
        (λ office given. given ≡ authorities_in (meeting_at office meeting)) }
{
    filed(
        alloc,
        records_found(alloc, find::<authorities::OfMeeting, S>(tx, meeting)),
    )
}

/// The presences at a meeting (section 318), in order of receipt.
pub(crate) fn presences_of<S: Alter>(
    tx: &mut Transaction<'_, S>,
    alloc: Global,
    meeting: MeetingId,
) -> Result<Filed<PresenceMark>, LoadError>
    ensures same_reference { tx.new.conn.ghost_name ≡ tx.old.conn.ghost_name }
    ensures holds { HoldsOfStoredOffice S.Store tx.old.conn.now tx.new.conn.now result
        (λ office marks. marks ≡ presences_in (meeting_at office meeting)) }
{
    filed(
        alloc,
        records_found(alloc, find::<presences::OfMeeting, S>(tx, meeting)),
    )
}

/// The presence of a party at a meeting (section 318), if it is marked.
pub(crate) fn presence_of<S: Alter>(
    tx: &mut Transaction<'_, S>,
    alloc: Global,
    meeting: MeetingId,
    party: Party,
) -> Result<Filed<PresenceMark>, LoadError>
    ensures same_reference { tx.new.conn.ghost_name ≡ tx.old.conn.ghost_name }
    ensures holds { HoldsOfStoredOffice S.Store tx.old.conn.now tx.new.conn.now result
        (λ office marks. marks
        ≡ filter (is_presence_of party) (presences_in (meeting_at office meeting))) }
{
    filed(
        alloc,
        records_found(alloc, find::<presences::OfParty, S>(tx, (meeting, party))),
    )
}

/// The demands of polls in a meeting (sections 321 and 329), in order of receipt.
pub(crate) fn demands_of<S: Alter>(
    tx: &mut Transaction<'_, S>,
    alloc: Global,
    meeting: MeetingId,
) -> Result<Filed<DemandMark>, LoadError>
    ensures same_reference { tx.new.conn.ghost_name ≡ tx.old.conn.ghost_name }
    ensures holds { HoldsOfStoredOffice S.Store tx.old.conn.now tx.new.conn.now result
        (λ office demands. demands ≡ demands_in (meeting_at office meeting)) }
{
    filed(
        alloc,
        records_found(alloc, find::<demands::OfMeeting, S>(tx, meeting)),
    )
}

/// The votes on a resolution in a meeting (sections 284 and 322), in order of receipt.
pub(crate) fn casts_on<S: Alter>(
    tx: &mut Transaction<'_, S>,
    alloc: Global,
    meeting: MeetingId,
    resolution: u64,
) -> Result<Filed<CastMark>, LoadError>
    ensures same_reference { tx.new.conn.ghost_name ≡ tx.old.conn.ghost_name }
    ensures holds { HoldsOfStoredOffice S.Store tx.old.conn.now tx.new.conn.now result
        (λ office on. on ≡ casts_on resolution (casts_in (meeting_at office meeting))) }
{
    filed(
        alloc,
        records_found(
            alloc,
            find::<casts::OnResolution, S>(tx, (meeting, resolution)),
        ),
    )
}
