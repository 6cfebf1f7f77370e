//! The records of a party in a meeting, each looked up by the names that its row has.
ghost use Rattle.std.specs.Prelude.{◌≡◌, MatchResult, filter, length, map};
ghost use Rattle.std.specs.Option.{option_map_or};
ghost use Rattle.desk_words.specs.declared.records.PresenceMark.{PresenceMark};
ghost use Rattle.sql_load.specs.declared.fault.LoadError.TheVariants.{Memory};
ghost use Rattle.proxy_rules.specs.Holdings.{claim_of, is_ended_of, is_given_by};
ghost use Rattle.proxy_rules.specs.Parties.{authorises, is_authority_of, is_cast_by, is_demanded_by, is_presence_of, names};
ghost use Rattle.proxy_rules.specs.Shares.{row_of, shares_by, shares_of};
ghost use Rattle.party_views.specs.OwnCasts.{cast_count};
ghost use Rattle.party_views.specs.PartyRows.{presences_of};
ghost use Rattle.party_views.specs.Views.{meeting_at};
ghost use Rattle.row_source.specs.LookUps.{appointments_in, authorities_in, casts_by, casts_in, given_to_in, trusting_for_in};
ghost use Rattle.row_source.specs.LookUps.{demands_in, endings_in, presences_in, register_in};
ghost use Rattle.sql_load.specs.TableLookUps.{HoldsOfStoredOffice};

use desk_words::{
    Appointment, Authority, CastMark, DemandMark, Ending, Listing, MeetingId, Party, PresenceMark,
    RegisterRow,
};
use party_views::OwnCasts;
use proxy_rules::{Claim, claims_in, shares};
use row_source::GivenTo;
use sql_load::LoadError;
use sql_load::query_records::{counted, first, items, records_found};
use sql_queries::{appointments, authorities, casts, demands, endings, presences, register};
use sql_stored::find;
use sqlite::{Alter, Transaction};
use std::alloc::Global;

/// A member's row in the register (section 113), if it has one.
pub(crate) fn row_of<S: Alter>(
    tx: &mut Transaction<'_, S>,
    alloc: Global,
    meeting: MeetingId,
    member: Party,
) -> Result<Option<RegisterRow>, LoadError>
    ensures same_reference { tx.new.conn.ghost_name ≡ tx.old.conn.ghost_name }
    ensures holds { HoldsOfStoredOffice S.Store tx.old.conn.now tx.new.conn.now result
        (λ office row. row ≡ row_of (register_in (meeting_at office meeting)) member) }
{
    let rows = items(
        alloc,
        records_found(alloc, find::<register::OfMember, S>(tx, (meeting, member))),
    )?;
    Ok(first(rows))
}

/// How many shares a member of this row has.
fn shares_in(row: Option<RegisterRow>) -> u64
    ensures { result ≡ option_map_or shares_of row 0 }
{
    match row {
        Some(row) => shares(&row),
        None => 0,
    }
}

/// How many shares a member has.
pub(crate) fn shares_of<S: Alter>(
    tx: &mut Transaction<'_, S>,
    alloc: Global,
    meeting: MeetingId,
    member: Party,
) -> Result<u64, LoadError>
    ensures same_reference { tx.new.conn.ghost_name ≡ tx.old.conn.ghost_name }
    ensures holds { HoldsOfStoredOffice S.Store tx.old.conn.now tx.new.conn.now result
        (λ office shares. shares ≡ shares_by (register_in (meeting_at office meeting)) member) }
{
    let row = row_of(tx, alloc, meeting, member)?;
    Ok(shares_in(row))
}

/// The appointments that a member gave (section 324), in order of receipt.
pub(crate) fn given_by<S: Alter>(
    tx: &mut Transaction<'_, S>,
    alloc: Global,
    meeting: MeetingId,
    member: Party,
) -> Result<Listing<Appointment>, LoadError>
    ensures same_reference { tx.new.conn.ghost_name ≡ tx.old.conn.ghost_name }
    ensures holds { HoldsOfStoredOffice S.Store tx.old.conn.now tx.new.conn.now result
        (λ office given. given
        ≡ filter (is_given_by member) (appointments_in (meeting_at office meeting))) }
{
    items(
        alloc,
        records_found(
            alloc,
            find::<appointments::GivenBy, S>(tx, (meeting, member)),
        ),
    )
}

/// What of a member's appointments decides which shares they govern.
pub(crate) fn claims_by<S: Alter>(
    tx: &mut Transaction<'_, S>,
    alloc: Global,
    meeting: MeetingId,
    member: Party,
) -> Result<Listing<Claim>, LoadError>
    ensures same_reference { tx.new.conn.ghost_name ≡ tx.old.conn.ghost_name }
    ensures holds { HoldsOfStoredOffice S.Store tx.old.conn.now tx.new.conn.now result
        (λ office claims. claims
        ≡ map claim_of (filter (is_given_by member) (appointments_in (meeting_at office meeting)))) }
{
    let given = given_by(tx, alloc, meeting, member)?;
    let claims = claims_in(alloc, given.as_slice())?;
    Ok(Listing::from_vec(claims))
}

/// How many appointments a member gave, which are few.
pub(crate) fn count_given_by<S: Alter>(
    tx: &mut Transaction<'_, S>,
    alloc: Global,
    meeting: MeetingId,
    member: Party,
) -> Result<u64, LoadError>
    ensures same_reference { tx.new.conn.ghost_name ≡ tx.old.conn.ghost_name }
    ensures holds { HoldsOfStoredOffice S.Store tx.old.conn.now tx.new.conn.now result
        (λ office count. count
        ≡ length (filter (is_given_by member) (appointments_in (meeting_at office meeting)))) }
{
    let given = given_by(tx, alloc, meeting, member)?;
    Ok(given.len() as u64)
}

/// The appointments that name a party as their proxy (section 324), in order of receipt.
pub(crate) fn naming<S: Alter>(
    tx: &mut Transaction<'_, S>,
    alloc: Global,
    meeting: MeetingId,
    party: Party,
) -> Result<Listing<Appointment>, LoadError>
    ensures same_reference { tx.new.conn.ghost_name ≡ tx.old.conn.ghost_name }
    ensures holds { HoldsOfStoredOffice S.Store tx.old.conn.now tx.new.conn.now result
        (λ office received. received
        ≡ filter (names party) (appointments_in (meeting_at office meeting))) }
{
    items(
        alloc,
        records_found(alloc, find::<appointments::Naming, S>(tx, (meeting, party))),
    )
}

/// Those of the appointments that name a party.
fn naming_among(given: Listing<Appointment>, party: Party) -> Listing<Appointment>
    ensures { result ≡ filter (names party) given }
{
    let mut found = given.into_vec();
    found.retain(|appointment| appointment.proxy.is(party));
    Listing::from_vec(found)
}

/// Those of them that a member gave, and what of all that it gave decides which shares they govern.
/// All that the member gave are read by one statement, and are few.
pub(crate) fn given_to<S: Alter>(
    tx: &mut Transaction<'_, S>,
    alloc: Global,
    meeting: MeetingId,
    member: Party,
    party: Party,
) -> Result<GivenTo, LoadError>
    ensures same_reference { tx.new.conn.ghost_name ≡ tx.old.conn.ghost_name }
    ensures holds { HoldsOfStoredOffice S.Store tx.old.conn.now tx.new.conn.now result
        (λ office given. given ≡ given_to_in (meeting_at office meeting) member party) }
{
    let given = given_by(tx, alloc, meeting, member)?;
    let claims = claims_in(alloc, given.as_slice())?;
    Ok(GivenTo {
        received: naming_among(given, party),
        claims: Listing::from_vec(claims),
    })
}

/// A member's endings of its appointments (section 330), in order of receipt.
pub(crate) fn ended_by<S: Alter>(
    tx: &mut Transaction<'_, S>,
    alloc: Global,
    meeting: MeetingId,
    member: Party,
) -> Result<Listing<Ending>, LoadError>
    ensures same_reference { tx.new.conn.ghost_name ≡ tx.old.conn.ghost_name }
    ensures holds { HoldsOfStoredOffice S.Store tx.old.conn.now tx.new.conn.now result
        (λ office ended. ended
        ≡ filter (is_ended_of member) (endings_in (meeting_at office meeting))) }
{
    items(
        alloc,
        records_found(alloc, find::<endings::MadeBy, S>(tx, (meeting, member))),
    )
}

/// The authorities that a party gave (section 323), in order of receipt.
pub(crate) fn persons_of<S: Alter>(
    tx: &mut Transaction<'_, S>,
    alloc: Global,
    meeting: MeetingId,
    party: Party,
) -> Result<Listing<Authority>, LoadError>
    ensures same_reference { tx.new.conn.ghost_name ≡ tx.old.conn.ghost_name }
    ensures holds { HoldsOfStoredOffice S.Store tx.old.conn.now tx.new.conn.now result
        (λ office persons. persons
        ≡ filter (is_authority_of party) (authorities_in (meeting_at office meeting))) }
{
    items(
        alloc,
        records_found(alloc, find::<authorities::GivenBy, S>(tx, (meeting, party))),
    )
}

/// The authorities that were given to a party (section 323), in order of receipt.
pub(crate) fn trusting<S: Alter>(
    tx: &mut Transaction<'_, S>,
    alloc: Global,
    meeting: MeetingId,
    party: Party,
) -> Result<Listing<Authority>, LoadError>
    ensures same_reference { tx.new.conn.ghost_name ≡ tx.old.conn.ghost_name }
    ensures holds { HoldsOfStoredOffice S.Store tx.old.conn.now tx.new.conn.now result
        (λ office given. given
        ≡ filter (authorises party) (authorities_in (meeting_at office meeting))) }
{
    items(
        alloc,
        records_found(alloc, find::<authorities::Naming, S>(tx, (meeting, party))),
    )
}

/// Those of them that a corporation gave.
pub(crate) fn trusting_for<S: Alter>(
    tx: &mut Transaction<'_, S>,
    alloc: Global,
    meeting: MeetingId,
    corporation: Party,
    party: Party,
) -> Result<Listing<Authority>, LoadError>
    ensures same_reference { tx.new.conn.ghost_name ≡ tx.old.conn.ghost_name }
    ensures holds { HoldsOfStoredOffice S.Store tx.old.conn.now tx.new.conn.now result
        (λ office given. given ≡ trusting_for_in (meeting_at office meeting) corporation party) }
{
    items(
        alloc,
        records_found(
            alloc,
            find::<authorities::NamingBy, S>(tx, (meeting, corporation, party)),
        ),
    )
}

/// The marks of a party's presence (section 318), in order of receipt.
fn marks_of<S: Alter>(
    tx: &mut Transaction<'_, S>,
    alloc: Global,
    meeting: MeetingId,
    party: Party,
) -> Result<Listing<PresenceMark>, LoadError>
    ensures same_reference { tx.new.conn.ghost_name ≡ tx.old.conn.ghost_name }
    ensures holds { HoldsOfStoredOffice S.Store tx.old.conn.now tx.new.conn.now result
        (λ office marks. marks
        ≡ filter (is_presence_of party) (presences_in (meeting_at office meeting))) }
{
    items(
        alloc,
        records_found(alloc, find::<presences::OfParty, S>(tx, (meeting, party))),
    )
}

/// The sessions of these marks. The fault is want of memory.
fn sessions_of(alloc: Global, marks: &[PresenceMark]) -> Result<Listing<u64>, LoadError>
    ensures { MatchResult result
        (λ sessions. sessions ≡ map (λ (mark : PresenceMark). mark.session) marks.now)
        (λ fault. fault ≡ Memory) }
{
    let sessions: Vec<u64> = marks.iter().map(|mark| mark.session).collect(alloc)?;
    Ok(Listing::from_vec(sessions))
}

/// The sessions in which a party is marked present (section 318), in order of receipt.
pub(crate) fn presences_of<S: Alter>(
    tx: &mut Transaction<'_, S>,
    alloc: Global,
    meeting: MeetingId,
    party: Party,
) -> Result<Listing<u64>, LoadError>
    ensures same_reference { tx.new.conn.ghost_name ≡ tx.old.conn.ghost_name }
    ensures holds { HoldsOfStoredOffice S.Store tx.old.conn.now tx.new.conn.now result
        (λ office sessions. sessions
        ≡ presences_of party (presences_in (meeting_at office meeting))) }
{
    let marks = marks_of(tx, alloc, meeting, party)?;
    sessions_of(alloc, marks.as_slice())
}

/// The polls that a party demanded (sections 321 and 329), in order of receipt.
pub(crate) fn demands_of<S: Alter>(
    tx: &mut Transaction<'_, S>,
    alloc: Global,
    meeting: MeetingId,
    party: Party,
) -> Result<Listing<DemandMark>, LoadError>
    ensures same_reference { tx.new.conn.ghost_name ≡ tx.old.conn.ghost_name }
    ensures holds { HoldsOfStoredOffice S.Store tx.old.conn.now tx.new.conn.now result
        (λ office demands. demands
        ≡ filter (is_demanded_by party) (demands_in (meeting_at office meeting))) }
{
    items(
        alloc,
        records_found(alloc, find::<demands::MadeBy, S>(tx, (meeting, party))),
    )
}

/// The votes that a party cast (sections 284 and 322), in order of receipt.
pub(crate) fn casts_of<S: Alter>(
    tx: &mut Transaction<'_, S>,
    alloc: Global,
    meeting: MeetingId,
    party: Party,
) -> Result<Listing<CastMark>, LoadError>
    ensures same_reference { tx.new.conn.ghost_name ≡ tx.old.conn.ghost_name }
    ensures holds { HoldsOfStoredOffice S.Store tx.old.conn.now tx.new.conn.now result
        (λ office casts. casts ≡ filter (is_cast_by party) (casts_in (meeting_at office meeting))) }
{
    items(
        alloc,
        records_found(alloc, find::<casts::CastBy, S>(tx, (meeting, party))),
    )
}

/// How many votes a party cast on a resolution. A number past those that a column holds is looked
/// for among all of its votes.
pub(crate) fn count_cast_on<S: Alter>(
    tx: &mut Transaction<'_, S>,
    alloc: Global,
    meeting: MeetingId,
    party: Party,
    resolution: u64,
) -> Result<usize, LoadError>
    ensures same_reference { tx.new.conn.ghost_name ≡ tx.old.conn.ghost_name }
    ensures holds { HoldsOfStoredOffice S.Store tx.old.conn.now tx.new.conn.now result
        (λ office count. count
        ≡ cast_count (casts_by (meeting_at office meeting) party) resolution) }
{
    if resolution >= 1 << 63 {
        let casts = casts_of(tx, alloc, meeting, party)?;
        return Ok(OwnCasts::All(casts).count_on(resolution));
    }
    counted(casts::count_cast_on(tx, meeting, party, resolution))
}
