//! What is read of a meeting first, and the lists that a request reads besides.
ghost use Rattle.std.specs.Prelude.{◌≡◌, [], None, filter, option_map};
ghost use Rattle.desk_words.specs.declared.office.MeetingLists.{MeetingLists};
ghost use Rattle.party_views.specs.PublicRead.{counted, counted_up_to};
ghost use Rattle.party_views.specs.Views.{meeting_at};
ghost use Rattle.office_decisions.specs.ListsRead.{first_read, poll_alone, with_polls};
ghost use Rattle.row_source.specs.LookUps.{appointments_in, authorities_in, casts_in, demands_in, endings_in, presences_in, register_in};
ghost use Rattle.sql_load.specs.TableLookUps.{HoldsOfStoredOffice};
ghost use Rattle.proxy_rules.specs.Parties.{is_presence_of};
ghost use Rattle.vote_rules.specs.TallyLaws.{casts_on};
ghost use Rattle.sql_load.specs.MeetingRecords.{AreOnItsResolutions};
ghost use Rattle.sql_load_needed.specs.MeetingParts.{with_meeting_of, with_shares_of};

use crate::by_receipt::{
    appointments_of, authorities_of, casts_on, demands_of, endings_of, presence_of, presences_of,
};
use desk_words::{
    Filed, Listing, Meeting, MeetingId, MeetingLists, OfficeRequest, Party, Poll, RegisterRow,
};
use sql_load::query_records::{items, records_found};
use sql_load::{LoadError, counted_of, meeting_for, meeting_of, polls_of, polls_on, register_rows};
use sql_queries::register;
use sql_stored::find;
use sqlite::{Alter, Transaction};
use std::alloc::Global;

/// The register of a meeting (section 113), in the order of members.
fn register_of<S: Alter>(
    tx: &mut Transaction<'_, S>,
    alloc: Global,
    meeting: MeetingId,
) -> Result<Listing<RegisterRow>, LoadError>
    ensures same_reference { tx.new.conn.ghost_name ≡ tx.old.conn.ghost_name }
    ensures holds { HoldsOfStoredOffice S.Store tx.old.conn.now tx.new.conn.now result
        (λ office rows. rows ≡ register_in (meeting_at office meeting)) }
{
    let rows = items(
        alloc,
        records_found(alloc, find::<register::OfMeeting, S>(tx, meeting)),
    )?;
    register_rows(rows)
}

/// A meeting with these polls, and nothing in place of its other lists.
fn with_polls(alloc: Global, meeting: Meeting, polls: Listing<Poll>) -> MeetingLists
    ensures { result ≡ with_polls meeting polls }
{
    MeetingLists {
        meeting,
        register: Listing::new(alloc),
        appointments: Filed::new(alloc),
        endings: Filed::new(alloc),
        authorities: Filed::new(alloc),
        presences: Filed::new(alloc),
        demands: Filed::new(alloc),
        polls,
        casts: Filed::new(alloc),
    }
}

/// The meeting of a name with its sessions and these of its polls, if there is one: of its
/// resolutions it is read whether the one that is asked for is among them.
fn meeting_with<S: Alter>(
    tx: &mut Transaction<'_, S>,
    alloc: Global,
    meeting: MeetingId,
    on: Option<u64>,
    polls: Listing<Poll>,
) -> Result<Option<MeetingLists>, LoadError>
    ensures same_reference { tx.new.conn.ghost_name ≡ tx.old.conn.ghost_name }
    ensures holds { HoldsOfStoredOffice S.Store tx.old.conn.now tx.new.conn.now result
        (λ office lists. AreOnItsResolutions (meeting_at office meeting) polls
        → lists ≡ option_map
        (λ (m : MeetingLists). with_polls (counted_up_to on m.meeting) polls)
        (meeting_at office meeting)) }
{
    let Some(found) = meeting_for(tx, alloc, meeting, on, polls.as_slice())? else {
        return Ok(None);
    };
    Ok(Some(with_polls(alloc, found, polls)))
}

/// The meeting of a name with its sessions alone.
fn meeting_alone<S: Alter>(
    tx: &mut Transaction<'_, S>,
    alloc: Global,
    meeting: MeetingId,
) -> Result<Option<MeetingLists>, LoadError>
    ensures same_reference { tx.new.conn.ghost_name ≡ tx.old.conn.ghost_name }
    ensures holds { HoldsOfStoredOffice S.Store tx.old.conn.now tx.new.conn.now result
        (λ office lists. lists ≡ option_map
        (λ (m : MeetingLists). with_polls (counted_up_to None m.meeting) [])
        (meeting_at office meeting)) }
{
    meeting_with(tx, alloc, meeting, None, Listing::new(alloc))
}

/// The meeting of a name with its sessions and all of its polls.
fn all_polls<S: Alter>(
    tx: &mut Transaction<'_, S>,
    alloc: Global,
    meeting: MeetingId,
) -> Result<Option<MeetingLists>, LoadError>
    ensures same_reference { tx.new.conn.ghost_name ≡ tx.old.conn.ghost_name }
    ensures holds { HoldsOfStoredOffice S.Store tx.old.conn.now tx.new.conn.now result
        (λ office lists. lists ≡ option_map
        (λ (m : MeetingLists). with_polls (counted_up_to None m.meeting) m.polls)
        (meeting_at office meeting)) }
{
    let polls = polls_of(tx, alloc, meeting)?;
    meeting_with(tx, alloc, meeting, None, polls)
}

/// The meeting of a name with its sessions and the poll on a resolution.
fn poll_alone<S: Alter>(
    tx: &mut Transaction<'_, S>,
    alloc: Global,
    meeting: MeetingId,
    resolution: u64,
) -> Result<Option<MeetingLists>, LoadError>
    ensures same_reference { tx.new.conn.ghost_name ≡ tx.old.conn.ghost_name }
    ensures holds { HoldsOfStoredOffice S.Store tx.old.conn.now tx.new.conn.now result
        (λ office lists. lists ≡ option_map (poll_alone resolution) (meeting_at office meeting)) }
{
    let polls = polls_on(tx, alloc, meeting, resolution)?;
    meeting_with(tx, alloc, meeting, Some(resolution), polls)
}

/// What the answer to a request reads of a meeting first, by its name; where there is none of that
/// name, none.
pub fn read_first<S: Alter>(
    tx: &mut Transaction<'_, S>,
    alloc: Global,
    meeting: MeetingId,
    asked: &OfficeRequest,
) -> Result<Option<MeetingLists>, LoadError>
    ensures same_reference { tx.new.conn.ghost_name ≡ tx.old.conn.ghost_name }
    ensures holds { HoldsOfStoredOffice S.Store tx.old.conn.now tx.new.conn.now result
        (λ office lists. lists ≡ option_map (first_read asked.now) (meeting_at office meeting)) }
{
    match asked {
        OfficeRequest::LoadRegister(_) | OfficeRequest::Presence(_) | OfficeRequest::OpenMeeting =>
            meeting_alone(tx, alloc, meeting),
        OfficeRequest::Adjourn(_) => all_polls(tx, alloc, meeting),
        OfficeRequest::Order(new) => poll_alone(tx, alloc, meeting, new.resolution),
        OfficeRequest::Start(resolution)
        | OfficeRequest::Close(resolution)
        | OfficeRequest::Declare(resolution) => poll_alone(tx, alloc, meeting, *resolution),
    }
}

/// Puts as many resolutions as the meeting has, of which none is read, in place of those that stand
/// in its lists.
pub(crate) fn add_count<S: Alter>(
    tx: &mut Transaction<'_, S>,
    alloc: Global,
    meeting: MeetingId,
    lists: &mut MeetingLists,
) -> Result<(), LoadError>
    ensures same_reference { tx.new.conn.ghost_name ≡ tx.old.conn.ghost_name }
    ensures holds { HoldsOfStoredOffice S.Store tx.old.conn.now tx.new.conn.now result
        (λ office _. lists.new
        ≡ with_meeting_of counted (meeting_at office meeting) lists.old) }
{
    if let Some(found) = counted_of(tx, alloc, meeting)? {
        lists.meeting = found;
    }
    Ok(())
}

/// Reads the resolutions of a meeting, of which one is carried or not (sections 282 and 283).
pub(crate) fn add_resolutions<S: Alter>(
    tx: &mut Transaction<'_, S>,
    alloc: Global,
    meeting: MeetingId,
    lists: &mut MeetingLists,
) -> Result<(), LoadError>
    ensures same_reference { tx.new.conn.ghost_name ≡ tx.old.conn.ghost_name }
    ensures holds { HoldsOfStoredOffice S.Store tx.old.conn.now tx.new.conn.now result
        (λ office _. lists.new
        ≡ with_meeting_of (λ m. m) (meeting_at office meeting) lists.old) }
{
    if let Some(found) = meeting_of(tx, alloc, meeting)? {
        lists.meeting = found;
    }
    Ok(())
}

/// Reads the register of a meeting into its lists. After a fault nothing is said of them.
pub(crate) fn add_register<S: Alter>(
    tx: &mut Transaction<'_, S>,
    alloc: Global,
    meeting: MeetingId,
    lists: &mut MeetingLists,
) -> Result<(), LoadError>
    ensures same_reference { tx.new.conn.ghost_name ≡ tx.old.conn.ghost_name }
    ensures holds { HoldsOfStoredOffice S.Store tx.old.conn.now tx.new.conn.now result
        (λ office _. lists.new
        ≡ record lists.old { register = register_in (meeting_at office meeting) }) }
{
    lists.register = register_of(tx, alloc, meeting)?;
    Ok(())
}

/// Reads the presence of one party.
pub(crate) fn add_presence<S: Alter>(
    tx: &mut Transaction<'_, S>,
    alloc: Global,
    meeting: MeetingId,
    party: Party,
    lists: &mut MeetingLists,
) -> Result<(), LoadError>
    ensures same_reference { tx.new.conn.ghost_name ≡ tx.old.conn.ghost_name }
    ensures holds { HoldsOfStoredOffice S.Store tx.old.conn.now tx.new.conn.now result
        (λ office _. lists.new
        ≡ record lists.old {
          presences = filter (is_presence_of party) (presences_in (meeting_at office meeting));
        }) }
{
    lists.presences = presence_of(tx, alloc, meeting, party)?;
    Ok(())
}

/// Reads the appointments (section 324).
fn add_appointments<S: Alter>(
    tx: &mut Transaction<'_, S>,
    alloc: Global,
    meeting: MeetingId,
    lists: &mut MeetingLists,
) -> Result<(), LoadError>
    ensures same_reference { tx.new.conn.ghost_name ≡ tx.old.conn.ghost_name }
    ensures holds { HoldsOfStoredOffice S.Store tx.old.conn.now tx.new.conn.now result
        (λ office _. lists.new
        ≡ record lists.old { appointments = appointments_in (meeting_at office meeting) }) }
{
    lists.appointments = appointments_of(tx, alloc, meeting)?;
    Ok(())
}

/// Reads the endings of appointments (section 330).
fn add_endings<S: Alter>(
    tx: &mut Transaction<'_, S>,
    alloc: Global,
    meeting: MeetingId,
    lists: &mut MeetingLists,
) -> Result<(), LoadError>
    ensures same_reference { tx.new.conn.ghost_name ≡ tx.old.conn.ghost_name }
    ensures holds { HoldsOfStoredOffice S.Store tx.old.conn.now tx.new.conn.now result
        (λ office _. lists.new
        ≡ record lists.old { endings = endings_in (meeting_at office meeting) }) }
{
    lists.endings = endings_of(tx, alloc, meeting)?;
    Ok(())
}

/// Reads the authorities (section 323).
fn add_authorities<S: Alter>(
    tx: &mut Transaction<'_, S>,
    alloc: Global,
    meeting: MeetingId,
    lists: &mut MeetingLists,
) -> Result<(), LoadError>
    ensures same_reference { tx.new.conn.ghost_name ≡ tx.old.conn.ghost_name }
    ensures holds { HoldsOfStoredOffice S.Store tx.old.conn.now tx.new.conn.now result
        (λ office _. lists.new
        ≡ record lists.old { authorities = authorities_in (meeting_at office meeting) }) }
{
    lists.authorities = authorities_of(tx, alloc, meeting)?;
    Ok(())
}

/// Reads the lists by which shares are counted: the register, the appointments, their endings and
/// the authorities.
pub(crate) fn add_shares<S: Alter>(
    tx: &mut Transaction<'_, S>,
    alloc: Global,
    meeting: MeetingId,
    lists: &mut MeetingLists,
) -> Result<(), LoadError>
    ensures same_reference { tx.new.conn.ghost_name ≡ tx.old.conn.ghost_name }
    ensures holds { HoldsOfStoredOffice S.Store tx.old.conn.now tx.new.conn.now result
        (λ office _. lists.new ≡ with_shares_of (meeting_at office meeting) lists.old) }
{
    add_register(tx, alloc, meeting, lists)?;
    add_appointments(tx, alloc, meeting, lists)?;
    add_endings(tx, alloc, meeting, lists)?;
    add_authorities(tx, alloc, meeting, lists)?;
    Ok(())
}

/// Reads the presences: by these a quorum is counted (section 318).
pub(crate) fn add_presences<S: Alter>(
    tx: &mut Transaction<'_, S>,
    alloc: Global,
    meeting: MeetingId,
    lists: &mut MeetingLists,
) -> Result<(), LoadError>
    ensures same_reference { tx.new.conn.ghost_name ≡ tx.old.conn.ghost_name }
    ensures holds { HoldsOfStoredOffice S.Store tx.old.conn.now tx.new.conn.now result
        (λ office _. lists.new
        ≡ record lists.old { presences = presences_in (meeting_at office meeting) }) }
{
    lists.presences = presences_of(tx, alloc, meeting)?;
    Ok(())
}

/// Reads the demands, the shares of which are counted (section 321).
pub(crate) fn add_demands<S: Alter>(
    tx: &mut Transaction<'_, S>,
    alloc: Global,
    meeting: MeetingId,
    lists: &mut MeetingLists,
) -> Result<(), LoadError>
    ensures same_reference { tx.new.conn.ghost_name ≡ tx.old.conn.ghost_name }
    ensures holds { HoldsOfStoredOffice S.Store tx.old.conn.now tx.new.conn.now result
        (λ office _. lists.new
        ≡ record lists.old { demands = demands_in (meeting_at office meeting) }) }
{
    lists.demands = demands_of(tx, alloc, meeting)?;
    Ok(())
}

/// Reads the votes on a resolution, which are counted (section 284).
pub(crate) fn add_casts<S: Alter>(
    tx: &mut Transaction<'_, S>,
    alloc: Global,
    meeting: MeetingId,
    resolution: u64,
    lists: &mut MeetingLists,
) -> Result<(), LoadError>
    ensures same_reference { tx.new.conn.ghost_name ≡ tx.old.conn.ghost_name }
    ensures holds { HoldsOfStoredOffice S.Store tx.old.conn.now tx.new.conn.now result
        (λ office _. lists.new
        ≡ record lists.old { casts = casts_on resolution (casts_in (meeting_at office meeting)) }) }
{
    lists.casts = casts_on(tx, alloc, meeting, resolution)?;
    Ok(())
}
