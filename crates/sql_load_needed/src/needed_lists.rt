//! Those of the closed days and of a meeting's lists that the answer to a request of the office
//! reads, once what it reads first is read.
ghost use Rattle.std.specs.Prelude.{◌≡◌, [], Some, filter};
ghost use Rattle.desk_words.specs.declared.office.MeetingLists.{MeetingLists};
ghost use Rattle.party_views.specs.Views.{meeting_at};
ghost use Rattle.party_views.specs.PublicRead.{counted};
ghost use Rattle.office_decisions.specs.ListsRead.{first_read};
ghost use Rattle.sql_load.specs.TableLookUps.{HoldsOfStoredOffice};
ghost use Rattle.proxy_rules.specs.Parties.{is_presence_of};
ghost use Rattle.row_source.specs.LookUps.{casts_in, demands_in, presences_in, register_in};
ghost use Rattle.vote_rules.specs.TallyLaws.{casts_on};
ghost use Rattle.sql_load_needed.specs.MeetingParts.{AreReadFor, IsReadWith, with_meeting_of, with_shares_of};

use crate::parts::{
    add_casts, add_count, add_demands, add_presence, add_presences, add_register, add_resolutions,
    add_shares,
};
use desk_words::{DayList, MeetingId, MeetingLists, OfficeRequest, Party};
use office_days::Closed;
use sql_desk_tables::desk;
use sql_load::{LoadError, read_closed};
use sqlite::{Alter, Transaction};
use std::alloc::Global;

/// What the answer to a request of the office in a meeting reads.
#[derive(Drop)]
pub struct OfficeReads {
    /// The closed days (section 1173), where shares are counted by cutoffs, or it is asked whether
    /// a poll is late (section 327), and else none.
    pub closed: Closed,
    /// The meeting with those of its lists that are read, and nothing in place of the others.
    pub lists: MeetingLists,
}

/// No closed days.
fn no_days(alloc: Global) -> Closed
    ensures { result ≡ [] }
{
    Closed::from_list(DayList::empty(alloc))
}

/// Reads nothing. The tables are asked all the same, for their version, and so are known to be open.
fn without_days<S: Alter>(tx: &mut Transaction<'_, S>, alloc: Global) -> Result<Closed, LoadError>
    ensures same_reference { tx.new.conn.ghost_name ≡ tx.old.conn.ghost_name }
    ensures holds { HoldsOfStoredOffice S.Store tx.old.conn.now tx.new.conn.now result
        (λ office closed. closed ≡ []) }
{
    desk::all(tx)?;
    Ok(no_days(alloc))
}

/// Reads what a register that is loaded is compared with.
fn for_register<S: Alter>(
    tx: &mut Transaction<'_, S>,
    alloc: Global,
    meeting: MeetingId,
    lists: &mut MeetingLists,
) -> Result<Closed, LoadError>
    ensures same_reference { tx.new.conn.ghost_name ≡ tx.old.conn.ghost_name }
    ensures holds { HoldsOfStoredOffice S.Store tx.old.conn.now tx.new.conn.now result
        (λ office closed. IsReadWith closed []
        lists.new (record lists.old { register = register_in (meeting_at office meeting) })) }
{
    add_register(tx, alloc, meeting, lists)?;
    Ok(no_days(alloc))
}

/// Reads what the mark of a presence reads besides.
fn for_presence<S: Alter>(
    tx: &mut Transaction<'_, S>,
    alloc: Global,
    meeting: MeetingId,
    party: Party,
    lists: &mut MeetingLists,
) -> Result<Closed, LoadError>
    ensures same_reference { tx.new.conn.ghost_name ≡ tx.old.conn.ghost_name }
    ensures holds { HoldsOfStoredOffice S.Store tx.old.conn.now tx.new.conn.now result
        (λ office closed. IsReadWith closed []
        lists.new (record lists.old {
          presences = filter (is_presence_of party) (presences_in (meeting_at office meeting));
        })) }
{
    add_presence(tx, alloc, meeting, party, lists)?;
    Ok(no_days(alloc))
}

/// Reads what the opening of a session reads besides.
fn for_opening<S: Alter>(
    tx: &mut Transaction<'_, S>,
    alloc: Global,
    meeting: MeetingId,
    lists: &mut MeetingLists,
) -> Result<Closed, LoadError>
    ensures same_reference { tx.new.conn.ghost_name ≡ tx.old.conn.ghost_name }
    ensures holds { HoldsOfStoredOffice S.Store tx.old.conn.now tx.new.conn.now result
        (λ office closed. let found = meeting_at office meeting in
        IsReadWith closed office.closed
        lists.new (record (with_shares_of found (with_meeting_of counted found lists.old)) {
          presences = presences_in found;
        })) }
{
    let closed = read_closed(tx, alloc)?;
    add_count(tx, alloc, meeting, lists)?;
    add_shares(tx, alloc, meeting, lists)?;
    add_presences(tx, alloc, meeting, lists)?;
    Ok(closed)
}

/// Reads what the order of a poll reads besides, where the chair does not order it.
fn for_demand<S: Alter>(
    tx: &mut Transaction<'_, S>,
    alloc: Global,
    meeting: MeetingId,
    lists: &mut MeetingLists,
) -> Result<Closed, LoadError>
    ensures same_reference { tx.new.conn.ghost_name ≡ tx.old.conn.ghost_name }
    ensures holds { HoldsOfStoredOffice S.Store tx.old.conn.now tx.new.conn.now result
        (λ office closed. let found = meeting_at office meeting in
        IsReadWith closed office.closed
        lists.new (record (with_shares_of found (with_meeting_of counted found lists.old)) {
          demands = demands_in found;
        })) }
{
    let closed = read_closed(tx, alloc)?;
    add_count(tx, alloc, meeting, lists)?;
    add_shares(tx, alloc, meeting, lists)?;
    add_demands(tx, alloc, meeting, lists)?;
    Ok(closed)
}

/// Reads what the declaration of a poll reads besides.
fn for_count<S: Alter>(
    tx: &mut Transaction<'_, S>,
    alloc: Global,
    meeting: MeetingId,
    resolution: u64,
    lists: &mut MeetingLists,
) -> Result<Closed, LoadError>
    ensures same_reference { tx.new.conn.ghost_name ≡ tx.old.conn.ghost_name }
    ensures holds { HoldsOfStoredOffice S.Store tx.old.conn.now tx.new.conn.now result
        (λ office closed. let found = meeting_at office meeting in
        IsReadWith closed office.closed
        lists.new (record (with_shares_of found (with_meeting_of (λ m. m) found lists.old)) {
          casts = casts_on resolution (casts_in found);
        })) }
{
    let closed = read_closed(tx, alloc)?;
    add_resolutions(tx, alloc, meeting, lists)?;
    add_shares(tx, alloc, meeting, lists)?;
    add_casts(tx, alloc, meeting, resolution, lists)?;
    Ok(closed)
}

/// Reads what the answer to a request reads besides into the meeting's lists, and returns the closed
/// days. After a fault nothing is said of the lists.
fn read_into<S: Alter>(
    tx: &mut Transaction<'_, S>,
    alloc: Global,
    meeting: MeetingId,
    asked: &OfficeRequest,
    lists: &mut MeetingLists,
) -> Result<Closed, LoadError>
    ensures same_reference { tx.new.conn.ghost_name ≡ tx.old.conn.ghost_name }
    ensures holds { HoldsOfStoredOffice S.Store tx.old.conn.now tx.new.conn.now result
        (λ office closed. (m : MeetingLists) → meeting_at office meeting ≡ Some m
        → lists.old ≡ first_read asked.now m
        → AreReadFor asked.now office m (record { closed = closed; lists = lists.new })) }
{
    match asked {
        OfficeRequest::LoadRegister(_) => for_register(tx, alloc, meeting, lists),
        OfficeRequest::Presence(party) => for_presence(tx, alloc, meeting, *party, lists),
        OfficeRequest::OpenMeeting => for_opening(tx, alloc, meeting, lists),
        OfficeRequest::Adjourn(_) => read_closed(tx, alloc),
        OfficeRequest::Order(new) if !new.chair => for_demand(tx, alloc, meeting, lists),
        OfficeRequest::Order(_) => without_days(tx, alloc),
        OfficeRequest::Start(_) | OfficeRequest::Close(_) => without_days(tx, alloc),
        OfficeRequest::Declare(resolution) => for_count(tx, alloc, meeting, *resolution, lists),
    }
}

/// What the answer to a request of the office in a meeting reads, once what it reads first is read:
/// the meeting's other lists as far as they are asked for, and the closed days.
pub fn read_rest<S: Alter>(
    tx: &mut Transaction<'_, S>,
    alloc: Global,
    meeting: MeetingId,
    mut lists: MeetingLists,
    asked: &OfficeRequest,
) -> Result<OfficeReads, LoadError>
    ensures same_reference { tx.new.conn.ghost_name ≡ tx.old.conn.ghost_name }
    ensures holds { HoldsOfStoredOffice S.Store tx.old.conn.now tx.new.conn.now result
        (λ office read. (m : MeetingLists) → meeting_at office meeting ≡ Some m
        → lists ≡ first_read asked.now m → AreReadFor asked.now office m read) }
{
    let closed = read_into(tx, alloc, meeting, asked, &mut lists)?;
    Ok(OfficeReads { closed, lists })
}
