//! What is decided of a call, from those rows of the tables that its answer reads.
ghost use Rattle.std.specs.Prelude.{◌≡◌, All, IfOk, IsTrue};
ghost use Rattle.desk_words.specs.Office.{is_office};
ghost use Rattle.desk_words.specs.Rulings as ruling;
ghost use Rattle.desk_words.specs.declared.office.OfficeLists.{OfficeLists};
ghost use Rattle.desk_words.specs.declared.request.DeskRequest.TheVariants as whole;
ghost use Rattle.desk_words.specs.declared.request.PartyRequest.TheVariants.{Notice};
ghost use Rattle.desk_deciding.specs.CachedRecords.{IsRecordOf};
ghost use Rattle.desk_deciding.specs.Deciding.{HoldsOfTables, IsDecided, IsDecidedAlways};
ghost use Rattle.meeting_core.specs.Decisions.{office_call, party_call};
ghost use Rattle.party_views.specs.Views.{public_of};

use crate::cached::{CachedRecord, cached_record};
use crate::load_errors::fault_of_book;
use desk_words::{
    Answer, Call, Change, DayList, DeskRequest, KeyRows, MeetingId, Moment, NewMeeting,
    OfficeRequest, Party, PartyRequest, Refusal, refuse,
};
use meeting_core::{
    Decides, decide_by, decide_call, decide_closed, decide_from_rows, decide_in_meeting,
    decide_keys, go_on_in_meeting,
};
use row_source::no_own_rows;
use sql_desk_tables::desk;
use sql_load::{LoadError, OwnedRecord, read_public};
use sql_load_needed::{
    OfficeReads, read_closed, read_count, read_first, read_keys, read_own_rows_for, read_rest,
};
use sqlite::{Alter, Transaction};
use std::alloc::{AllocError, Global};

/// What is decided of a notice, from the meeting's public record (section 307). No rows of the party
/// are read. The error is want of memory.
pub fn answer_notice(
    alloc: Global,
    now: Moment,
    party: Party,
    meeting: MeetingId,
    public: &OwnedRecord,
) -> Result<Answer<Change>, AllocError>
    ensures { IfOk result (λ answer. (office : OfficeLists)
        → public.now ≡ public_of office meeting → IsTrue (is_office office)
        → IsDecided (party_call party meeting now Notice) office answer) }
{
    let rows = no_own_rows(alloc, party);
    let notice = PartyRequest::Notice;
    decide_from_rows(alloc, meeting, &public.record(), rows, now, &notice)
}

/// What is decided of a notice, from what the tables hold of the meeting for everyone.
fn decide_notice<S: Alter>(
    tx: &mut Transaction<'_, S>,
    alloc: Global,
    now: Moment,
    party: Party,
    meeting: MeetingId,
) -> Result<Answer<Change>, LoadError>
    ensures same_reference { tx.new.conn.ghost_name ≡ tx.old.conn.ghost_name }
    ensures holds { HoldsOfTables S.Store tx.old.conn.now tx.new.conn.now result
        (IsDecided (party_call party meeting now Notice)) }
{
    let public = read_public(tx, alloc, meeting)?;
    let answer = answer_notice(alloc, now, party, meeting, &public)?;
    Ok(answer)
}

/// What is decided of what a party asks in a meeting, from a public record of the meeting and from
/// what the tables hold of the party in it.
fn decide_by_rows<S: Alter>(
    tx: &mut Transaction<'_, S>,
    alloc: Global,
    now: Moment,
    party: Party,
    meeting: MeetingId,
    asked: &PartyRequest,
    public: &OwnedRecord,
) -> Result<Answer<Change>, LoadError>
    ensures same_reference { tx.new.conn.ghost_name ≡ tx.old.conn.ghost_name }
    ensures holds { HoldsOfTables S.Store tx.old.conn.now tx.new.conn.now result
        (λ office answer. public.now ≡ public_of office meeting
        → IsDecided (party_call party meeting now asked.now) office answer) }
{
    let rows = read_own_rows_for(tx, alloc, meeting, party, asked)?;
    let answer = decide_from_rows(alloc, meeting, &public.record(), rows, now, asked)?;
    Ok(answer)
}

/// What is decided of what a party asks in a meeting, from what the tables hold of the meeting for
/// everyone and of the party in it.
fn decide_by_tables<S: Alter>(
    tx: &mut Transaction<'_, S>,
    alloc: Global,
    now: Moment,
    party: Party,
    meeting: MeetingId,
    asked: &PartyRequest,
) -> Result<Answer<Change>, LoadError>
    ensures same_reference { tx.new.conn.ghost_name ≡ tx.old.conn.ghost_name }
    ensures holds { HoldsOfTables S.Store tx.old.conn.now tx.new.conn.now result
        (IsDecided (party_call party meeting now asked.now)) }
{
    let public = read_public(tx, alloc, meeting)?;
    decide_by_rows(tx, alloc, now, party, meeting, asked, &public)
}

/// What is decided of what a party asks in a meeting whose public record is not cached.
fn decide_uncached<S: Alter>(
    tx: &mut Transaction<'_, S>,
    alloc: Global,
    now: Moment,
    party: Party,
    meeting: MeetingId,
    asked: &PartyRequest,
) -> Result<Answer<Change>, LoadError>
    ensures same_reference { tx.new.conn.ghost_name ≡ tx.old.conn.ghost_name }
    ensures holds { HoldsOfTables S.Store tx.old.conn.now tx.new.conn.now result
        (IsDecided (party_call party meeting now asked.now)) }
{
    match asked {
        PartyRequest::Notice => decide_notice(tx, alloc, now, party, meeting),
        _ => decide_by_tables(tx, alloc, now, party, meeting, asked),
    }
}

/// What is decided of what a party asks in a meeting. Its public record is read where it is not among
/// those that are cached.
fn decide_for_party<S: Alter>(
    tx: &mut Transaction<'_, S>,
    alloc: Global,
    now: Moment,
    party: Party,
    meeting: MeetingId,
    asked: &PartyRequest,
    cached: &[CachedRecord],
) -> Result<Answer<Change>, LoadError>
    ensures same_reference { tx.new.conn.ghost_name ≡ tx.old.conn.ghost_name }
    ensures holds { HoldsOfTables S.Store tx.old.conn.now tx.new.conn.now result
        (λ office answer. All (IsRecordOf office) cached.now
        → IsDecided (party_call party meeting now asked.now) office answer) }
{
    match cached_record(cached, meeting) {
        Some(public) => decide_by_rows(tx, alloc, now, party, meeting, asked, public),
        None => decide_uncached(tx, alloc, now, party, meeting, asked),
    }
}

/// What is decided of what the office asks in a meeting: from what is read of the meeting first,
/// where it is refused at once, and else from those of the closed days and of the meeting's other
/// lists too that the answer reads.
fn decide_for_office<S: Alter>(
    tx: &mut Transaction<'_, S>,
    alloc: Global,
    now: Moment,
    meeting: MeetingId,
    asked: &OfficeRequest,
) -> Result<Answer<Change>, LoadError>
    ensures same_reference { tx.new.conn.ghost_name ≡ tx.old.conn.ghost_name }
    ensures holds { HoldsOfTables S.Store tx.old.conn.now tx.new.conn.now result
        (IsDecided (office_call meeting now asked.now)) }
{
    let found = read_first(tx, alloc, meeting, asked)?;
    let lists = match go_on_in_meeting(found, now, asked) {
        Ok(lists) => lists,
        Err(refused) => return Ok(refused),
    };
    let read = read_rest(tx, alloc, meeting, lists, asked)?;
    let OfficeReads { closed, lists } = read;
    decide_in_meeting(alloc, meeting, &closed, Some(lists), now, asked).map_err(fault_of_book)
}

/// What is decided of the call of a meeting, from how many meetings there are and whether one has
/// its name.
fn decide_new_meeting<S: Alter>(
    tx: &mut Transaction<'_, S>,
    alloc: Global,
    new: &NewMeeting,
) -> Result<Answer<Change>, LoadError>
    ensures same_reference { tx.new.conn.ghost_name ≡ tx.old.conn.ghost_name }
    ensures holds { HoldsOfTables S.Store tx.old.conn.now tx.new.conn.now result
        (IsDecidedAlways (whole.CallMeeting new.now)) }
{
    let count = read_count(tx, alloc, new.meeting)?;
    let answer = decide_call(alloc, count.is_named, count.held, new)?;
    Ok(answer)
}

/// What is decided of a list of closed days, from the one that is held.
fn decide_closed_days<S: Alter>(
    tx: &mut Transaction<'_, S>,
    alloc: Global,
    days: &DayList,
) -> Result<Answer<Change>, LoadError>
    ensures same_reference { tx.new.conn.ghost_name ≡ tx.old.conn.ghost_name }
    ensures holds { HoldsOfTables S.Store tx.old.conn.now tx.new.conn.now result
        (IsDecidedAlways (whole.ClosedDays days.now)) }
{
    let held = read_closed(tx, alloc)?;
    let answer = decide_closed(&held, days)?;
    Ok(answer)
}

/// What is decided of a list of keys, from the one that is held.
fn decide_new_keys<S: Alter>(
    tx: &mut Transaction<'_, S>,
    alloc: Global,
    rows: &KeyRows,
) -> Result<Answer<Change>, LoadError>
    ensures same_reference { tx.new.conn.ghost_name ≡ tx.old.conn.ghost_name }
    ensures holds { HoldsOfTables S.Store tx.old.conn.now tx.new.conn.now result
        (IsDecidedAlways (whole.Keys rows.now)) }
{
    let held = read_keys(tx, alloc)?;
    let answer = decide_keys(&held, rows)?;
    Ok(answer)
}

/// What is decided of what the office asks of the whole desk: no meeting's lists are read.
fn decide_for_desk<S: Alter>(
    tx: &mut Transaction<'_, S>,
    alloc: Global,
    asked: &DeskRequest,
) -> Result<Answer<Change>, LoadError>
    ensures same_reference { tx.new.conn.ghost_name ≡ tx.old.conn.ghost_name }
    ensures holds { HoldsOfTables S.Store tx.old.conn.now tx.new.conn.now result
        (IsDecidedAlways asked.now) }
{
    match asked {
        DeskRequest::CallMeeting(new) => decide_new_meeting(tx, alloc, new),
        DeskRequest::ClosedDays(days) => decide_closed_days(tx, alloc, days),
        DeskRequest::Keys(rows) => decide_new_keys(tx, alloc, rows),
    }
}

/// A refusal, for which nothing is read. The tables are asked all the same, for their version, and
/// so are known to be open.
fn refused<S: Alter>(
    tx: &mut Transaction<'_, S>,
    refusal: Refusal,
) -> Result<Answer<Change>, LoadError>
    ensures same_reference { tx.new.conn.ghost_name ≡ tx.old.conn.ghost_name }
    ensures holds { HoldsOfTables S.Store tx.old.conn.now tx.new.conn.now result
        (λ office answer. answer ≡ ruling.refused refusal) }
{
    desk::all(tx)?;
    Ok(refuse(refusal))
}

/// A transaction over the tables, from whose rows calls are decided.
#[derive(Drop)]
struct InTables<'t, 'c, 's, S: Alter> {
    alloc: Global,
    tx: &'t mut Transaction<'c, S>,
    cached: &'s [CachedRecord],
}

impl<S: Alter> Decides for InTables<'_, '_, '_, S> {
    type Error = LoadError;

    ghost decides = { λ a b result call. (b.tx.ghost_name ≡ a.tx.ghost_name)
        × (b.tx.now.conn.ghost_name ≡ a.tx.now.conn.ghost_name)
        × HoldsOfTables S.Store a.tx.now.conn.now b.tx.now.conn.now result
        (λ office answer. All (IsRecordOf office) a.cached.now → IsDecided call office answer) };

    fn for_desk(&mut self, _now: Moment, asked: &DeskRequest) -> Result<Answer<Change>, LoadError> {
        decide_for_desk(self.tx, self.alloc, asked)
    }

    fn for_office(
        &mut self,
        meeting: MeetingId,
        now: Moment,
        asked: &OfficeRequest,
    ) -> Result<Answer<Change>, LoadError> {
        decide_for_office(self.tx, self.alloc, now, meeting, asked)
    }

    fn for_party(
        &mut self,
        party: Party,
        meeting: MeetingId,
        now: Moment,
        asked: &PartyRequest,
    ) -> Result<Answer<Change>, LoadError> {
        decide_for_party(self.tx, self.alloc, now, party, meeting, asked, self.cached)
    }

    fn refuse(&mut self, refusal: Refusal) -> Result<Answer<Change>, LoadError> {
        refused(self.tx, refusal)
    }
}

/// What is decided of a call, from those rows of the tables alone that its answer reads, and from
/// public records that are cached. Where the wrong side asks, it is refused.
pub fn decide<S: Alter>(
    tx: &mut Transaction<'_, S>,
    alloc: Global,
    call: &Call,
    cached: &[CachedRecord],
) -> Result<Answer<Change>, LoadError>
    ensures same_reference { tx.new.conn.ghost_name ≡ tx.old.conn.ghost_name }
    ensures holds { HoldsOfTables S.Store tx.old.conn.now tx.new.conn.now result
        (λ office answer. All (IsRecordOf office) cached.now → IsDecided call.now office answer) }
{
    decide_by(&mut InTables { alloc, tx, cached }, call)
}
