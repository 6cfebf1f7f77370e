//! What is public of a meeting, read from the tables by its name.
ghost use Rattle.std.specs.Prelude.{◌≡◌, Some, is_some, length, option_map};
ghost use Rattle.desk_words.specs.declared.office.MeetingLists.{MeetingLists};
ghost use Rattle.party_views.specs.PublicRead.{counted, counted_up_to, with_unread};
ghost use Rattle.party_views.specs.RowsRead.{polls_on};
ghost use Rattle.party_views.specs.Views.{meeting_at, polls_in, public_of};
ghost use Rattle.sql_load.specs.MeetingRecords.{AreOnItsResolutions, MayHave, last_number, later_in};
ghost use Rattle.sql_load.specs.TableLookUps.{HoldsOfStoredOffice};

use crate::fault::LoadError;
use crate::ordered_lists::{day_list, poll_list, resolution_list, session_list, whole_meeting};
use crate::query_records::{first, items, records_found};
use crate::stand_ins::{stand_ins, stand_ins_by_polls, unread};
use crate::table::listing;
use desk_words::{Listing, Meeting, MeetingId, Poll, Resolution, Resolutions, Session};
use office_days::Closed;
use party_views::PublicRecord;
use sql_desk_tables::closed::ClosedDays;
use sql_queries::{meetings, polls, resolutions, sessions};
use sql_rows::{InMeeting, Numbered};
use sql_stored::find;
use sqlite::{Alter, Transaction};
use std::alloc::Global;
use std::marker::Model;

/// The public record of a meeting, kept apart from the tables. Contracts see it as that record.
#[derive(Drop)]
pub struct OwnedRecord {
    closed: Closed,
    meeting: Option<Meeting>,
    polls: Listing<Poll>,
}

impl Model for OwnedRecord {
    ghost use Rattle.party_views.specs.Public.{PublicRecord};

    ghost Value = { PublicRecord };

    ghost view = { λ k. record { closed = k.closed; meeting = k.meeting; polls = k.polls } };
}

impl OwnedRecord {
    /// The record, lent.
    pub fn record(&self) -> PublicRecord<'_>
        ensures { result ≡ self.now }
    {
        PublicRecord::new(&self.closed, self.meeting.as_ref(), self.polls.as_slice())
    }

    /// Whether it is of a meeting that there is.
    pub fn has_meeting(&self) -> bool
        ensures { result ≡ is_some self.now.meeting }
    {
        self.meeting.is_some()
    }
}

/// The days that the office has closed (section 1173).
pub fn read_closed<S: Alter>(
    tx: &mut Transaction<'_, S>,
    alloc: Global,
) -> Result<Closed, LoadError>
    ensures same_reference { tx.new.conn.ghost_name ≡ tx.old.conn.ghost_name }
    ensures holds { HoldsOfStoredOffice S.Store tx.old.conn.now tx.new.conn.now result
        (λ office closed. closed ≡ office.closed) }
{
    let days = listing::<ClosedDays, S>(tx, alloc)?;
    Ok(Closed::from_list(day_list(days)?))
}

/// The sessions to which a meeting was adjourned, in order; where there is no meeting of that name,
/// none.
fn later_of<S: Alter>(
    tx: &mut Transaction<'_, S>,
    alloc: Global,
    meeting: MeetingId,
) -> Result<Listing<Session>, LoadError>
    ensures same_reference { tx.new.conn.ghost_name ≡ tx.old.conn.ghost_name }
    ensures holds { HoldsOfStoredOffice S.Store tx.old.conn.now tx.new.conn.now result
        (λ office later. later ≡ later_in (meeting_at office meeting)) }
{
    let rows = items(
        alloc,
        records_found(alloc, find::<sessions::OfMeeting, S>(tx, meeting)),
    )?;
    session_list(alloc, rows)
}

/// The meeting of a name with its sessions and its resolutions (section 307), if there is one.
pub fn meeting_of<S: Alter>(
    tx: &mut Transaction<'_, S>,
    alloc: Global,
    meeting: MeetingId,
) -> Result<Option<Meeting>, LoadError>
    ensures same_reference { tx.new.conn.ghost_name ≡ tx.old.conn.ghost_name }
    ensures holds { HoldsOfStoredOffice S.Store tx.old.conn.now tx.new.conn.now result
        (λ office found. found
        ≡ option_map (λ (m : MeetingLists). m.meeting) (meeting_at office meeting)) }
{
    let rows = records_found(alloc, find::<meetings::Named, S>(tx, meeting))?;
    let Some(row) = first(rows) else {
        return Ok(None);
    };
    let later = later_of(tx, alloc, meeting)?;
    let rows = items(
        alloc,
        records_found(alloc, find::<resolutions::OfMeeting, S>(tx, meeting)),
    )?;
    let resolutions = resolution_list(alloc, rows)?;
    Ok(Some(whole_meeting(row, later, resolutions)))
}

/// The polls of a meeting (section 321), in the order of resolutions.
pub fn polls_of<S: Alter>(
    tx: &mut Transaction<'_, S>,
    alloc: Global,
    meeting: MeetingId,
) -> Result<Listing<Poll>, LoadError>
    ensures same_reference { tx.new.conn.ghost_name ≡ tx.old.conn.ghost_name }
    ensures holds { HoldsOfStoredOffice S.Store tx.old.conn.now tx.new.conn.now result
        (λ office found. found ≡ polls_in (meeting_at office meeting)) }
{
    let rows = items(
        alloc,
        records_found(alloc, find::<polls::OfMeeting, S>(tx, meeting)),
    )?;
    poll_list(rows)
}

/// Those of the polls that are on a resolution, of which there is one at most.
fn polls_among(polls: Listing<Poll>, resolution: u64) -> Listing<Poll>
    ensures { result ≡ polls_on resolution polls }
{
    let mut on = polls.into_vec();
    on.retain(|poll| poll.resolution == resolution);
    Listing::from_vec(on)
}

/// The poll on a resolution of a meeting (section 321), if it is ordered. No other poll is read; but
/// no column holds a number above 2^63 - 1, and for such a one all are.
pub fn polls_on<S: Alter>(
    tx: &mut Transaction<'_, S>,
    alloc: Global,
    meeting: MeetingId,
    resolution: u64,
) -> Result<Listing<Poll>, LoadError>
    ensures same_reference { tx.new.conn.ghost_name ≡ tx.old.conn.ghost_name }
    ensures holds { HoldsOfStoredOffice S.Store tx.old.conn.now tx.new.conn.now result
        (λ office on. on ≡ polls_on resolution (polls_in (meeting_at office meeting))) }
{
    if resolution >= 1 << 63 {
        let polls = polls_of(tx, alloc, meeting)?;
        return Ok(polls_among(polls, resolution));
    }
    let on = items(
        alloc,
        records_found(
            alloc,
            find::<polls::OnResolution, S>(tx, (meeting, resolution)),
        ),
    )?;
    poll_list(on)
}

/// The public record of a meeting; where there is none of that name, the closed days alone. Of the
/// tables it reads the closed days and what names the meeting.
pub fn read_public<S: Alter>(
    tx: &mut Transaction<'_, S>,
    alloc: Global,
    meeting: MeetingId,
) -> Result<OwnedRecord, LoadError>
    ensures same_reference { tx.new.conn.ghost_name ≡ tx.old.conn.ghost_name }
    ensures holds { HoldsOfStoredOffice S.Store tx.old.conn.now tx.new.conn.now result
        (λ office found. found ≡ public_of office meeting) }
{
    let closed = read_closed(tx, alloc)?;
    let found = meeting_of(tx, alloc, meeting)?;
    let polls = polls_of(tx, alloc, meeting)?;
    Ok(OwnedRecord {
        closed,
        meeting: found,
        polls,
    })
}

/// How many resolutions there are, by the number of the last, if there is one.
fn last_number(rows: &[InMeeting<Numbered<Resolution>>]) -> usize
    ensures { result ≡ last_number rows.now }
{
    match rows {
        [last, ..] => last.item.number as usize,
        [] => 0,
    }
}

/// How many resolutions a meeting has.
fn count_of<S: Alter>(
    tx: &mut Transaction<'_, S>,
    alloc: Global,
    meeting: MeetingId,
) -> Result<usize, LoadError>
    ensures same_reference { tx.new.conn.ghost_name ≡ tx.old.conn.ghost_name }
    ensures holds { HoldsOfStoredOffice S.Store tx.old.conn.now tx.new.conn.now result
        (λ office count. (m : MeetingLists) → meeting_at office meeting ≡ Some m
        → count ≡ length m.meeting.resolutions) }
{
    let rows = records_found(alloc, resolutions::last_of_meeting(tx, meeting))?;
    Ok(last_number(rows.as_slice()))
}

/// The meeting of a name with its sessions, and so many resolutions in place of its own, if there is
/// one. None of them is read.
fn unread_of<S: Alter>(
    tx: &mut Transaction<'_, S>,
    alloc: Global,
    meeting: MeetingId,
    count: usize,
) -> Result<Option<Meeting>, LoadError>
    ensures same_reference { tx.new.conn.ghost_name ≡ tx.old.conn.ghost_name }
    ensures holds { HoldsOfStoredOffice S.Store tx.old.conn.now tx.new.conn.now result
        (λ office found. MayHave (meeting_at office meeting) count
        → found ≡ option_map (with_unread count) (public_of office meeting).meeting) }
{
    let rows = records_found(alloc, find::<meetings::Named, S>(tx, meeting))?;
    let Some(row) = first(rows) else {
        return Ok(None);
    };
    let later = later_of(tx, alloc, meeting)?;
    let resolutions = unread(alloc, count)?;
    Ok(Some(whole_meeting(row, later, resolutions)))
}

/// The meeting of a name with its sessions, if there is one, and as many resolutions as it has, of
/// which none is read.
pub fn counted_of<S: Alter>(
    tx: &mut Transaction<'_, S>,
    alloc: Global,
    meeting: MeetingId,
) -> Result<Option<Meeting>, LoadError>
    ensures same_reference { tx.new.conn.ghost_name ≡ tx.old.conn.ghost_name }
    ensures holds { HoldsOfStoredOffice S.Store tx.old.conn.now tx.new.conn.now result
        (λ office found. found ≡ option_map counted (public_of office meeting).meeting) }
{
    let count = count_of(tx, alloc, meeting)?;
    unread_of(tx, alloc, meeting, count)
}

/// The meeting of a name with its sessions, if there is one, its resolutions counted and replaced by
/// as many as tell whether the one that is asked for is among them.
fn counted_up_to<S: Alter>(
    tx: &mut Transaction<'_, S>,
    alloc: Global,
    meeting: MeetingId,
    on: Option<u64>,
) -> Result<Option<Meeting>, LoadError>
    ensures same_reference { tx.new.conn.ghost_name ≡ tx.old.conn.ghost_name }
    ensures holds { HoldsOfStoredOffice S.Store tx.old.conn.now tx.new.conn.now result
        (λ office found. found ≡ option_map (counted_up_to on) (public_of office meeting).meeting) }
{
    let count = count_of(tx, alloc, meeting)?;
    unread_of(tx, alloc, meeting, stand_ins(on, count))
}

/// The meeting of a name with its sessions, if there is one, its resolutions replaced by as many as
/// tell whether the one that is asked for is among them. They are counted only where polls on them do
/// not tell it.
pub fn meeting_for<S: Alter>(
    tx: &mut Transaction<'_, S>,
    alloc: Global,
    meeting: MeetingId,
    on: Option<u64>,
    polls: &[Poll],
) -> Result<Option<Meeting>, LoadError>
    ensures same_reference { tx.new.conn.ghost_name ≡ tx.old.conn.ghost_name }
    ensures holds { HoldsOfStoredOffice S.Store tx.old.conn.now tx.new.conn.now result
        (λ office found. AreOnItsResolutions (meeting_at office meeting) polls.now
        → found ≡ option_map (counted_up_to on) (public_of office meeting).meeting) }
{
    match stand_ins_by_polls(on, polls) {
        Some(count) => unread_of(tx, alloc, meeting, count),
        None => counted_up_to(tx, alloc, meeting, on),
    }
}
