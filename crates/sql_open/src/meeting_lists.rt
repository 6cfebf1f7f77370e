//! The lists of a meeting, read by its name.
ghost use Rattle.std.specs.Prelude.{◌≡◌};
ghost use Rattle.std.specs.List.{list_all};
ghost use Rattle.seq.specs.Ordered.{ascends_by};
ghost use Rattle.desk_words.specs.Office.{are_rows, is_meeting, poll_before};
ghost use Rattle.desk_words.specs.SortedLists.{are_resolutions};
ghost use Rattle.sql_load.specs.LoadResults.{any_at_all};
ghost use Rattle.sql_open.specs.MeetingReading.{are_called, are_polled, but_votes, called_in, given_in};
ghost use Rattle.sql_open.specs.MeetingReading.{lists_in, lists_of_parts, meetings_in, polled_in, polls_in};
ghost use Rattle.sql_open.specs.MeetingReading.{register_in, resolutions_in, sessions_in};
ghost use Rattle.sql_load.specs.OwnLists.{are_few};
ghost use Rattle.sql_load.specs.WholeReading.{IsReading};

use crate::own_rows::{own, own_filed};
use desk_words::{
    Appointment, Authority, CastMark, DemandMark, Ending, Filed, Listing, Meeting, MeetingId,
    MeetingLists, Poll, PresenceMark, RegisterRow, Resolution, Resolutions, Session,
};
use sql_desk_tables::meetings::Meetings;
use sql_load::{
    LoadError, listing, poll_list, register_rows, resolution_list, session_list, whole_meeting,
};
use sql_queries::{
    appointments, authorities, casts, demands, endings, polls, presences, register, resolutions,
    sessions,
};
use sql_rows::{MeetingRow, Numbered};
use sqlite::{Alter, Transaction};
use std::alloc::Global;

// A function that owns many lists over readings that may fail is dear to prove, so a meeting is read in
// three parts, each list put in order as it is read.

/// What a meeting is called with: the meeting itself, and its register.
#[derive(Drop)]
struct Called {
    meeting: Meeting,
    register: Listing<RegisterRow>,
}

/// What its members give: appointments, their endings, and authorities.
#[derive(Drop)]
struct Given {
    appointments: Filed<Appointment>,
    endings: Filed<Ending>,
    authorities: Filed<Authority>,
}

/// Who is present, what is demanded, and the polls.
#[derive(Drop)]
struct Polled {
    presences: Filed<PresenceMark>,
    demands: Filed<DemandMark>,
    polls: Listing<Poll>,
}

/// The further sessions of a meeting. The fault is `NoOffice` only where a row is none, they are not
/// numbered 2, 3, .., or they are too many.
fn read_sessions<S: Alter>(
    tx: &mut Transaction<'_, S>,
    alloc: Global,
    meeting: MeetingId,
) -> Result<Listing<Session>, LoadError>
    ensures same_reference { tx.new.conn.ghost_name ≡ tx.old.conn.ghost_name }
    ensures read { IsReading S.Store tx.old.conn.now tx.new.conn.now are_few result
        (sessions_in meeting) }
{
    let rows = own::<sessions::OfMeeting, Numbered<Session>, S>(tx, alloc, meeting)?;
    session_list(alloc, rows)
}

/// The resolutions of a meeting. The fault is `NoOffice` only where a row is none, they are not numbered
/// 1, 2, .., or there are none or too many.
fn read_resolutions<S: Alter>(
    tx: &mut Transaction<'_, S>,
    alloc: Global,
    meeting: MeetingId,
) -> Result<Resolutions, LoadError>
    ensures same_reference { tx.new.conn.ghost_name ≡ tx.old.conn.ghost_name }
    ensures read { IsReading S.Store tx.old.conn.now tx.new.conn.now are_resolutions result
        (resolutions_in meeting) }
{
    let rows = own::<resolutions::OfMeeting, Numbered<Resolution>, S>(tx, alloc, meeting)?;
    resolution_list(alloc, rows)
}

/// The register of a meeting. The fault is `NoOffice` only where its rows are none.
fn read_register<S: Alter>(
    tx: &mut Transaction<'_, S>,
    alloc: Global,
    meeting: MeetingId,
) -> Result<Listing<RegisterRow>, LoadError>
    ensures same_reference { tx.new.conn.ghost_name ≡ tx.old.conn.ghost_name }
    ensures read { IsReading S.Store tx.old.conn.now tx.new.conn.now are_rows result
        (register_in meeting) }
{
    let rows = own::<register::OfMeeting, RegisterRow, S>(tx, alloc, meeting)?;
    register_rows(rows)
}

/// The polls of a meeting. The fault is `NoOffice` only where a row is none, or two are on one
/// resolution.
fn read_polls<S: Alter>(
    tx: &mut Transaction<'_, S>,
    alloc: Global,
    meeting: MeetingId,
) -> Result<Listing<Poll>, LoadError>
    ensures same_reference { tx.new.conn.ghost_name ≡ tx.old.conn.ghost_name }
    ensures read { IsReading S.Store tx.old.conn.now tx.new.conn.now (ascends_by poll_before) result
        (polls_in meeting) }
{
    let rows = own::<polls::OfMeeting, Poll, S>(tx, alloc, meeting)?;
    poll_list(rows)
}

fn read_called<S: Alter>(
    tx: &mut Transaction<'_, S>,
    alloc: Global,
    row: MeetingRow,
) -> Result<Called, LoadError>
    ensures same_reference { tx.new.conn.ghost_name ≡ tx.old.conn.ghost_name }
    ensures read { IsReading S.Store tx.old.conn.now tx.new.conn.now are_called result
        (called_in row) }
{
    let later = read_sessions(tx, alloc, row.id)?;
    let resolutions = read_resolutions(tx, alloc, row.id)?;
    let register = read_register(tx, alloc, row.id)?;
    Ok(Called {
        meeting: whole_meeting(row, later, resolutions),
        register,
    })
}

fn read_given<S: Alter>(
    tx: &mut Transaction<'_, S>,
    alloc: Global,
    meeting: MeetingId,
) -> Result<Given, LoadError>
    ensures same_reference { tx.new.conn.ghost_name ≡ tx.old.conn.ghost_name }
    ensures read { IsReading S.Store tx.old.conn.now tx.new.conn.now any_at_all result
        (given_in meeting) }
{
    let appointments = own_filed::<appointments::OfMeeting, Appointment, S>(tx, alloc, meeting)?;
    let endings = own_filed::<endings::OfMeeting, Ending, S>(tx, alloc, meeting)?;
    let authorities = own_filed::<authorities::OfMeeting, Authority, S>(tx, alloc, meeting)?;
    Ok(Given {
        appointments,
        endings,
        authorities,
    })
}

fn read_polled<S: Alter>(
    tx: &mut Transaction<'_, S>,
    alloc: Global,
    meeting: MeetingId,
) -> Result<Polled, LoadError>
    ensures same_reference { tx.new.conn.ghost_name ≡ tx.old.conn.ghost_name }
    ensures read { IsReading S.Store tx.old.conn.now tx.new.conn.now are_polled result
        (polled_in meeting) }
{
    let presences = own_filed::<presences::OfMeeting, PresenceMark, S>(tx, alloc, meeting)?;
    let demands = own_filed::<demands::OfMeeting, DemandMark, S>(tx, alloc, meeting)?;
    let polls = read_polls(tx, alloc, meeting)?;
    Ok(Polled {
        presences,
        demands,
        polls,
    })
}

/// The lists of a meeting of the three parts, and no votes.
fn lists_of_parts(alloc: Global, called: Called, given: Given, polled: Polled) -> MeetingLists
    ensures { result ≡ lists_of_parts called given polled }
{
    MeetingLists {
        meeting: called.meeting,
        register: called.register,
        appointments: given.appointments,
        endings: given.endings,
        authorities: given.authorities,
        presences: polled.presences,
        demands: polled.demands,
        polls: polled.polls,
        casts: Filed::new(alloc),
    }
}

/// The lists of a meeting but its votes. The fault is `NoOffice` only where a row that names it is no
/// such record, or they are no meeting's lists.
pub(crate) fn read_but_votes<S: Alter>(
    tx: &mut Transaction<'_, S>,
    alloc: Global,
    row: MeetingRow,
) -> Result<MeetingLists, LoadError>
    ensures same_reference { tx.new.conn.ghost_name ≡ tx.old.conn.ghost_name }
    ensures read { IsReading S.Store tx.old.conn.now tx.new.conn.now is_meeting result
        (but_votes row) }
{
    let meeting = row.id;
    let called = read_called(tx, alloc, row)?;
    let given = read_given(tx, alloc, meeting)?;
    let polled = read_polled(tx, alloc, meeting)?;
    Ok(lists_of_parts(alloc, called, given, polled))
}

/// The lists of a meeting with these votes.
fn with_votes(lists: MeetingLists, votes: Filed<CastMark>) -> MeetingLists
    ensures { result ≡ record lists { casts = votes } }
{
    MeetingLists {
        casts: votes,
        ..lists
    }
}

/// The lists of a meeting. The fault is `NoOffice` only where a row that names it is no such record,
/// or they are no meeting's lists.
fn read_lists<S: Alter>(
    tx: &mut Transaction<'_, S>,
    alloc: Global,
    row: MeetingRow,
) -> Result<MeetingLists, LoadError>
    ensures same_reference { tx.new.conn.ghost_name ≡ tx.old.conn.ghost_name }
    ensures read { IsReading S.Store tx.old.conn.now tx.new.conn.now is_meeting result
        (lists_in row) }
{
    let votes = own_filed::<casts::OfMeeting, CastMark, S>(tx, alloc, row.id)?;
    let lists = read_but_votes(tx, alloc, row)?;
    Ok(with_votes(lists, votes))
}

/// All meetings, with their lists. The fault is `NoOffice` only where they are none.
pub(crate) fn read_meetings<S: Alter>(
    tx: &mut Transaction<'_, S>,
    alloc: Global,
) -> Result<Listing<MeetingLists>, LoadError>
    ensures same_reference { tx.new.conn.ghost_name ≡ tx.old.conn.ghost_name }
    ensures read { IsReading S.Store tx.old.conn.now tx.new.conn.now (list_all is_meeting) result
        meetings_in }
{
    let rows = listing::<Meetings, S>(tx, alloc)?;
    let mut meetings = Listing::new(alloc);
    let all = rows.as_slice();
    for row in all {
        let lists = read_lists(tx, alloc, *row)?;
        meetings.push(lists)?;
    }
    Ok(meetings)
}
