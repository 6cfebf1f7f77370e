//! The lists of meetings. A register is a set of rows: it is put in order before anything is asked.
ghost use Rattle.std.specs.Prelude.{◌≡◌, ◌&&◌, count_by, length, map, nat_le, true};
ghost use Rattle.std.specs.List.{list_all};
ghost use Rattle.seq.specs.Ordered.{differ_by};
ghost use Rattle.desk_words.specs.declared.office.MeetingLists.{MeetingLists};
ghost use Rattle.desk_words.specs.Office.{are_appointments, are_authorities};
ghost use Rattle.desk_words.specs.Office.{are_demands, are_endings};
ghost use Rattle.desk_words.specs.Office.{are_casts, are_polls, implies, is_loaded_right};
ghost use Rattle.desk_words.specs.Office.{are_presences, is_meeting, same_meeting};
ghost use Rattle.desk_words.specs.Sessions.{is_opened};
ghost use Rattle.vocabulary.specs.Names.{same_name};
ghost use Rattle.office_validation.specs.Validation.{in_order, meeting_checked, meetings_of, rows_checked};

use crate::appointments::{are_appointments, are_endings};
use crate::attendance::{are_authorities, are_demands, are_presences};
use crate::polls::{are_casts, are_polls};
use desk_words::limits::MOST_MEETINGS;
use desk_words::{
    Appointment, Ending, Filed, Listing, Meeting, MeetingId, MeetingLists, Register, RegisterRow,
};
use std::alloc::Global;
use std::mem;

/// The rows in the order of members, if they are a register where one is loaded, and none where
/// none is.
fn rows_checked(loaded: bool, rows: Listing<RegisterRow>) -> Option<Listing<RegisterRow>>
    ensures { result ≡ rows_checked loaded rows }
{
    if !loaded {
        return if rows.is_empty() { Some(rows) } else { None };
    }
    match Register::new(rows.into_vec()) {
        Ok(register) => Some(register.into_listing()),
        Err(_) => None,
    }
}

fn is_loaded_once_opened(meeting: &Meeting) -> bool
    ensures { result ≡ implies (is_opened meeting.now.first) meeting.now.loaded }
{
    !meeting.first.is_opened() || meeting.loaded
}

/// Puts the register in order, and says whether it is loaded as it should be. Where it is not, the
/// lists are of no use.
fn put_in_order(alloc: Global, lists: &mut MeetingLists) -> bool
    ensures right { result ≡ is_loaded_right (in_order lists.old) }
    ensures ordered { result ≡ true → lists.new ≡ in_order lists.old }
{
    if !is_loaded_once_opened(&lists.meeting) {
        return false;
    }
    let rows = mem::replace(&mut lists.register, Listing::new(alloc));
    match rows_checked(lists.meeting.loaded, rows) {
        Some(rows) => {
            lists.register = rows;
            true
        }
        None => false,
    }
}

/// Whether the appointments and their endings are those of a meeting with so many resolutions.
fn are_proxy_records(
    resolutions: usize,
    appointments: &Filed<Appointment>,
    endings: &Filed<Ending>,
) -> bool
    ensures { result ≡ (are_appointments resolutions appointments.now
        && are_endings appointments.now endings.now) }
{
    are_appointments(resolutions, appointments) && are_endings(appointments, endings)
}

/// Whether the authorities, the presences and the demands are those of the meeting.
fn is_attended(lists: &MeetingLists) -> bool
    ensures { result
        ≡ (are_authorities lists.now.authorities && are_presences lists.now.meeting lists.now.presences
        && are_demands lists.now.meeting lists.now.demands) }
{
    are_authorities(&lists.authorities)
        && are_presences(&lists.meeting, &lists.presences)
        && are_demands(&lists.meeting, &lists.demands)
}

/// Whether the polls and the casts are those of the meeting.
fn is_polled(lists: &MeetingLists) -> bool
    ensures { result
        ≡ (are_polls lists.now.meeting lists.now.polls
        && are_casts lists.now.polls lists.now.casts) }
{
    let polls = lists.polls.as_slice();
    are_polls(&lists.meeting, polls) && are_casts(polls, &lists.casts)
}

/// Whether they are the lists of a meeting, whose register is loaded as it should be.
fn is_meeting(lists: &MeetingLists) -> bool
    requires { is_loaded_right lists.now ≡ true }
    ensures { result ≡ is_meeting lists.now }
{
    let resolutions = lists.meeting.resolutions.as_slice().len();
    lists.meeting.has_sessions()
        && are_proxy_records(resolutions, &lists.appointments, &lists.endings)
        && is_attended(lists)
        && is_polled(lists)
}

/// Puts the register in order, and says whether the lists are those of a meeting then.
fn check(alloc: Global, lists: &mut MeetingLists) -> bool
    ensures right { result ≡ is_meeting (in_order lists.old) }
    ensures ordered { result ≡ true → lists.new ≡ in_order lists.old }
{
    put_in_order(alloc, lists) && is_meeting(lists)
}

/// The lists of a meeting, or none where they are no meeting's: the lists themselves, the register
/// put in the order of members first, since it is a set of rows, which may come in any order. It
/// takes no memory.
pub fn meeting_checked(alloc: Global, lists: MeetingLists) -> Option<MeetingLists>
    ensures { result ≡ meeting_checked lists }
{
    let mut lists = lists;
    if check(alloc, &mut lists) {
        Some(lists)
    } else {
        None
    }
}

/// Puts each register in order, and says whether each of the lists are those of a meeting then.
fn check_each(alloc: Global, meetings: &mut [MeetingLists]) -> bool
    ensures right { result ≡ list_all is_meeting (map in_order meetings.old) }
    ensures ordered { result ≡ true → meetings.new ≡ map in_order meetings.old }
{
    for lists in meetings.iter_mut() {
        if !check(alloc, lists) {
            return false;
        }
    }
    true
}

/// Whether a meeting's name is that of one meeting at most.
fn is_named_once(meetings: &[MeetingLists], lists: &MeetingLists) -> bool
    ensures { result ≡ nat_le (count_by (λ (m : MeetingLists). same_meeting m lists.now)
        meetings.now) 1 }
{
    let name = lists.meeting.id;
    meetings
        .iter()
        .filter(|other| other.meeting.id == name)
        .count()
        <= 1
}

fn are_named_once(meetings: &[MeetingLists]) -> bool
    ensures { result ≡ list_all (λ (lists : MeetingLists). nat_le (count_by
        (λ (m : MeetingLists). same_meeting m lists) meetings.now) 1) meetings.now }
{
    meetings.iter().all(|lists| is_named_once(meetings, lists))
}

/// Whether no two meetings have one name.
fn names_differ(meetings: &[MeetingLists]) -> bool
    ensures { result ≡ differ_by same_meeting meetings.now }
{
    are_named_once(meetings)
}

/// The lists, each register in order, if they are those of the meetings of an office:
/// `MOST_MEETINGS` at most, each with a name of its own.
pub(crate) fn meetings_of(
    alloc: Global,
    meetings: Listing<MeetingLists>,
) -> Option<Listing<MeetingLists>>
    ensures { result ≡ meetings_of meetings }
{
    let mut meetings = meetings.into_vec();
    if meetings.len() > MOST_MEETINGS
        || !check_each(alloc, &mut meetings)
        || !names_differ(&meetings)
    {
        return None;
    }
    Some(Listing::from_vec(meetings))
}
