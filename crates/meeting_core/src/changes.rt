//! Changes of an office's lists.
ghost use Rattle.std.specs.Prelude.{◌≡◌, ◌==◌, ◌<◌, [], ◌∷◌, ◌++◌, true, IfSome, IsOk, OnOk, OnErr, length};
ghost use Rattle.std.specs.List.{position_from};
ghost use Rattle.desk_words.specs.declared.records.Poll.{Poll};
ghost use Rattle.seq.specs.Sorting.{insert_by};
ghost use Rattle.desk_words.specs.Names.{same_name};
ghost use Rattle.desk_words.specs.Office.{poll_before};
ghost use Rattle.desk_words.specs.Changes.{change_at, change_poll, changed, entered, advanced, new_lists, sets_in_meeting};

use desk_words::{
    CastKind, CastMark, Entry, Filed, Listing, Meeting, MeetingChange, MeetingId, MeetingLists,
    Moment, Poll, PollChange,
};
use std::alloc::{AllocError, Global};

/// A meeting with no lists.
fn new_lists(alloc: Global, meeting: Meeting) -> MeetingLists
    ensures { result ≡ new_lists meeting }
{
    MeetingLists {
        meeting,
        register: Listing::new(alloc),
        appointments: Filed::new(alloc),
        endings: Filed::new(alloc),
        authorities: Filed::new(alloc),
        presences: Filed::new(alloc),
        demands: Filed::new(alloc),
        polls: Listing::new(alloc),
        casts: Filed::new(alloc),
    }
}

/// Adds a meeting with no lists. The error is want of memory, and nothing changes then. The lists
/// are large, and no other change is to pay for their place.
#[inline(never)]
pub fn add_meeting(
    alloc: Global,
    meetings: &mut Vec<MeetingLists>,
    meeting: Meeting,
) -> Result<(), AllocError>
    ensures ok { OnOk result (meetings.new.items ≡ meetings.old.items ++ new_lists meeting ∷ []) }
    ensures err { OnErr result (meetings.new.items ≡ meetings.old.items) }
{
    meetings.push(new_lists(alloc, meeting))?;
    Ok(())
}

fn enter_cast(casts: &mut Filed<CastMark>, cast: CastMark) -> Result<(), AllocError>
    ensures ok { OnOk result (casts.new ≡ casts.old ++ cast ∷ []) }
    ensures err { OnErr result (casts.new ≡ casts.old) }
{
    // The checker of borrows misses the types of a value's fields unless they are named here.
    let what: CastKind = cast.what;
    casts.push(CastMark { what, ..cast })
}

/// Enters something into the lists of a meeting. The error is want of memory, and nothing changes
/// then.
fn enter(lists: &mut MeetingLists, entry: Entry) -> Result<(), AllocError>
    ensures ok { OnOk result (lists.new ≡ entered entry lists.old) }
    ensures err { OnErr result (lists.new ≡ lists.old) }
{
    match entry {
        Entry::Appointment(appointment) => lists.appointments.push(appointment),
        Entry::Ending(ending) => lists.endings.push(ending),
        Entry::Authority(authority) => lists.authorities.push(authority),
        Entry::Presence(presence) => lists.presences.push(presence),
        Entry::Demand(demand) => lists.demands.push(demand),
        Entry::Cast(cast) => enter_cast(&mut lists.casts, cast),
    }
}

fn add_poll(polls: &mut Listing<Poll>, poll: Poll) -> Result<(), AllocError>
    ensures ok { OnOk result (polls.new ≡ insert_by poll_before poll polls.old) }
    ensures err { OnErr result (polls.new ≡ polls.old) }
{
    // The checker of borrows misses the types of a value's fields unless they are named here.
    let started: Option<Moment> = poll.started;
    polls.insert_in_order(Poll { started, ..poll })
}

fn place_of_poll(polls: &[Poll], resolution: u64) -> Option<usize>
    ensures first { result ≡ position_from (λ (p : Poll). p.resolution == resolution) 0 polls.now }
    ensures bound { IfSome result (λ i. i < length polls.now) }
{
    polls.iter().position(|p| p.resolution == resolution)
}

/// The poll that has come further.
fn moved(poll: Poll, change: PollChange) -> Poll
    ensures { result ≡ advanced change poll }
{
    match change {
        PollChange::Started(moment) => Poll {
            started: Some(moment),
            ..poll
        },
        PollChange::Closed(moment) => Poll {
            closed: Some(moment),
            ..poll
        },
        PollChange::Declared(tally) => Poll {
            declared: Some(tally),
            ..poll
        },
    }
}

/// Moves the poll on that resolution. Where there is none, nothing changes.
fn move_poll(lists: &mut MeetingLists, resolution: u64, change: PollChange)
    ensures { lists.new ≡ change_poll (advanced change) resolution lists.old }
{
    let polls = lists.polls.as_slice();
    if let Some(i) = place_of_poll(polls, resolution) {
        let poll = polls[i];
        lists.polls.set(i, moved(poll, change));
    }
}

/// Changes a meeting. The error is want of memory, and nothing changes then; a change that sets
/// fields needs none.
fn change_lists(lists: &mut MeetingLists, change: MeetingChange) -> Result<(), AllocError>
    ensures ok { OnOk result (lists.new ≡ changed change lists.old) }
    ensures err { OnErr result (lists.new ≡ lists.old) }
    ensures sure { sets_in_meeting change ≡ true → IsOk result }
{
    match change {
        MeetingChange::SetRegister(rows) => {
            lists.register = rows.into_listing();
            lists.meeting.loaded = true;
        }
        MeetingChange::SetOpened(moment) => lists.meeting.open_last(moment),
        MeetingChange::AddSession(moment) => lists.meeting.adjourn_to(moment)?,
        MeetingChange::AddPoll(poll) => add_poll(&mut lists.polls, poll)?,
        MeetingChange::SetPoll { resolution, change } => move_poll(lists, resolution, change),
        MeetingChange::Enter(entry) => enter(lists, entry)?,
    }
    Ok(())
}

fn place_of_meeting(meetings: &[MeetingLists], id: MeetingId) -> Option<usize>
    ensures first { result ≡ position_from (λ m. same_name m.meeting.id id) 0 meetings.now }
    ensures bound { IfSome result (λ i. i < length meetings.now) }
{
    meetings.iter().position(|m| m.meeting.id.is(id))
}

/// Changes the meeting of that name. Where there is none, nothing changes. The error is want of
/// memory, and nothing changes then; a change that sets fields needs none.
pub fn change_meeting(
    meetings: &mut [MeetingLists],
    meeting: MeetingId,
    change: MeetingChange,
) -> Result<(), AllocError>
    ensures ok { OnOk result (meetings.new ≡ change_at (changed change) meeting meetings.old) }
    ensures err { OnErr result (meetings.new ≡ meetings.old) }
    ensures sure { sets_in_meeting change ≡ true → IsOk result }
{
    match place_of_meeting(meetings, meeting) {
        Some(i) => change_lists(&mut meetings[i], change),
        None => Ok(()),
    }
}
