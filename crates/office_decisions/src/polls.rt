//! The opening and the adjournment of a meeting, and the way of a poll: ordered, started, closed,
//! declared.
ghost use Rattle.std.specs.Prelude.{◌≡◌, ◌-◌, ◌&&◌, not, true, false, Err, IfOk, IsOk, IsTrue, MatchResult, Ok, Some, length};
ghost use Rattle.std.specs.List.{list_any, slice_get};
ghost use Rattle.std.specs.Result.{result_err};
ghost use Rattle.desk_words.specs.Finding.{poll_on};
ghost use Rattle.desk_words.specs.Office.{is_meeting, is_resolution, is_tally};
ghost use Rattle.desk_words.specs.PollStates.{there_is, is_started};
ghost use Rattle.desk_words.specs.Refusals.{first_refusal};
ghost use Rattle.desk_words.specs.Rulings.{refuses, ruled_answer};
ghost use Rattle.office_decisions.specs.OfficeRulings.{is_some_at_once, refuses_at_once};
ghost use Rattle.office_decisions.specs.PresenceRulings.{demand_noted, quorum_in};
ghost use Rattle.office_decisions.specs.RequestLimits.{if_any, is_within_limits};
ghost use Rattle.office_decisions.specs.PollRulings.{adjourn_cases, adjourn_ruling, adjourning_cases, is_running};
ghost use Rattle.office_decisions.specs.PollRulings.{open_cases, open_ruling, opening_cases, order_cases, order_ruling, ordering_cases, poll_of, start_cases, start_ruling, close_cases, close_ruling, declare_cases, declare_ruling, result_cases, result_on, declared_answer, tally_in};

use crate::attendance::{demand_in, papers_of, quorum_in};
use desk_words::limits::MOST_SESSIONS;
use desk_words::{
    Answer, Declaration, Meeting, MeetingChange, MeetingLists, Moment, NewPoll, Poll, PollChange,
    Refusal, Reply, Tally, find_poll, refuse,
};
use office_days::Closed;
use poll_rules::{Use, cutoffs, is_late_poll, result_of};
use std::alloc::{AllocError, Global};
use vote_rules::tally;

/// Why the last session of a meeting is not opened, whoever is present.
pub(crate) fn opening_refusal(meeting: &Meeting, now: Moment) -> Option<Refusal>
    ensures { result ≡ first_refusal (opening_cases meeting.now now) }
{
    if !meeting.loaded {
        return Some(Refusal::NoRegister);
    }
    let last = meeting.last_session();
    if last.is_opened() {
        return Some(Refusal::Opened);
    }
    if now < last.appointed {
        return Some(Refusal::Early);
    }
    None
}

fn open_refusal(
    alloc: Global,
    closed: &Closed,
    lists: &MeetingLists,
    now: Moment,
) -> Result<Option<Refusal>, AllocError>
    requires { is_meeting lists.now ≡ true }
    ensures refusal { IfOk result (λ refusal. refusal
        ≡ first_refusal (open_cases lists.now closed.now now)) }
    ensures sure { is_some_at_once (first_refusal (open_cases lists.now closed.now now)) ≡ true
        → IsOk result }
{
    if let Some(refusal) = opening_refusal(&lists.meeting, now) {
        return Ok(Some(refusal));
    }
    if !quorum_in(alloc, closed, lists, now)? {
        return Ok(Some(Refusal::NoQuorum));
    }
    Ok(None)
}

/// The answer to the opening of the last session of a meeting: the first that holds of `NoRegister`,
/// `Opened`, `Early` before its appointed time, and `NoQuorum` where those who are present in it
/// make no quorum (section 318); and else `MeetingOpened`, which sets the moment. The error is want
/// of memory; a refusal other than `NoQuorum` takes none. Its cost is that of `poll_rules::quorum`.
pub(crate) fn open_meeting(
    alloc: Global,
    closed: &Closed,
    lists: &MeetingLists,
    now: Moment,
) -> Result<Answer<MeetingChange>, AllocError>
    requires { is_meeting lists.now ≡ true }
    ensures answer { IfOk result (λ a. a ≡ ruled_answer (open_ruling lists.now closed.now now)) }
    ensures limits { IfOk result (λ a. if_any is_within_limits a.change ≡ true) }
    ensures sure { refuses_at_once (open_ruling lists.now closed.now now) ≡ true → IsOk result }
{
    if let Some(refusal) = open_refusal(alloc, closed, lists, now)? {
        return Ok(refuse(refusal));
    }
    Ok(Answer {
        reply: Reply::MeetingOpened,
        change: Some(MeetingChange::SetOpened(now)),
    })
}

/// Whether a poll is not closed, and is started or not late.
fn is_running(closed: &Closed, poll: &Poll) -> bool
    ensures { result ≡ is_running closed.now poll.now }
{
    poll.closed.is_none() && (poll.started.is_some() || !is_late_poll(closed, poll))
}

/// Whether a poll is running.
fn any_running(closed: &Closed, polls: &[Poll]) -> bool
    ensures { result ≡ list_any (is_running closed.now) polls.now }
{
    polls.iter().any(|poll| is_running(closed, poll))
}

/// Why a meeting is not adjourned to a further session, whichever polls run.
pub(crate) fn adjourning_refusal(
    meeting: &Meeting,
    now: Moment,
    appointed: Moment,
) -> Option<Refusal>
    ensures { result ≡ first_refusal (adjourning_cases meeting.now now appointed) }
{
    if meeting.last_number() >= MOST_SESSIONS as u64 {
        return Some(Refusal::TooMany);
    }
    if !meeting.last_session().is_opened() {
        return Some(Refusal::NotOpened);
    }
    if appointed <= now {
        return Some(Refusal::Early);
    }
    None
}

fn adjourn_refusal(
    closed: &Closed,
    lists: &MeetingLists,
    now: Moment,
    appointed: Moment,
) -> Option<Refusal>
    ensures { result ≡ first_refusal (adjourn_cases lists.now closed.now now appointed) }
{
    if let Some(refusal) = adjourning_refusal(&lists.meeting, now, appointed) {
        return Some(refusal);
    }
    if any_running(closed, lists.polls.as_slice()) {
        return Some(Refusal::PollRunning);
    }
    None
}

/// The answer to the adjournment of a meeting to a further session: the first that holds of
/// `TooMany` where it has `MOST_SESSIONS` sessions, `NotOpened` where the last one is not opened,
/// `Early` where the further one is appointed for a moment that is not after now, and
/// `PollRunning` where a poll of the meeting, of whatever session, is not closed and is started or
/// not late; and else `Adjourned` with the number of the further session, which adds it. It takes
/// no memory.
pub(crate) fn adjourn(
    closed: &Closed,
    lists: &MeetingLists,
    now: Moment,
    appointed: Moment,
) -> Answer<MeetingChange>
    ensures answer { result ≡ ruled_answer (adjourn_ruling lists.now closed.now now appointed) }
    ensures limits { if_any is_within_limits result.change ≡ true }
{
    if let Some(refusal) = adjourn_refusal(closed, lists, now, appointed) {
        return refuse(refusal);
    }
    Answer {
        reply: Reply::Adjourned(lists.meeting.last_number() + 1),
        change: Some(MeetingChange::AddSession(appointed)),
    }
}

/// Whether neither the chair nor enough shares want the poll.
fn is_unwanted(
    alloc: Global,
    closed: &Closed,
    lists: &MeetingLists,
    now: Moment,
    new: &NewPoll,
) -> Result<bool, AllocError>
    requires { new.now.chair ≡ false → is_meeting lists.now ≡ true }
    ensures unwanted { IfOk result (λ b. b ≡ (not new.now.chair && not
        (demand_noted lists.now closed.now now new.now.resolution).reached)) }
    ensures sure { new.now.chair ≡ true → IsOk result }
{
    if new.chair {
        return Ok(false);
    }
    Ok(!demand_in(alloc, closed, lists, now, new.resolution)?.reached)
}

/// Why a poll is not ordered, whoever demands it.
pub(crate) fn ordering_refusal(lists: &MeetingLists, now: Moment, new: &NewPoll) -> Option<Refusal>
    ensures { result ≡ first_refusal (ordering_cases lists.now now new.now) }
{
    if !lists.meeting.has_resolution(new.resolution) {
        return Some(Refusal::NoResolution);
    }
    if !lists.meeting.last_session().is_opened() {
        return Some(Refusal::NotOpened);
    }
    if new.take < now {
        return Some(Refusal::Early);
    }
    if find_poll(lists.polls.as_slice(), new.resolution).is_some() {
        return Some(Refusal::PollOrdered);
    }
    None
}

fn order_refusal(
    alloc: Global,
    closed: &Closed,
    lists: &MeetingLists,
    now: Moment,
    new: &NewPoll,
) -> Result<Option<Refusal>, AllocError>
    requires { new.now.chair ≡ false → is_meeting lists.now ≡ true }
    ensures refusal { IfOk result (λ refusal. refusal
        ≡ first_refusal (order_cases lists.now closed.now now new.now)) }
    ensures sure { is_some_at_once (first_refusal (order_cases lists.now closed.now now new.now))
        ≡ true → IsOk result }
    ensures chair { new.now.chair ≡ true → IsOk result }
{
    if let Some(refusal) = ordering_refusal(lists, now, new) {
        return Ok(Some(refusal));
    }
    if is_unwanted(alloc, closed, lists, now, new)? {
        return Ok(Some(Refusal::DemandTooSmall));
    }
    Ok(None)
}

/// The poll that is ordered, in the last session.
fn poll_of(meeting: &Meeting, now: Moment, new: &NewPoll) -> Poll
    ensures { result ≡ poll_of meeting.now now new.now }
{
    Poll {
        session: meeting.last_number(),
        resolution: new.resolution,
        ordered: now,
        take: new.take,
        chair: new.chair,
        started: None,
        closed: None,
        declared: None,
    }
}

/// The answer to the order of a poll (section 321): the first that holds of `NoResolution`,
/// `NotOpened` where the last session is not opened, `Early` where the poll were taken before now,
/// `PollOrdered`, and `DemandTooSmall` where neither the chair orders it nor enough shares demand
/// it; and else `Ordered`, which adds the poll. The error is want of memory; an order by the chair
/// takes none, nor does a refusal other than `DemandTooSmall`. Without the chair its cost is that of
/// `poll_rules::demand_reached`.
pub(crate) fn order_poll(
    alloc: Global,
    closed: &Closed,
    lists: &MeetingLists,
    now: Moment,
    new: &NewPoll,
) -> Result<Answer<MeetingChange>, AllocError>
    requires { new.now.chair ≡ false → is_meeting lists.now ≡ true }
    ensures answer { IfOk result (λ a. a ≡ ruled_answer
        (order_ruling lists.now closed.now now new.now)) }
    ensures limits { IfOk result (λ a. if_any is_within_limits a.change ≡ true) }
    ensures sure { refuses_at_once (order_ruling lists.now closed.now now new.now) ≡ true
        → IsOk result }
    ensures chair { new.now.chair ≡ true → IsOk result }
{
    if let Some(refusal) = order_refusal(alloc, closed, lists, now, new)? {
        return Ok(refuse(refusal));
    }
    Ok(Answer {
        reply: Reply::Ordered,
        change: Some(MeetingChange::AddPoll(poll_of(&lists.meeting, now, new))),
    })
}

fn has_started(poll: &Option<Poll>) -> bool
    ensures { result ≡ there_is is_started poll.now }
{
    match poll {
        None => false,
        Some(poll) => poll.started.is_some(),
    }
}

pub(crate) fn start_refusal(lists: &MeetingLists, now: Moment, resolution: u64) -> Option<Refusal>
    ensures { result ≡ first_refusal (start_cases lists.now now resolution) }
{
    let poll = find_poll(lists.polls.as_slice(), resolution);
    if has_started(&poll) {
        return Some(Refusal::Exists);
    }
    if !lists.meeting.has_resolution(resolution) {
        return Some(Refusal::NoResolution);
    }
    let Some(poll) = poll else {
        return Some(Refusal::NoPoll);
    };
    if now < poll.take {
        return Some(Refusal::Early);
    }
    None
}

/// The answer to the start of a poll: the first that holds of `Exists` where it is started already,
/// `NoResolution`, `Early` before it is to be taken, and `NoPoll`; and else `Started`, which sets
/// the moment. It takes no memory.
pub(crate) fn start_poll(
    lists: &MeetingLists,
    now: Moment,
    resolution: u64,
) -> Answer<MeetingChange>
    ensures answer { result ≡ ruled_answer (start_ruling lists.now now resolution) }
    ensures limits { if_any is_within_limits result.change ≡ true }
{
    if let Some(refusal) = start_refusal(lists, now, resolution) {
        return refuse(refusal);
    }
    Answer {
        reply: Reply::Started,
        change: Some(MeetingChange::SetPoll {
            resolution,
            change: PollChange::Started(now),
        }),
    }
}

pub(crate) fn close_refusal(lists: &MeetingLists, resolution: u64) -> Option<Refusal>
    ensures { result ≡ first_refusal (close_cases lists.now resolution) }
{
    if !lists.meeting.has_resolution(resolution) {
        return Some(Refusal::NoResolution);
    }
    let Some(poll) = find_poll(lists.polls.as_slice(), resolution) else {
        return Some(Refusal::NoPoll);
    };
    if poll.started.is_none() {
        return Some(Refusal::PollNotOpen);
    }
    if poll.closed.is_some() {
        return Some(Refusal::PollClosed);
    }
    None
}

/// The answer to the close of a poll: the first that holds of `NoResolution`, `NoPoll`,
/// `PollNotOpen` and `PollClosed`; and else `VotingClosed`, which sets the moment. How many have
/// voted makes no difference. It takes no memory.
pub(crate) fn close_poll(
    lists: &MeetingLists,
    now: Moment,
    resolution: u64,
) -> Answer<MeetingChange>
    ensures answer { result ≡ ruled_answer (close_ruling lists.now now resolution) }
    ensures limits { if_any is_within_limits result.change ≡ true }
{
    if let Some(refusal) = close_refusal(lists, resolution) {
        return refuse(refusal);
    }
    Answer {
        reply: Reply::VotingClosed,
        change: Some(MeetingChange::SetPoll {
            resolution,
            change: PollChange::Closed(now),
        }),
    }
}

/// Why the result of a poll that is ordered is not declared.
fn declare_refusal(poll: &Poll) -> Option<Refusal>
    ensures { result ≡ first_refusal (result_cases (Some poll.now)) }
{
    if poll.closed.is_none() {
        return Some(Refusal::NotClosed);
    }
    if poll.declared.is_some() {
        return Some(Refusal::Declared);
    }
    None
}

/// The poll on a resolution whose result may be declared, or why it is not declared.
pub(crate) fn poll_to_declare(lists: &MeetingLists, resolution: u64) -> Result<Poll, Refusal>
    ensures poll { IfOk result (λ poll. poll_on lists.now.polls resolution ≡ Some poll) }
    ensures resolution { IfOk result
        (λ _. is_resolution (length lists.now.meeting.resolutions) resolution ≡ true) }
    ensures refusal { result_err result ≡ first_refusal (declare_cases lists.now resolution) }
{
    if !lists.meeting.has_resolution(resolution) {
        return Err(Refusal::NoResolution);
    }
    let Some(poll) = find_poll(lists.polls.as_slice(), resolution) else {
        return Err(Refusal::NoPoll);
    };
    match declare_refusal(&poll) {
        Some(refusal) => Err(refusal),
        None => Ok(poll),
    }
}

/// The result of a poll on a resolution of the meeting.
fn result_on(meeting: &Meeting, number: u64, tally: Tally) -> Declaration
    requires { is_resolution (length meeting.now.resolutions) number ≡ true }
    ensures value { result ≡ result_on (slice_get meeting.now.resolutions (number - 1)) tally }
    ensures count { result.tally ≡ tally }
{
    let resolution = &meeting.resolutions.as_slice()[(number - 1) as usize];
    result_of(resolution.kind, tally)
}

/// The count of the votes on a resolution, by the cutoffs of its poll.
fn tally_in(
    alloc: Global,
    closed: &Closed,
    lists: &MeetingLists,
    now: Moment,
    number: u64,
    poll: &Poll,
) -> Result<Tally, AllocError>
    requires meeting { is_meeting lists.now ≡ true }
    requires poll { poll_on lists.now.polls number ≡ Some poll.now }
    ensures value { IfOk result (λ t. t ≡ tally_in lists.now closed.now now number) }
    ensures limits { IfOk result (λ t. IsTrue (is_tally t)) }
{
    let cutoffs = cutoffs(&lists.meeting, Use::Vote(poll), closed, now);
    tally(alloc, &cutoffs, &papers_of(lists), number)
}

/// The answer that declares the result of a poll, by the count of its votes. The error is that of
/// the count.
fn declare(
    lists: &MeetingLists,
    resolution: u64,
    count: Result<Tally, AllocError>,
) -> Result<Answer<MeetingChange>, AllocError>
    requires { is_resolution (length lists.now.meeting.resolutions) resolution ≡ true }
    ensures { MatchResult count
        (λ tally. result ≡ Ok (declared_answer resolution
        (result_on (slice_get lists.now.meeting.resolutions (resolution - 1)) tally)))
        (λ error. result ≡ Err error) }
{
    let declaration = result_on(&lists.meeting, resolution, count?);
    Ok(Answer {
        reply: Reply::Declared(declaration),
        change: Some(MeetingChange::SetPoll {
            resolution,
            change: PollChange::Declared(declaration.tally),
        }),
    })
}

/// The answer to the declaration of a poll: the first that holds of `NoResolution`, `NoPoll`,
/// `NotClosed`, and the refusal `Declared` where it is declared already; and else the reply
/// `Declared`, with the count of the votes and whether the resolution is carried (sections 282 to
/// 284), which sets the count. The votes are counted by the cutoffs of the poll, by the closed days
/// as they stand (section 327). The error is want of memory; a refusal takes none. Its cost is that
/// of `vote_rules::tally`.
pub(crate) fn declare_poll(
    alloc: Global,
    closed: &Closed,
    lists: &MeetingLists,
    now: Moment,
    resolution: u64,
) -> Result<Answer<MeetingChange>, AllocError>
    requires { is_meeting lists.now ≡ true }
    ensures answer { IfOk result (λ a. a ≡ ruled_answer
        (declare_ruling lists.now closed.now now resolution)) }
    ensures limits { IfOk result (λ a. if_any is_within_limits a.change ≡ true) }
    ensures sure { refuses (declare_ruling lists.now closed.now now resolution) ≡ true
        → IsOk result }
{
    let poll = match poll_to_declare(lists, resolution) {
        Ok(poll) => poll,
        Err(refusal) => return Ok(refuse(refusal)),
    };
    let count = tally_in(alloc, closed, lists, now, resolution, &poll);
    declare(lists, resolution, count)
}
