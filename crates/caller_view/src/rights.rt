//! On which shares a party may vote on a poll, and how, by its own things.
ghost use Rattle.std.specs.Prelude.{◌≡◌, ◌==◌, false, None, IfSome, find};
ghost use Rattle.std.specs.List.{list_any};
ghost use Rattle.std.specs.Option.{option_copied};
ghost use Rattle.desk_words.specs.Names.{same_name};
ghost use Rattle.desk_words.specs.Places.{Places, holds};
ghost use Rattle.desk_words.specs.declared.own_things.Authorised.{Authorised};
ghost use Rattle.desk_words.specs.declared.own_things.PollGoverned.{PollGoverned};
ghost use Rattle.caller_view.specs.Rights.{IsRunAt, forbids, governed_acts, governed_at_poll, governed_late, governed_votes, governs_at, instructs, is_against, is_governed, is_not_own, is_past, is_uninstructed, may_vote_for, meets, represented, some_fail};
ghost use Rattle.party_views.specs.SessionLists.{at_number, at_session};

use desk_words::{
    Authorised, Capacity, NewCast, Party, Poll, PollGoverned, Range, Received, RegisterRow,
    SessionGoverned,
};
use party_views::{OwnView, holds_as_individual};
use proxy_rules::{allows, instructed_on};

/// What the party knows of a corporation that authorised it.
fn authorised_by(authorised: &[Authorised], member: Party) -> Option<Authorised>
    ensures { result ≡ find (λ (a : Authorised). same_name a.corporation member) authorised.now }
{
    authorised
        .iter()
        .copied()
        .find(|a| a.corporation.is(member))
}

/// The shares for which the party may act of a corporation that authorised it.
fn represented(authorised: &[Authorised], member: Party) -> u64
    ensures { result ≡ represented authorised.now member }
{
    match authorised_by(authorised, member) {
        Some(authorised) => authorised.shares,
        None => 0,
    }
}

/// What is governed for the late poll on a resolution.
fn late_poll(polls: &[PollGoverned], resolution: u64) -> Option<&PollGoverned>
    ensures { option_copied result
        ≡ find (λ (p : PollGoverned). p.resolution == resolution) polls.now }
{
    polls.iter().find(|poll| poll.resolution == resolution)
}

/// The runs for the late poll on a resolution.
fn governed_late(polls: &[PollGoverned], resolution: u64) -> &[Range]
    ensures { result.now ≡ governed_late polls.now resolution }
{
    match late_poll(polls, resolution) {
        Some(poll) => poll.governs.as_slice(),
        None => &[],
    }
}

/// What is governed in the session of a number, if there is one.
fn at_number(sessions: &[SessionGoverned], number: u64) -> Option<&SessionGoverned>
    ensures { option_copied result ≡ at_number sessions.now number }
{
    match number {
        0 => None,
        further => sessions.get(further as usize - 1),
    }
}

/// What is governed in the session of a number, or in the first where there is none of it.
fn at_session(sessions: &[SessionGoverned], number: u64) -> Option<&SessionGoverned>
    ensures { option_copied result ≡ at_session sessions.now number }
{
    match at_number(sessions, number) {
        Some(governed) => Some(governed),
        None => sessions.first(),
    }
}

/// What an appointment governs for the quorum and the demands of a session.
pub(crate) fn governed_acts(session: u64, received: &Received) -> &[Range]
    ensures { result.now ≡ governed_acts session received.now }
{
    match at_session(received.sessions.as_slice(), session) {
        Some(governed) => governed.acts.as_slice(),
        None => &[],
    }
}

/// What an appointment governs for votes in a session, on its polls that are not late.
fn governed_votes(session: u64, received: &Received) -> &[Range]
    ensures { result.now ≡ governed_votes session received.now }
{
    match at_session(received.sessions.as_slice(), session) {
        Some(governed) => governed.votes.as_slice(),
        None => &[],
    }
}

/// What an appointment governs for votes on a poll: where it is late, for that poll, and else for
/// votes in its session.
fn governed_at_poll<'a>(late: bool, poll: &Poll, received: &'a Received) -> &'a [Range]
    ensures { result.now ≡ governed_at_poll late poll.now received.now }
{
    if late {
        governed_late(received.polls.as_slice(), poll.resolution)
    } else {
        governed_votes(poll.session, received)
    }
}

/// Whether the party may vote for the member in the capacity. Of a proxy only the places are asked.
pub(crate) fn may_vote_for(own: &OwnView, member: Party, capacity: Capacity) -> bool
    ensures { result ≡ may_vote_for own.now member capacity }
{
    match capacity {
        Capacity::Member => member.is(own.party) && holds_as_individual(&own.row),
        Capacity::Rep => represented(own.authorised.as_slice(), member) > 0,
        Capacity::Proxy => true,
    }
}

/// Whether some of the runs have the place.
fn any_has(runs: &[Range], place: u64) -> bool
    ensures { result ≡ list_any (λ (run : Places). holds run place) runs.now }
{
    runs.iter().any(|run| run.has(place))
}

/// Whether an appointment is the member's, and governs the place for the poll.
fn governs_at(received: &Received, late: bool, poll: &Poll, new: &NewCast, place: u64) -> bool
    ensures { result ≡ governs_at (governed_at_poll late poll.now) new.now place received.now }
{
    received.member.is(new.member) && any_has(governed_at_poll(late, poll, received), place)
}

/// An appointment of the member that governs the place for the poll.
fn appointment_at<'a>(
    received: &'a [Received],
    late: bool,
    poll: &Poll,
    new: &NewCast,
    place: u64,
) -> Option<&'a Received>
    ensures { option_copied result
        ≡ find (governs_at (governed_at_poll late poll.now) new.now place) received.now }
{
    received
        .iter()
        .find(|r| governs_at(r, late, poll, new, place))
}

/// The run that has the place.
fn run_with(runs: &[Range], place: u64) -> Option<Range>
    ensures { result ≡ find (λ (run : Places). holds run place) runs.now }
{
    runs.iter().copied().find(|run| run.has(place))
}

/// A run that has the place, of what the party governs of the member's shares for the poll.
fn run_at(
    received: &[Received],
    late: bool,
    poll: &Poll,
    new: &NewCast,
    place: u64,
) -> Option<Range>
    ensures some { IfSome result
        (λ run. IsRunAt received.now (governed_at_poll late poll.now) new.now place run) }
    ensures none { result ≡ None
        → is_governed received.now (governed_at_poll late poll.now) new.now place ≡ false }
{
    match appointment_at(received, late, poll, new, place) {
        Some(found) => run_with(governed_at_poll(late, poll, found), place),
        None => None,
    }
}

/// Whether the party does not govern, for the poll, some of the places. It goes from run to run.
fn some_ungoverned(received: &[Received], late: bool, poll: &Poll, new: &NewCast) -> bool
    ensures { result
        ≡ some_fail (is_governed received.now (governed_at_poll late poll.now) new.now) new.now.from
        new.now.to }
{
    let mut next = new.from.max(1);
    while next <= new.to {
        match run_at(received, late, poll, new, next) {
            Some(run) => next = run.to() + 1,
            None => return true,
        }
    }
    false
}

fn is_past(row: &Option<RegisterRow>, place: u64) -> bool
    ensures { result ≡ is_past row.now place }
{
    match row {
        None => false,
        Some(row) => place > row.shares,
    }
}

/// Whether some place is not the party's to vote on in the capacity.
pub(crate) fn is_not_own(
    own: &OwnView,
    late: bool,
    poll: &Poll,
    new: &NewCast,
    capacity: Capacity,
) -> bool
    ensures { result ≡ is_not_own own.now (governed_at_poll late poll.now) new.now capacity }
{
    match capacity {
        Capacity::Member => is_past(&own.row, new.to),
        Capacity::Rep => represented(own.authorised.as_slice(), new.member) < new.to,
        Capacity::Proxy => some_ungoverned(own.received.as_slice(), late, poll, new),
    }
}

/// Whether a run has a place from the first to the last.
fn meets(run: Range, from: u64, to: u64) -> bool
    ensures { result ≡ meets from to run }
{
    run.from() <= to && from <= run.to()
}

fn any_meets(runs: &[Range], from: u64, to: u64) -> bool
    ensures { result ≡ list_any (meets from to) runs.now }
{
    runs.iter().any(|run| meets(*run, from, to))
}

/// Whether an appointment of the member governs some of the places for the poll, and instructs
/// otherwise.
fn forbids(received: &Received, late: bool, poll: &Poll, new: &NewCast) -> bool
    ensures { result ≡ forbids (governed_at_poll late poll.now) new.now received.now }
{
    received.member.is(new.member)
        && !allows(
            instructed_on(received.instructions.as_slice(), new.resolution),
            new.way,
        )
        && any_meets(governed_at_poll(late, poll, received), new.from, new.to)
}

fn any_forbids(received: &[Received], late: bool, poll: &Poll, new: &NewCast) -> bool
    ensures { result ≡ list_any (forbids (governed_at_poll late poll.now) new.now) received.now }
{
    received.iter().any(|r| forbids(r, late, poll, new))
}

/// Whether a vote is cast as proxy against an instruction of an appointment that governs some of
/// the places.
pub(crate) fn is_against(
    own: &OwnView,
    late: bool,
    poll: &Poll,
    new: &NewCast,
    capacity: Capacity,
) -> bool
    ensures { result ≡ is_against own.now (governed_at_poll late poll.now) new.now capacity }
{
    match capacity {
        Capacity::Member | Capacity::Rep => false,
        Capacity::Proxy => any_forbids(own.received.as_slice(), late, poll, new),
    }
}

/// Whether an appointment governs a share for the poll, and instructs its proxy on the resolution.
fn instructs(received: &Received, late: bool, poll: &Poll, resolution: u64) -> bool
    ensures { result ≡ instructs (governed_at_poll late poll.now) resolution received.now }
{
    instructed_on(received.instructions.as_slice(), resolution).is_some()
        && !governed_at_poll(late, poll, received).is_empty()
}

fn any_instructs(received: &[Received], late: bool, poll: &Poll, resolution: u64) -> bool
    ensures { result ≡ list_any (instructs (governed_at_poll late poll.now) resolution) received.now }
{
    received
        .iter()
        .any(|r| instructs(r, late, poll, resolution))
}

/// Whether the party governs no share for the poll on which it is instructed.
pub(crate) fn is_uninstructed(own: &OwnView, late: bool, poll: &Poll, resolution: u64) -> bool
    ensures { result ≡ is_uninstructed own.now (governed_at_poll late poll.now) resolution }
{
    !any_instructs(own.received.as_slice(), late, poll, resolution)
}
