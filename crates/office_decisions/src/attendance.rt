//! Who is present, whether they make a quorum, and whether enough shares demand a poll.
ghost use Rattle.std.specs.Prelude.{◌≡◌, ◌==◌, true, IfOk};
ghost use Rattle.std.specs.List.{filter_map, list_any, slice_get};
ghost use Rattle.desk_words.specs.Office.{is_meeting};
ghost use Rattle.desk_words.specs.Rulings.{ruled_answer};
ghost use Rattle.desk_words.specs.declared.records.PresenceMark.{PresenceMark};
ghost use Rattle.office_decisions.specs.PresenceRulings.{demand_noted, is_marked, presence_ruling, quorum_in};
ghost use Rattle.office_decisions.specs.RequestLimits.{if_any, is_within_limits};

use desk_words::{
    Answer, Entry, Filed, Meeting, MeetingChange, MeetingLists, Moment, Party, PresenceMark, noted,
};
use office_days::Closed;
use poll_rules::{Demand, Papers, Use, cutoffs, demand_reached, quorum};
use std::alloc::{AllocError, Global};

/// The mark at a place.
fn mark_at(presences: &[PresenceMark], place: usize) -> Option<PresenceMark>
    ensures { result ≡ slice_get presences.now place }
{
    presences.get(place).copied()
}

/// Whether a mark at one of the places is of the session.
fn any_in(presences: &[PresenceMark], places: &[usize], session: u64) -> bool
    ensures { result ≡ list_any (λ (mark : PresenceMark). mark.session == session)
        (filter_map (slice_get presences.now) places.now) }
{
    places
        .iter()
        .filter_map(|place| mark_at(presences, *place))
        .any(|mark| mark.session == session)
}

/// Whether the party's presence in the last session is marked.
fn is_marked(meeting: &Meeting, presences: &Filed<PresenceMark>, party: Party) -> bool
    ensures { result ≡ is_marked meeting.now presences.now party }
{
    let places = presences.places_by_first(party);
    any_in(presences.as_slice(), places, meeting.last_number())
}

/// The answer to a presence in the last session that the office notes (section 318): `Noted`, which
/// enters the mark unless it stands already. It takes no memory.
pub(crate) fn note_presence(
    lists: &MeetingLists,
    now: Moment,
    party: Party,
) -> Answer<MeetingChange>
    ensures answer { result ≡ ruled_answer (presence_ruling lists.now now party) }
    ensures limits { if_any is_within_limits result.change ≡ true }
{
    let presence = PresenceMark {
        session: lists.meeting.last_number(),
        party,
        moment: now,
    };
    noted(
        is_marked(&lists.meeting, &lists.presences, party),
        MeetingChange::Enter(Entry::Presence(presence)),
    )
}

/// The lists of a meeting, as its rules read them.
pub(crate) fn papers_of(lists: &MeetingLists) -> Papers
    ensures register { result.register.now ≡ lists.now.register }
    ensures appointments { result.appointments.now ≡ lists.now.appointments }
    ensures endings { result.endings.now ≡ lists.now.endings }
    ensures authorities { result.authorities.now ≡ lists.now.authorities }
    ensures presences { result.presences.now ≡ lists.now.presences }
    ensures demands { result.demands.now ≡ lists.now.demands }
    ensures casts { result.casts.now ≡ lists.now.casts }
{
    Papers {
        register: lists.register.as_slice(),
        appointments: &lists.appointments,
        endings: &lists.endings,
        authorities: &lists.authorities,
        presences: &lists.presences,
        demands: &lists.demands,
        casts: &lists.casts,
    }
}

/// Whether those who are present in the last session make a quorum.
pub(crate) fn quorum_in(
    alloc: Global,
    closed: &Closed,
    lists: &MeetingLists,
    now: Moment,
) -> Result<bool, AllocError>
    requires { is_meeting lists.now ≡ true }
    ensures { IfOk result (λ is_quorum. is_quorum ≡ quorum_in lists.now closed.now now) }
{
    let last = lists.meeting.last_number();
    let cutoffs = cutoffs(&lists.meeting, Use::Acts(last), closed, now);
    quorum(alloc, &cutoffs, &papers_of(lists), last)
}

/// The demand in the last session of a poll on a resolution.
pub(crate) fn demand_in(
    alloc: Global,
    closed: &Closed,
    lists: &MeetingLists,
    now: Moment,
    resolution: u64,
) -> Result<Demand, AllocError>
    requires { is_meeting lists.now ≡ true }
    ensures { IfOk result (λ demand. demand ≡ demand_noted lists.now closed.now now resolution) }
{
    let last = lists.meeting.last_number();
    let cutoffs = cutoffs(&lists.meeting, Use::Acts(last), closed, now);
    demand_reached(alloc, &cutoffs, &papers_of(lists), last, resolution)
}
