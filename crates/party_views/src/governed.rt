//! What the appointments that name a party govern: of each, what its member's later appointments
//! leave it, in each session and for each late poll.
ghost use Rattle.std.specs.Prelude.{◌≡◌, List, ℕ, IfOk, map, filter, option_and_then};
ghost use Rattle.std.specs.BTreeMap.{get};
ghost use Rattle.std.specs.List.{slice_get};
ghost use Rattle.std.specs.Option.{option_copied};
ghost use Rattle.vocabulary.specs.Names.{name_cmp};
ghost use Rattle.proxy_rules.specs.Cutoffs.{is_late_poll};
ghost use Rattle.party_views.specs.ViewsByMember.{AreByMember, AreByMemberIfMany, is_asked_late, late_in_rows, late_of, received_with, same_cutoffs, cutoffs_in_session, session_in_rows};
ghost use Rattle.party_views.specs.OwnViews.{governed_by, governed_in_holding, received_by, rows_by};
ghost use Rattle.party_views.specs.RowsRead.{polls_if_on};
ghost use Rattle.party_views.specs.SessionLists.{each_session};

use crate::own_rows::MemberRows;
use desk_words::{
    Appointment, Listing, Meeting, Moment, Party, Poll, PollGoverned, Range, Received,
    SessionGoverned,
};
use office_days::Closed;
use proxy_rules::{Claims, Cutoffs, Use, cutoffs, is_late_poll};
use std::alloc::{AllocError, Global};
use std::collections::BTreeMap;
use std::marker::Model;

/// The cutoffs of a session.
#[derive(Clone, Copy)]
pub(crate) struct SessionCutoffs {
    /// Until when appointments and endings count for its quorum and its demands.
    pub acts: Cutoffs,
    /// Until when they count for votes on its polls that are not late.
    pub votes: Cutoffs,
}

/// The cutoffs of each session. Most meetings have one alone, and then they take no memory. Contracts
/// see the list.
#[derive(Drop)]
struct AllCutoffs {
    first: SessionCutoffs,
    /// Those of the sessions to which the meeting was adjourned.
    later: Vec<SessionCutoffs>,
}

impl Model for AllCutoffs {
    ghost use Rattle.std.specs.Prelude.{List, ◌∷◌};
    ghost use Rattle.party_views.specs.declared.governed.SessionCutoffs.{SessionCutoffs};

    ghost Value = { List SessionCutoffs };

    ghost view = { λ a. a.first ∷ a.later.items };
}

/// A late poll, with the cutoffs for votes on it.
#[derive(Clone, Copy)]
pub(crate) struct LatePoll {
    /// The number of the poll's resolution, from 1.
    pub resolution: u64,
    /// Until when appointments and endings count for it.
    pub cutoffs: Cutoffs,
}

/// The polls for which what appointments govern is worked out: all of a meeting, or, where a
/// resolution is named, that on it.
#[derive(Clone, Copy)]
pub(crate) struct PollsAsked<'a> {
    pub all: &'a [Poll],
    pub on: Option<u64>,
}

impl PollsAsked<'_> {
    /// Whether a poll is late, and on the resolution where one is named.
    fn has_late(&self, closed: &Closed, poll: &Poll) -> bool
        ensures { result ≡ is_asked_late self.now.on closed.now poll.now }
    {
        match self.on {
            Some(resolution) if poll.resolution != resolution => false,
            _ => is_late_poll(closed, poll),
        }
    }
}

/// Of up to so many members the rows are looked through.
const FEW: usize = 8;

/// The members who named a party, and, where they are more than a few, where the rows of each stand
/// among them.
#[derive(Clone, Copy)]
struct Members<'a> {
    rows: &'a [MemberRows],
    places: &'a BTreeMap<Party, usize>,
}

/// Where the last rows of each member stand.
fn places_by_member(
    alloc: Global,
    members: &[MemberRows],
) -> Result<BTreeMap<Party, usize>, AllocError>
    ensures { IfOk result (λ places. AreByMember members.now places) }
{
    let mut places = BTreeMap::new(alloc);
    let mut place = 0;
    for rows in members {
        places.insert(rows.member, place)?;
        place += 1;
    }
    Ok(places)
}

/// The same, where they are more than a few.
fn places_of_many(
    alloc: Global,
    members: &[MemberRows],
) -> Result<BTreeMap<Party, usize>, AllocError>
    ensures { IfOk result (λ places. AreByMemberIfMany members.now places) }
{
    if members.len() <= FEW {
        Ok(BTreeMap::new(alloc))
    } else {
        places_by_member(alloc, members)
    }
}

/// The cutoffs of the session of a number.
fn session_cutoffs(meeting: &Meeting, closed: &Closed, now: Moment, number: u64) -> SessionCutoffs
    ensures { result ≡ cutoffs_in_session meeting.now closed.now now number }
{
    SessionCutoffs {
        acts: cutoffs(meeting, Use::Acts(number), closed, now),
        votes: cutoffs(meeting, Use::Votes(number), closed, now),
    }
}

/// The cutoffs of the first session, where acts and votes have the same.
fn first_cutoffs(meeting: &Meeting, closed: &Closed, now: Moment) -> SessionCutoffs
    ensures { result ≡ cutoffs_in_session meeting.now closed.now now 1 }
{
    let votes = cutoffs(meeting, Use::Votes(1), closed, now);
    let acts = Cutoffs {
        appointments: votes.appointments,
        endings: votes.endings,
    };
    SessionCutoffs { acts, votes }
}

/// The cutoffs of each session.
fn all_cutoffs(
    alloc: Global,
    meeting: &Meeting,
    closed: &Closed,
    now: Moment,
) -> Result<AllCutoffs, AllocError>
    ensures { IfOk result (λ all. all
        ≡ each_session (cutoffs_in_session meeting.now closed.now now) meeting.now) }
{
    let first = first_cutoffs(meeting, closed, now);
    let mut later = Vec::new(alloc);
    for _session in meeting.later.as_slice() {
        let number = later.as_slice().len() as u64 + 2;
        later.push(session_cutoffs(meeting, closed, now, number))?;
    }
    Ok(AllCutoffs { first, later })
}

/// Those of the polls that are late, each with the cutoffs for votes on it.
fn late_polls(
    alloc: Global,
    meeting: &Meeting,
    closed: &Closed,
    polls: &PollsAsked,
    now: Moment,
) -> Result<Vec<LatePoll>, AllocError>
    ensures { IfOk result (λ late. late.items
        ≡ map (late_of meeting.now closed.now now)
        (filter (is_late_poll closed.now) (polls_if_on polls.now.on polls.now.all.now))) }
{
    let mut late = Vec::new(alloc);
    for poll in polls.all {
        if polls.has_late(closed, poll) {
            late.push(LatePoll {
                resolution: poll.resolution,
                cutoffs: cutoffs(meeting, Use::Vote(poll), closed, now),
            })?;
        }
    }
    Ok(late)
}

/// What an appointment of a holding governs, by its number.
fn governed_by_claims(
    alloc: Global,
    cutoffs: &Cutoffs,
    holding: &Claims,
    number: u64,
) -> Result<Vec<Range>, AllocError>
    ensures { IfOk result (λ runs. runs.items ≡ governed_in_holding cutoffs.now holding.now number) }
{
    if holding.is_valid() {
        holding.governed_by(alloc, cutoffs, number)
    } else {
        Ok(Vec::new(alloc))
    }
}

/// Whether both are the same cutoffs.
fn same_cutoffs(one: &Cutoffs, other: &Cutoffs) -> bool
    ensures { result ≡ same_cutoffs one.now other.now }
{
    one.appointments == other.appointments && one.endings == other.endings
}

fn copy_runs(runs: &Listing<Range>) -> Result<Listing<Range>, AllocError>
    ensures { IfOk result (λ copy. copy ≡ runs.now) }
{
    runs.clone()
}

impl<'a> Members<'a> {
    /// The rows of a member.
    fn rows_by(&self, member: Party) -> Option<&'a MemberRows>
        requires { AreByMemberIfMany self.now.rows.now self.now.places.now }
        ensures { option_copied result ≡ rows_by self.now.rows.now member }
    {
        if self.rows.len() <= FEW {
            self.rows.iter().rev().find(|rows| rows.member.is(member))
        } else {
            self.rows.get(*self.places.get(&member)?)
        }
    }

    /// What a member's appointment of a number governs.
    fn governed_by(
        &self,
        alloc: Global,
        cutoffs: &Cutoffs,
        member: Party,
        number: u64,
    ) -> Result<Listing<Range>, AllocError>
        requires { AreByMemberIfMany self.now.rows.now self.now.places.now }
        ensures { IfOk result
            (λ runs. runs ≡ governed_by self.now.rows.now cutoffs.now member number) }
    {
        match self.rows_by(member) {
            Some(rows) => {
                let runs = governed_by_claims(alloc, cutoffs, &rows.holding, number)?;
                Ok(Listing::from_vec(runs))
            }
            None => Ok(Listing::new(alloc)),
        }
    }

    /// What a member's appointment of a number governs for votes in a session, from what it governs
    /// for acts: where both have equal cutoffs, as they do in the first session, it is the same.
    fn votes_governed(
        &self,
        alloc: Global,
        session: &SessionCutoffs,
        acts: &Listing<Range>,
        member: Party,
        number: u64,
    ) -> Result<Listing<Range>, AllocError>
        requires members { AreByMemberIfMany self.now.rows.now self.now.places.now }
        requires acts { acts.now ≡ governed_by self.now.rows.now session.now.acts member number }
        ensures { IfOk result
            (λ runs. runs ≡ governed_by self.now.rows.now session.now.votes member number) }
    {
        if same_cutoffs(&session.votes, &session.acts) {
            copy_runs(acts)
        } else {
            self.governed_by(alloc, &session.votes, member, number)
        }
    }

    /// What a member's appointment of a number governs in a session.
    fn session_governed(
        &self,
        alloc: Global,
        session: &SessionCutoffs,
        member: Party,
        number: u64,
    ) -> Result<SessionGoverned, AllocError>
        requires { AreByMemberIfMany self.now.rows.now self.now.places.now }
        ensures { IfOk result (λ governed. governed
            ≡ session_in_rows self.now.rows.now member number session.now) }
    {
        let acts = self.governed_by(alloc, &session.acts, member, number)?;
        let votes = self.votes_governed(alloc, session, &acts, member, number)?;
        Ok(SessionGoverned { acts, votes })
    }

    /// What a member's appointment of a number governs in each of the sessions.
    fn sessions_governed(
        &self,
        alloc: Global,
        sessions: &AllCutoffs,
        member: Party,
        number: u64,
    ) -> Result<Listing<SessionGoverned>, AllocError>
        requires { AreByMemberIfMany self.now.rows.now self.now.places.now }
        ensures { IfOk result (λ all. all
            ≡ map (session_in_rows self.now.rows.now member number) sessions.now) }
    {
        let later = sessions.later.as_slice();
        let mut all = Listing::from_vec(Vec::with_capacity(alloc, later.len() + 1)?);
        all.push(self.session_governed(alloc, &sessions.first, member, number)?)?;
        for session in later {
            all.push(self.session_governed(alloc, session, member, number)?)?;
        }
        Ok(all)
    }

    /// What a member's appointment of a number governs for each of the late polls.
    fn polls_governed(
        &self,
        alloc: Global,
        late: &[LatePoll],
        member: Party,
        number: u64,
    ) -> Result<Listing<PollGoverned>, AllocError>
        requires { AreByMemberIfMany self.now.rows.now self.now.places.now }
        ensures { IfOk result
            (λ polls. polls ≡ map (late_in_rows self.now.rows.now member number) late.now) }
    {
        let mut polls = Listing::from_vec(Vec::with_capacity(alloc, late.len())?);
        for poll in late {
            polls.push(PollGoverned {
                resolution: poll.resolution,
                governs: self.governed_by(alloc, &poll.cutoffs, member, number)?,
            })?;
        }
        Ok(polls)
    }
}

/// An appointment as its proxy knows it, with what it governs.
fn known(
    alloc: Global,
    members: &Members,
    sessions: &AllCutoffs,
    late: &[LatePoll],
    appointment: Appointment,
) -> Result<Received, AllocError>
    requires { AreByMemberIfMany members.now.rows.now members.now.places.now }
    ensures { IfOk result
        (λ known. known ≡ received_with members.now.rows.now sessions.now late.now appointment) }
{
    let (member, number) = (appointment.member, appointment.number);
    Ok(Received {
        sessions: members.sessions_governed(alloc, sessions, member, number)?,
        polls: members.polls_governed(alloc, late, member, number)?,
        member,
        range: appointment.range,
        instructions: appointment.instructions,
        moment: appointment.moment,
    })
}

/// The appointments as their proxy knows them, each with what it governs.
fn all_known(
    alloc: Global,
    members: &Members,
    sessions: &AllCutoffs,
    late: &[LatePoll],
    received: Vec<Appointment>,
) -> Result<Vec<Received>, AllocError>
    requires { AreByMemberIfMany members.now.rows.now members.now.places.now }
    ensures { IfOk result (λ all. all.items
        ≡ map (received_with members.now.rows.now sessions.now late.now) received.items) }
{
    let mut all = Vec::with_capacity(alloc, received.len())?;
    for appointment in received {
        all.push(known(alloc, members, sessions, late, appointment)?)?;
    }
    Ok(all)
}

/// The appointments as their proxy knows them, each with what it governs by the rows of its member:
/// in each session, and for votes on each of these polls that is late. Where there are none, nothing
/// is worked out.
pub(crate) fn received_from(
    alloc: Global,
    received: Listing<Appointment>,
    members: &[MemberRows],
    closed: &Closed,
    meeting: &Meeting,
    polls: &PollsAsked,
    now: Moment,
) -> Result<Listing<Received>, AllocError>
    ensures { IfOk result (λ all. all
        ≡ map (received_by members.now closed.now meeting.now
        (polls_if_on polls.now.on polls.now.all.now) now) received) }
{
    if received.is_empty() {
        return Ok(Listing::new(alloc));
    }
    let places = places_of_many(alloc, members)?;
    let members = Members {
        rows: members,
        places: &places,
    };
    let late = late_polls(alloc, meeting, closed, polls, now)?;
    let sessions = all_cutoffs(alloc, meeting, closed, now)?;
    let all = all_known(
        alloc,
        &members,
        &sessions,
        late.as_slice(),
        received.into_vec(),
    )?;
    Ok(Listing::from_vec(all))
}
