//! The notice of a meeting.
ghost use Rattle.std.specs.Prelude.{◌≡◌, IfOk, option_map};
ghost use Rattle.caller_view.specs.Notices.{noticed_poll, noticed_resolution, noticed_session, notice_of};
ghost use Rattle.party_views.specs.SessionLists.{enumerate_from};
ghost use Rattle.desk_words.specs.Finding.{poll_on};
ghost use Rattle.desk_words.specs.Majority.{result_of};
ghost use Rattle.proxy_rules.specs.Cutoffs.{cutoffs_of, is_late_poll};
ghost use Rattle.proxy_rules.specs.Uses.{Vote, Votes};

use desk_words::{
    Declaration, Listing, Meeting, Moment, Notice, NoticedPoll, NoticedResolution, NoticedSession,
    Poll, ResKind, Resolution, Session, Tally, find_poll, result_of,
};
use office_days::Closed;
use party_views::PublicRecord;
use proxy_rules::{Use, cutoffs, is_late_poll};
use std::alloc::{AllocError, Global};

fn declared_result(kind: ResKind, declared: Option<Tally>) -> Option<Declaration>
    ensures { result ≡ option_map (result_of kind) declared }
{
    match declared {
        None => None,
        Some(tally) => Some(result_of(kind, tally)),
    }
}

/// The cutoff for votes on a poll, from that for votes in the first session.
fn poll_cutoff(
    meeting: &Meeting,
    closed: &Closed,
    now: Moment,
    first: Moment,
    late: bool,
    poll: &Poll,
) -> Moment
    requires first { first ≡ (cutoffs_of meeting.now (Votes 1) closed.now now).appointments }
    requires late { late ≡ is_late_poll closed.now poll.now }
    ensures { result ≡ (cutoffs_of meeting.now (Vote poll.now) closed.now now).appointments }
{
    if !late && poll.session == 1 {
        first
    } else {
        cutoffs(meeting, Use::Vote(poll), closed, now).appointments
    }
}

fn noticed_poll(
    meeting: &Meeting,
    closed: &Closed,
    now: Moment,
    first: Moment,
    kind: ResKind,
    poll: Poll,
) -> NoticedPoll
    requires { first ≡ (cutoffs_of meeting.now (Votes 1) closed.now now).appointments }
    ensures { result ≡ noticed_poll meeting.now closed.now now kind poll }
{
    let late = is_late_poll(closed, &poll);
    NoticedPoll {
        session: poll.session,
        ordered: poll.ordered,
        take: poll.take,
        chair: poll.chair,
        started: poll.started,
        closed: poll.closed,
        late,
        cutoff: poll_cutoff(meeting, closed, now, first, late, &poll),
        result: declared_result(kind, poll.declared),
    }
}

fn poll_in(
    public: &PublicRecord,
    meeting: &Meeting,
    now: Moment,
    first: Moment,
    number: u64,
    kind: ResKind,
) -> Option<NoticedPoll>
    requires { first
        ≡ (cutoffs_of meeting.now (Votes 1) public.now.closed now).appointments }
    ensures { result ≡ option_map (noticed_poll meeting.now public.now.closed now kind)
        (poll_on public.now.polls number) }
{
    let poll = find_poll(public.polls(), number)?;
    let closed = public.closed();
    Some(noticed_poll(meeting, closed, now, first, kind, poll))
}

fn noticed_resolution(
    public: &PublicRecord,
    meeting: &Meeting,
    now: Moment,
    first: Moment,
    number: u64,
    resolution: &Resolution,
) -> Result<NoticedResolution, AllocError>
    requires { first
        ≡ (cutoffs_of meeting.now (Votes 1) public.now.closed now).appointments }
    ensures { IfOk result (λ r. r ≡ noticed_resolution meeting.now public.now.polls
        public.now.closed now number resolution.now) }
{
    Ok(NoticedResolution {
        number,
        kind: resolution.kind,
        text: resolution.text.clone()?,
        poll: poll_in(public, meeting, now, first, number, resolution.kind),
    })
}

fn noticed_resolutions(
    alloc: Global,
    public: &PublicRecord,
    meeting: &Meeting,
    now: Moment,
    first: Moment,
) -> Result<Vec<NoticedResolution>, AllocError>
    requires { first
        ≡ (cutoffs_of meeting.now (Votes 1) public.now.closed now).appointments }
    ensures { IfOk result (λ v. v.items ≡ enumerate_from
        (noticed_resolution meeting.now public.now.polls public.now.closed now) 1
        meeting.now.resolutions) }
{
    let resolutions = meeting.resolutions.as_slice();
    let mut noticed = Vec::with_capacity(alloc, resolutions.len())?;
    for resolution in resolutions {
        let number = noticed.as_slice().len() as u64 + 1;
        noticed.push(noticed_resolution(public, meeting, now, first, number, resolution)?)?;
    }
    Ok(noticed)
}

fn noticed_session(
    meeting: &Meeting,
    closed: &Closed,
    now: Moment,
    number: u64,
    session: &Session,
) -> NoticedSession
    ensures { result ≡ noticed_session meeting.now closed.now now number session.now }
{
    NoticedSession {
        appointed: session.appointed,
        cutoff: cutoffs(meeting, Use::Votes(number), closed, now).appointments,
        opened: session.opened,
    }
}

/// The sessions to which the meeting was adjourned, which are numbered from 2.
fn noticed_sessions(
    alloc: Global,
    meeting: &Meeting,
    closed: &Closed,
    now: Moment,
) -> Result<Vec<NoticedSession>, AllocError>
    ensures { IfOk result (λ v. v.items ≡ enumerate_from
        (noticed_session meeting.now closed.now now) 2 meeting.now.later) }
{
    let mut noticed = Vec::new(alloc);
    for session in meeting.later.as_slice() {
        let number = noticed.as_slice().len() as u64 + 2;
        noticed.push(noticed_session(meeting, closed, now, number, session))?;
    }
    Ok(noticed)
}

/// The notice of a meeting, with its polls and cutoffs by the closed days as they stand (sections
/// 307 and 327). The error is want of memory.
pub(crate) fn notice_in(
    alloc: Global,
    public: &PublicRecord,
    meeting: &Meeting,
    now: Moment,
) -> Result<Notice, AllocError>
    ensures { IfOk result (λ n. n ≡ notice_of meeting.now public.now.polls public.now.closed now) }
{
    let first = noticed_session(meeting, public.closed(), now, 1, &meeting.first);
    let resolutions = noticed_resolutions(alloc, public, meeting, now, first.cutoff)?;
    Ok(Notice {
        meeting: meeting.id,
        company: meeting.company,
        kind: meeting.kind,
        given: meeting.given,
        first,
        later: Listing::from_vec(noticed_sessions(alloc, meeting, public.closed(), now)?),
        record_moment: meeting.record_moment,
        loaded: meeting.loaded,
        resolutions: Listing::from_vec(resolutions),
    })
}
