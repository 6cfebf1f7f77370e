//! The answer to a party.
ghost use Rattle.std.specs.Prelude.{◌≡◌, true, IfOk, IsOk, None, map};
ghost use Rattle.desk_words.specs.Rulings.{refuses, reply_only, ruled_answer};
ghost use Rattle.desk_words.specs.declared.reply.Reply.TheVariants as reply;
ghost use Rattle.desk_words.specs.declared.request.PartyRequest.TheVariants as request;
ghost use Rattle.party_views.specs.declared.views.OwnView.{OwnView};
ghost use Rattle.caller_view.specs.Notices.{notice_of};
ghost use Rattle.caller_view.specs.PartyRulings.{mine_of, party_ruling, party_needs_no_memory};
ghost use Rattle.caller_view.specs.AppointmentRulings.{cutoff_in, given_use, use_by};

use crate::appointments::{appoint, end, use_by};
use crate::attendance::{attend, authorise, demand};
use crate::casts::{cast, instructed};
use crate::notices::notice_in;
use desk_words::{
    Answer, AppointmentUse, Boxed, Entry, Given, GivenUse, Listing, Meeting, Mine, Moment,
    PartyRequest, Refusal, Reply, refuse, reply_unchanged,
};
use party_views::{OwnView, PublicRecord};
use proxy_rules::{Use, cutoffs};
use std::alloc::{AllocError, Global};

/// What an appointment that a party gave counts for.
fn use_of(given: &Given, cutoff: Moment) -> AppointmentUse
    ensures { result ≡ use_by cutoff given.now.appointment.moment }
{
    use_by(cutoff, given.appointment.moment)
}

/// The appointments that a party gave, each with what it counts for.
fn given_uses(alloc: Global, given: Vec<Given>, cutoff: Moment) -> Result<Vec<GivenUse>, AllocError>
    ensures { IfOk result (λ v. v.items ≡ map (given_use cutoff) given.items) }
{
    let mut uses = Vec::with_capacity(alloc, given.len())?;
    for one in given {
        let used = use_of(&one, cutoff);
        uses.push(GivenUse { given: one, used })?;
    }
    Ok(uses)
}

/// The last moment at which an appointment counts for votes in the last session.
pub(crate) fn cutoff_in(public: &PublicRecord, meeting: &Meeting, now: Moment) -> Moment
    ensures { result ≡ cutoff_in public.now meeting.now now }
{
    let last = Use::Votes(meeting.last_number());
    cutoffs(meeting, last, public.closed(), now).appointments
}

/// The appointments that a party gave, each with what it counts for in the last session. Where there
/// are none, nothing is worked out.
fn given_now(
    alloc: Global,
    public: &PublicRecord,
    meeting: &Meeting,
    now: Moment,
    given: Listing<Given>,
) -> Result<Listing<GivenUse>, AllocError>
    ensures { IfOk result
        (λ uses. uses ≡ map (given_use (cutoff_in public.now meeting.now now)) given) }
{
    if given.is_empty() {
        return Ok(Listing::new(alloc));
    }
    let cutoff = cutoff_in(public, meeting, now);
    let uses = given_uses(alloc, given.into_vec(), cutoff)?;
    Ok(Listing::from_vec(uses))
}

/// What a party is told of its own things.
fn mine(
    alloc: Global,
    public: &PublicRecord,
    meeting: &Meeting,
    own: OwnView,
    now: Moment,
) -> Result<Mine, AllocError>
    ensures { IfOk result (λ m. m ≡ mine_of public.now meeting.now own now) }
{
    Ok(Mine {
        meeting: meeting.id,
        row: own.row,
        given: given_now(alloc, public, meeting, now, own.given)?,
        persons: own.persons,
        received: own.received,
        authorised: own.authorised,
        session: meeting.last_number(),
        presences: own.presences,
        demands: own.demands,
        casts: own.casts.into_all(alloc),
    })
}

/// The answer to a party that asks for its own things. Other requests are not to pay for the places
/// of its values.
#[inline(never)]
fn answer_mine(
    alloc: Global,
    public: &PublicRecord,
    meeting: &Meeting,
    own: OwnView,
    now: Moment,
) -> Result<Answer<Entry>, AllocError>
    ensures { IfOk result (λ a. a
        ≡ ruled_answer (reply_only (reply.Mine (mine_of public.now meeting.now own now)))) }
{
    let mine = mine(alloc, public, meeting, own, now)?;
    Ok(reply_unchanged(Reply::Mine(Boxed::new(alloc, mine)?)))
}

/// The answer to a party that asks for the notice of a meeting.
fn noticed(
    alloc: Global,
    public: &PublicRecord,
    meeting: &Meeting,
    now: Moment,
) -> Result<Answer<Entry>, AllocError>
    ensures { IfOk result (λ a. a ≡ ruled_answer (reply_only (reply.Notice
        (notice_of meeting.now public.now.polls public.now.closed now)))) }
{
    let notice = notice_in(alloc, public, meeting, now)?;
    Ok(reply_unchanged(Reply::Notice(Boxed::new(alloc, notice)?)))
}

/// The answer to a party that asks for the notice, as `answer` says. It reads nothing of the
/// party's own. That there is no meeting takes no memory to say.
#[inline(never)]
pub fn answer_notice(
    alloc: Global,
    public: &PublicRecord,
    now: Moment,
) -> Result<Answer<Entry>, AllocError>
    ensures answer { IfOk result (λ a. (own : OwnView)
        → a ≡ ruled_answer (party_ruling public.now own now request.Notice)) }
    ensures sure { public.now.meeting ≡ None → IsOk result }
{
    match public.meeting() {
        Some(meeting) => noticed(alloc, public, meeting, now),
        None => Ok(refuse(Refusal::NoMeeting)),
    }
}

/// The answer to a party: a function of what it may see, the moment and the request. It is refused
/// as `NoMeeting` where there is no meeting, and else as its request is. The own things are taken,
/// since the reply may be made of them. The error is want of memory: a notice and own things take
/// some, and nothing else does.
#[inline(always)]
pub fn answer(
    alloc: Global,
    public: &PublicRecord,
    own: OwnView,
    now: Moment,
    asked: &PartyRequest,
) -> Result<Answer<Entry>, AllocError>
    ensures answer { IfOk result (λ a. a ≡ ruled_answer
        (party_ruling public.now own now asked.now)) }
    ensures sure { refuses (party_ruling public.now own now asked.now) ≡ true → IsOk result }
    ensures no_memory { party_needs_no_memory asked.now ≡ true → IsOk result }
{
    let Some(meeting) = public.meeting() else {
        return Ok(refuse(Refusal::NoMeeting));
    };
    let answer = match asked {
        PartyRequest::Notice => return answer_notice(alloc, public, now),
        PartyRequest::Mine => return answer_mine(alloc, public, meeting, own, now),
        PartyRequest::Appoint(new) => appoint(public, meeting, &own, now, new),
        PartyRequest::End(number) => end(&own, now, *number),
        PartyRequest::Authorise(person) => authorise(&own, now, *person),
        PartyRequest::Attend => attend(meeting, &own, now),
        PartyRequest::Demand(resolution) => demand(public, meeting, &own, now, *resolution),
        PartyRequest::Cast(new) => cast(public, meeting, &own, now, new),
        PartyRequest::Instructed(resolution) => instructed(public, meeting, &own, now, *resolution),
    };
    Ok(answer)
}
