//! The answers to votes that a party casts.
ghost use Rattle.std.specs.Prelude.{◌≡◌, Some};
ghost use Rattle.desk_words.specs.Refusals.{first_refusal};
ghost use Rattle.desk_words.specs.Rulings.{ruled_answer};
ghost use Rattle.desk_words.specs.declared.change.Entry.TheVariants as entry;
ghost use Rattle.desk_words.specs.declared.reply.Reply.TheVariants as reply;
ghost use Rattle.caller_view.specs.CastRulings.{block_of, cast_of, cast_range_cases, cast_ruling, has_cast_enough, instructed_cases, instructed_ruling, right_cases};
ghost use Rattle.caller_view.specs.Rights.{governed_at_poll};

use crate::rights::{is_against, is_not_own, is_uninstructed, may_vote_for};
use desk_words::limits::MOST_CASTS;
use desk_words::{
    Answer, Block, CastKind, CastMark, Entry, Meeting, Moment, NewCast, Poll, Range, Refusal,
    Reply, find_poll, refuse,
};
use party_views::{OwnView, PublicRecord};
use proxy_rules::is_late_poll;

fn has_cast_enough(own: &OwnView, resolution: u64) -> bool
    ensures { result ≡ has_cast_enough own.now resolution }
{
    own.casts.count_on(resolution) >= MOST_CASTS
}

/// Why a vote on places is not the party's to cast on a poll, which is late or not.
fn right_refusal(own: &OwnView, late: bool, poll: &Poll, new: &NewCast) -> Option<Refusal>
    ensures { result
        ≡ first_refusal (right_cases own.now (governed_at_poll late poll.now) new.now) }
{
    if is_not_own(own, late, poll, new, new.capacity) {
        return Some(Refusal::NotYours);
    }
    if is_against(own, late, poll, new, new.capacity) {
        return Some(Refusal::AgainstInstruction);
    }
    None
}

/// Why a vote on a range of places is not recorded, on a resolution of the meeting.
fn range_refusal(
    public: &PublicRecord,
    meeting: &Meeting,
    own: &OwnView,
    new: &NewCast,
) -> Option<Refusal>
    ensures { result ≡ first_refusal (cast_range_cases public.now meeting.now own.now new.now) }
{
    if has_cast_enough(own, new.resolution) {
        return Some(Refusal::TooMany);
    }
    if !meeting.loaded {
        return Some(Refusal::NoRegister);
    }
    if !may_vote_for(own, new.member, new.capacity) {
        return Some(Refusal::NoRight);
    }
    let Some(poll) = find_poll(public.polls(), new.resolution) else {
        return Some(Refusal::NoPoll);
    };
    if poll.started.is_none() {
        return Some(Refusal::PollNotOpen);
    }
    if poll.closed.is_some() {
        return Some(Refusal::PollClosed);
    }
    let late = is_late_poll(public.closed(), &poll);
    right_refusal(own, late, &poll, new)
}

/// What is cast on some of a member's shares.
fn block_of(new: &NewCast, range: Range) -> CastKind
    requires { range ≡ record { from = new.now.from; to = new.now.to } }
    ensures { result ≡ block_of new.now }
{
    CastKind::Block(Block {
        capacity: new.capacity,
        member: new.member,
        range,
        way: new.way,
    })
}

/// The vote that is recorded.
fn cast_of(own: &OwnView, now: Moment, resolution: u64, what: CastKind) -> CastMark
    ensures { result ≡ cast_of own.now now resolution what }
{
    CastMark {
        resolution,
        voter: own.party,
        what,
        moment: now,
    }
}

/// The answer that enters a vote.
fn recorded(cast: CastMark) -> Answer<Entry>
    ensures { result ≡ record { reply = reply.Recorded; change = Some (entry.Cast cast) } }
{
    Answer {
        reply: Reply::Recorded,
        change: Some(Entry::Cast(cast)),
    }
}

/// The answer to a vote that a party casts on some of a member's shares (sections 284, 322, 323 and
/// 324): the first that holds of `NoResolution`, `BadRange`, `TooMany` where the party cast 1,024
/// votes on the resolution, `NoRegister`, `NoRight` where it votes as a member and the member is
/// another or holds no shares as an individual, or as a representative and the member is no
/// corporation of the register or did not authorise it, `NoPoll`, `PollNotOpen`, `PollClosed`,
/// `NotYours` where a place is past the holding, or is none that it governs as a proxy for this
/// poll, and `AgainstInstruction` where an appointment that governs some of the places instructs it
/// otherwise (section 324A); and else `Recorded`, which enters the vote.
#[inline(never)]
pub(crate) fn cast(
    public: &PublicRecord,
    meeting: &Meeting,
    own: &OwnView,
    now: Moment,
    new: &NewCast,
) -> Answer<Entry>
    ensures { result ≡ ruled_answer (cast_ruling public.now meeting.now own.now now new.now) }
{
    if !meeting.has_resolution(new.resolution) {
        return refuse(Refusal::NoResolution);
    }
    let Some(range) = Range::new(new.from, new.to) else {
        return refuse(Refusal::BadRange);
    };
    match range_refusal(public, meeting, own, new) {
        Some(refusal) => refuse(refusal),
        None => recorded(cast_of(own, now, new.resolution, block_of(new, range))),
    }
}

fn instructed_refusal(
    public: &PublicRecord,
    meeting: &Meeting,
    own: &OwnView,
    resolution: u64,
) -> Option<Refusal>
    ensures { result ≡ first_refusal (instructed_cases public.now meeting.now own.now resolution) }
{
    if !meeting.has_resolution(resolution) {
        return Some(Refusal::NoResolution);
    }
    if has_cast_enough(own, resolution) {
        return Some(Refusal::TooMany);
    }
    if !meeting.loaded {
        return Some(Refusal::NoRegister);
    }
    let Some(poll) = find_poll(public.polls(), resolution) else {
        return Some(Refusal::NoPoll);
    };
    if poll.started.is_none() {
        return Some(Refusal::PollNotOpen);
    }
    if poll.closed.is_some() {
        return Some(Refusal::PollClosed);
    }
    let late = is_late_poll(public.closed(), &poll);
    if is_uninstructed(own, late, &poll, resolution) {
        return Some(Refusal::NotYours);
    }
    None
}

/// The answer to what a proxy casts as instructed (section 324A): the first that holds of
/// `NoResolution`, `TooMany` where the party cast 1,024 votes on the resolution, `NoRegister`,
/// `NoPoll`, `PollNotOpen`, `PollClosed`, and `NotYours` where it governs no share for this poll
/// with an instruction other than free; and else `Recorded`, which enters the vote.
#[inline(never)]
pub(crate) fn instructed(
    public: &PublicRecord,
    meeting: &Meeting,
    own: &OwnView,
    now: Moment,
    resolution: u64,
) -> Answer<Entry>
    ensures { result ≡ ruled_answer (instructed_ruling public.now meeting.now own.now now resolution) }
{
    match instructed_refusal(public, meeting, own, resolution) {
        Some(refusal) => refuse(refusal),
        None => recorded(cast_of(own, now, resolution, CastKind::AsInstructed)),
    }
}
