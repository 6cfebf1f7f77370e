//! Whether polls and casts are those of a meeting.
ghost use Rattle.std.specs.Prelude.{◌≡◌, ◌&&◌, ◌==◌, Some, count_by, nat_le, not, take, true};
ghost use Rattle.std.specs.List.{list_all, list_any, slice_get};
ghost use Rattle.std.specs.Option.{option_copied};
ghost use Rattle.seq.specs.Ordered.{ascends_by};
ghost use Rattle.vocabulary.specs.Names.{same_name};
ghost use Rattle.desk_words.specs.declared.records.CastMark.{CastMark};
ghost use Rattle.desk_words.specs.declared.records.Poll.{Poll};
ghost use Rattle.desk_words.specs.declared.limits.TheConstants.{MOST_CASTS};
ghost use Rattle.desk_words.specs.Office.{are_casts, is_cast_on, same_ballot};
ghost use Rattle.desk_words.specs.Office.{are_polls, is_declared_right, is_poll, is_tally};
ghost use Rattle.desk_words.specs.Office.{poll_before};

use crate::keys::{Marked, times};
use desk_words::limits::{MOST_CASTS, MOST_SHARES};
use desk_words::{CastMark, Filed, Meeting, Party, Poll, Tally};
use seq::ascend;

/// Whether the votes are those of some shares, and the shares `MOST_SHARES` at most (section 284).
fn is_tally(tally: &Tally) -> bool
    ensures { result ≡ is_tally tally.now }
{
    tally.eligible <= MOST_SHARES
        && tally.votes_for <= tally.eligible
        && tally.votes_against <= tally.eligible - tally.votes_for
        && tally.withheld <= tally.eligible - tally.votes_for - tally.votes_against
}

fn is_declared_right(declared: Option<&Tally>) -> bool
    ensures { result ≡ is_declared_right (option_copied declared.entry) }
{
    match declared {
        None => true,
        Some(tally) => is_tally(tally),
    }
}

/// Whether it is a poll in an opened session, on a resolution of the meeting, that came no further
/// than it may (section 321).
fn is_poll(meeting: &Meeting, poll: &Poll) -> bool
    ensures { result ≡ is_poll meeting.now poll.now }
{
    meeting.has_opened(poll.session)
        && meeting.has_resolution(poll.resolution)
        && (poll.closed.is_none() || poll.started.is_some())
        && (poll.declared.is_none() || poll.closed.is_some())
        && is_declared_right(poll.declared.as_ref())
}

fn are_each_right(meeting: &Meeting, polls: &[Poll]) -> bool
    ensures { result ≡ list_all (is_poll meeting.now) polls.now }
{
    polls.iter().all(|poll| is_poll(meeting, poll))
}

/// Whether the polls stand in the order of resolutions, at most one on each.
fn stand_in_order(polls: &[Poll]) -> bool
    ensures { result ≡ ascends_by poll_before polls.now }
{
    ascend(polls)
}

/// Whether they are the polls of the meeting (section 321).
pub(crate) fn are_polls(meeting: &Meeting, polls: &[Poll]) -> bool
    ensures { result ≡ are_polls meeting.now polls.now }
{
    are_each_right(meeting, polls) && stand_in_order(polls)
}

fn is_cast_on(cast: &CastMark, poll: &Poll) -> bool
    ensures { result ≡ is_cast_on cast.now poll.now }
{
    poll.resolution == cast.resolution && poll.started.is_some()
}

fn is_on_started(polls: &[Poll], cast: &CastMark) -> bool
    ensures { result ≡ list_any (is_cast_on cast.now) polls.now }
{
    polls.iter().any(|poll| is_cast_on(cast, poll))
}

fn are_on_started(polls: &[Poll], casts: &[CastMark]) -> bool
    ensures { result ≡ list_all (λ c. list_any (is_cast_on c) polls.now) casts.now }
{
    casts.iter().all(|cast| is_on_started(polls, cast))
}

impl Marked for CastMark {
    type Mark = u64;

    ghost mark_of = { λ cast. cast.resolution };

    fn mark(&self) -> u64 {
        self.resolution
    }
}

/// Whether a voter cast `MOST_CASTS` votes at most on a resolution.
fn cast_few_on(casts: &Filed<CastMark>, voter: Party, resolution: u64) -> bool
    ensures { result ≡ nat_le (count_by (λ (d : CastMark).
        d.resolution == resolution && same_name d.voter voter) casts.now) MOST_CASTS }
{
    times(casts, voter, resolution) <= MOST_CASTS
}

/// Whether a voter cast `MOST_CASTS` votes at most on the resolution of each poll.
fn voter_cast_few(polls: &[Poll], casts: &Filed<CastMark>, voter: Party) -> bool
    ensures { result ≡ list_all (λ (p : Poll). nat_le (count_by (λ (d : CastMark).
        d.resolution == p.resolution && same_name d.voter voter) casts.now) MOST_CASTS)
        polls.now }
{
    polls
        .iter()
        .all(|poll| cast_few_on(casts, voter, poll.resolution))
}

/// Whether the vote at a place is the first of its voter.
fn is_first(casts: &Filed<CastMark>, place: usize, cast: &CastMark) -> bool
    requires { slice_get casts.now place ≡ Some cast.now }
    ensures { result ≡ not (list_any (λ (d : CastMark). same_name d.voter cast.now.voter)
        (take place casts.now)) }
{
    casts.places_by_first(cast.voter)[0] == place
}

/// Whether each voter cast `MOST_CASTS` votes at most on a resolution. It counts the votes of each
/// voter once for each poll.
fn cast_few(polls: &[Poll], casts: &Filed<CastMark>) -> bool
    requires { list_all (λ c. list_any (is_cast_on c) polls.now) casts.now ≡ true }
    ensures { result
        ≡ list_all (λ c. nat_le (count_by (λ d. same_ballot d c) casts.now) MOST_CASTS)
        casts.now }
{
    for (place, cast) in casts.as_slice().iter().enumerate() {
        if is_first(casts, place, cast) && !voter_cast_few(polls, casts, cast.voter) {
            return false;
        }
    }
    true
}

/// Whether they are casts on these polls, of which a meeting has `MOST_RESOLUTIONS` at most
/// (sections 284 and 322).
pub fn are_casts(polls: &[Poll], casts: &Filed<CastMark>) -> bool
    ensures { result ≡ are_casts polls.now casts.now }
{
    are_on_started(polls, casts.as_slice()) && cast_few(polls, casts)
}
