//! The count of a poll, by lengths: each holding is parted where what governs it changes and where
//! a cast on it begins or has just ended, and the valid vote is asked once a part.
ghost use Rattle.std.specs.Prelude.{◌≡◌, ◌≤◌, ◌<◌, ◌^◌, ℕ, List, [], true, IfOk, None, filter, map, sum_by};
ghost use Rattle.std.specs.BTreeMap.{get};
ghost use Rattle.vocabulary.specs.Names.{name_cmp};
ghost use Rattle.desk_words.specs.Office.{are_numbered_after, are_rows};
ghost use Rattle.desk_words.specs.Registers.{all_shares};
ghost use Rattle.desk_words.specs.declared.records.RegisterRow.{RegisterRow};
ghost use Rattle.proxy_rules.specs.Holdings.{IsValidHolding, are_tags, holding_by};
ghost use Rattle.proxy_rules.specs.Shares.{shares_of};
ghost use Rattle.proxy_rules.specs.Tiles.{places_in};
ghost use Rattle.vote_rules.specs.Ballots.{AreInOrder, governing_at, vote_by};
ghost use Rattle.vote_rules.specs.VoteCovers.{vote_among};
ghost use Rattle.vote_rules.specs.InstructedCasts.{AreInMemberOrder, is_on_shares_of};
ghost use Rattle.vote_rules.specs.Sums.{FitsBoth, FitsMore, added, tally_over, tally_to, with_votes};
ghost use Rattle.vote_rules.specs.Tallies.{share_at, tally_by, tally_of};

use crate::alike::one_vote;
use crate::ballots::{Ballots, governing_at, vote_by};
use crate::parting::parted;
use crate::received::{BlockCast, PollCasts, parted_at};
use desk_words::{Appointment, Party, Range, RegisterRow, Tally, Way};
use proxy_rules::{Cutoffs, GovernedPiece, Holding, Papers, shares};
use share_blocks::{Blocks, LinkedBlocks, PlainBlocks};
use std::alloc::{AllocError, Global};
use std::collections::BTreeMap;

/// Up to so many casts on a holding are kept as plain lists, and more of them, which are those of
/// several voters, as linked pieces; both leave the same. A list is quicker to cover, and is walked
/// for each part of the holding; of linked pieces the one that holds a place is found by halves.
const MOST_IN_LISTS: usize = 1_024;

const NOTHING: Tally = Tally {
    votes_for: 0,
    votes_against: 0,
    withheld: 0,
    eligible: 0,
};

/// How many places a range holds.
fn places_in(range: Range) -> u64
    ensures { result ≡ places_in range }
{
    range.to() - range.from() + 1
}

/// Counts so many shares more, which vote alike.
fn add_shares(tally: &mut Tally, vote: Option<Way>, shares: u64)
    requires { FitsMore tally.old shares }
    ensures { tally.new ≡ with_votes vote shares tally.old }
{
    match vote {
        Some(Way::For) => tally.votes_for += shares,
        Some(Way::Against) => tally.votes_against += shares,
        Some(Way::Withheld) => tally.withheld += shares,
        None => {}
    }
    tally.eligible += shares;
}

/// The count of the ranges, on each of which the valid vote is asked at its first place.
fn tally_over<B: Blocks>(
    ballots: &Ballots<B>,
    appointed: &[Appointment],
    governed: &[GovernedPiece],
    resolution: u64,
    ranges: &[Range],
) -> Tally
    requires few { sum_by places_in ranges.now ≤ 10 ^ 12 }
    requires pieces { AreInOrder governed.now }
    ensures { result
        ≡ tally_over
        (λ place. vote_by (map B.pieces ballots.now.holders.items)
        (map B.pieces ballots.now.proxies.items) appointed.now
        (governing_at governed.now place) resolution place)
        ranges.now }
{
    let mut tally = NOTHING;
    for range in ranges {
        let by = governing_at(governed, range.from());
        let vote = vote_by(ballots, appointed, by, resolution, range.from());
        add_shares(&mut tally, vote, places_in(*range));
    }
    tally
}

/// The count of one holding, by what is cast on its shares, over blocks of either kind.
fn tally_row_by<B: Blocks>(
    alloc: Global,
    cutoffs: &Cutoffs,
    papers: &Papers,
    on_row: &[BlockCast],
    instructed: &BTreeMap<Party, usize>,
    resolution: u64,
    row: &RegisterRow,
) -> Result<Tally, AllocError>
    requires { IsValidHolding (holding_by papers.now.appointments.now papers.now.endings.now row.now) }
    ensures { IfOk result
        (λ tally. tally
        ≡ tally_to
        (λ place. vote_among on_row.now (get name_cmp instructed.now)
        papers.now.authorities.now resolution row.now
        (share_at cutoffs.now
        (holding_by papers.now.appointments.now papers.now.endings.now row.now)
        row.now.member place))
        (shares_of row.now)) }
{
    let holding = Holding::of_row(alloc, row, papers.appointments, papers.endings)?;
    let appointed = holding.appointed.as_slice();
    let governed = holding.pieces(alloc, cutoffs)?;
    let ballots: Ballots<B> = Ballots::of_row(
        alloc,
        on_row,
        instructed,
        papers.authorities,
        appointed,
        row,
    )?;
    let ranges = parted::<PlainBlocks>(alloc, governed.as_slice(), on_row, holding.shares)?;
    Ok(tally_over(
        &ballots,
        appointed,
        governed.as_slice(),
        resolution,
        ranges.as_slice(),
    ))
}

/// The count of a row whose shares all have this vote.
fn tally_alike(vote: Option<Way>, row: &RegisterRow) -> Tally
    ensures { result ≡ tally_to (λ _. vote) (shares_of row.now) }
{
    let mut tally = NOTHING;
    add_shares(&mut tally, vote, shares(row));
    tally
}

/// The count of one holding, by what is cast on its shares. One whose shares plainly have one vote
/// is not parted.
fn tally_row(
    alloc: Global,
    cutoffs: &Cutoffs,
    papers: &Papers,
    on_row: &[BlockCast],
    instructed: &BTreeMap<Party, usize>,
    resolution: u64,
    row: &RegisterRow,
) -> Result<Tally, AllocError>
    requires { IsValidHolding (holding_by papers.now.appointments.now papers.now.endings.now row.now) }
    ensures { IfOk result
        (λ tally. tally
        ≡ tally_to
        (λ place. vote_among on_row.now (get name_cmp instructed.now)
        papers.now.authorities.now resolution row.now
        (share_at cutoffs.now
        (holding_by papers.now.appointments.now papers.now.endings.now row.now)
        row.now.member place))
        (shares_of row.now)) }
{
    if let Some(vote) = one_vote(on_row, instructed, row) {
        return Ok(tally_alike(vote, row));
    }
    if on_row.len() <= MOST_IN_LISTS {
        tally_row_by::<PlainBlocks>(alloc, cutoffs, papers, on_row, instructed, resolution, row)
    } else {
        tally_row_by::<LinkedBlocks>(alloc, cutoffs, papers, on_row, instructed, resolution, row)
    }
}

/// Both counts together.
fn add(a: Tally, b: Tally) -> Tally
    requires { FitsBoth a b }
    ensures { result ≡ added a b }
{
    Tally {
        votes_for: a.votes_for + b.votes_for,
        votes_against: a.votes_against + b.votes_against,
        withheld: a.withheld + b.withheld,
        eligible: a.eligible + b.eligible,
    }
}

/// The count of the holdings, with what is cast on the resolution. Rows and blocks both stand in
/// the order of members, so what is cast on a row is the front of what is left.
fn tally_rows(
    alloc: Global,
    cutoffs: &Cutoffs,
    papers: &Papers,
    casts: &PollCasts,
    resolution: u64,
) -> Result<Tally, AllocError>
    requires rows { are_rows papers.now.register.now ≡ true }
    requires tags { are_tags papers.now.appointments.now ≡ true }
    requires numbered { are_numbered_after [] papers.now.appointments.now ≡ true }
    requires order { AreInMemberOrder casts.now.by_member.items }
    ensures { IfOk result
        (λ tally. tally
        ≡ tally_by
        (λ (row : RegisterRow) place. vote_among
        (filter (is_on_shares_of row.member) casts.now.by_member.items)
        (get name_cmp casts.now.instructed) papers.now.authorities.now resolution row
        (share_at cutoffs.now
        (holding_by papers.now.appointments.now papers.now.endings.now row)
        row.member place))
        papers.now.register.now) }
{
    let mut tally = NOTHING;
    let mut left = casts.by_member.as_slice();
    for row in papers.register {
        let (on_row, later) = parted_at(left, row.member);
        let instructed = &casts.instructed;
        let more = tally_row(alloc, cutoffs, papers, on_row, instructed, resolution, row)?;
        tally = add(tally, more);
        left = later;
    }
    Ok(tally)
}

/// The count of a poll on a resolution, in shares: for each way the number of shares whose valid
/// vote it is, and the number of all shares, treasury shares not among them (sections 284, 322 and
/// 726).
///
/// The valid vote of a share is that of the individual who holds it; for a corporation's share that
/// of its representatives, and none where they differ (section 323); and where none of these has a
/// cast on it, that of the proxy who governs it by these cutoffs, unless it is against the
/// instruction (sections 324 and 324A). The cutoffs are those of the poll. The lists are those of
/// an office. The error is want of memory.
///
/// What is cast is sorted once by the member on whose shares it is cast, and then taken row by row;
/// what a member appointed is looked up. A holding is counted by the parts into which its own
/// appointments and casts divide it, so the cost does not depend on how many shares there are.
pub fn tally(
    alloc: Global,
    cutoffs: &Cutoffs,
    papers: &Papers,
    resolution: u64,
) -> Result<Tally, AllocError>
    requires rows { are_rows papers.now.register.now ≡ true }
    requires tags { are_tags papers.now.appointments.now ≡ true }
    requires numbered { are_numbered_after [] papers.now.appointments.now ≡ true }
    ensures { IfOk result
        (λ tally. tally
        ≡ tally_of cutoffs.now papers.now.register.now papers.now.appointments.now
        papers.now.endings.now papers.now.authorities.now papers.now.casts.now resolution) }
{
    let casts = PollCasts::on(alloc, papers.casts.as_slice(), resolution)?;
    tally_rows(alloc, cutoffs, papers, &casts, resolution)
}
