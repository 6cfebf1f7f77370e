//! Holdings whose shares all have one vote, as what is cast on them shows at once.
ghost use Rattle.std.specs.Prelude.{◌≡◌, [], List, ℕ, true, IfSome, None, Some, find, is_some, reverse};
ghost use Rattle.std.specs.BTreeMap.{get};
ghost use Rattle.vocabulary.specs.Names.{name_cmp};
ghost use Rattle.proxy_rules.specs.Shares.{is_individual};
ghost use Rattle.vote_rules.specs.Alike.{AllVote, is_own, newest_own, way_of_newest, way_on_all};

use crate::received::BlockCast;
use desk_words::{Capacity, HolderKind, Party, RegisterRow, Way};
use proxy_rules::shares;
use std::collections::BTreeMap;

/// Whether nothing is cast on the shares of a row, and nothing as instructed by anybody.
fn is_silent(on_row: &[BlockCast], instructed: &BTreeMap<Party, usize>) -> bool
    ensures blocks { result ≡ true → on_row.now ≡ [] }
    ensures instructed { result ≡ true
        → (voter : List ℕ) → get name_cmp instructed.now voter ≡ None }
{
    on_row.is_empty() && instructed.is_empty()
}

/// Whether the voter casts the block as the member.
fn is_own(cast: &BlockCast, voter: Party) -> bool
    ensures { result ≡ is_own voter cast.now }
{
    cast.block.capacity == Capacity::Member && cast.voter.is(voter)
}

/// The voter's newest block as the member.
fn newest_own(on_row: &[BlockCast], voter: Party) -> Option<BlockCast>
    ensures { result ≡ newest_own voter on_row.now }
{
    on_row
        .iter()
        .rev()
        .copied()
        .find(|cast| is_own(cast, voter))
}

/// The way of a block that is on all of so many shares.
fn way_on_all(cast: &BlockCast, shares: u64) -> Option<Way>
    ensures { result ≡ way_on_all shares cast.now }
{
    let range = cast.block.range;
    if range.from() == 1 && shares <= range.to() {
        Some(cast.block.way)
    } else {
        None
    }
}

/// The way of the voter's newest block as the member, if it is on all of so many shares.
fn way_of_newest(on_row: &[BlockCast], voter: Party, shares: u64) -> Option<Way>
    ensures { result ≡ way_of_newest shares voter on_row.now }
{
    way_on_all(&newest_own(on_row, voter)?, shares)
}

/// Whether an individual holds the row.
fn is_individual(kind: HolderKind) -> bool
    ensures { result ≡ is_individual kind }
{
    match kind {
        HolderKind::Individual => true,
        HolderKind::Corporation | HolderKind::Treasury => false,
    }
}

/// Whether the voter casts as instructed.
fn casts_as_instructed(instructed: &BTreeMap<Party, usize>, voter: Party) -> bool
    ensures { result ≡ is_some (get name_cmp instructed.now voter) }
{
    instructed.get(&voter).is_some()
}

/// The way in which the individual who holds the row votes on all of its shares, where its newest
/// block on them is on all, and it casts nothing as instructed besides.
fn own_vote(
    on_row: &[BlockCast],
    instructed: &BTreeMap<Party, usize>,
    row: &RegisterRow,
) -> Option<Way>
    ensures { IfSome result
        (λ way. AllVote on_row.now (get name_cmp instructed.now) row.now (Some way)) }
{
    if is_individual(row.kind) && !casts_as_instructed(instructed, row.member) {
        way_of_newest(on_row, row.member, shares(row))
    } else {
        None
    }
}

/// The vote of each share of a row, where it is plain that all have one: none where nothing is
/// cast, and that of the individual who holds the row where its newest block is on all of them.
/// Whoever governs them is not asked.
pub(crate) fn one_vote(
    on_row: &[BlockCast],
    instructed: &BTreeMap<Party, usize>,
    row: &RegisterRow,
) -> Option<Option<Way>>
    ensures { IfSome result
        (λ vote. AllVote on_row.now (get name_cmp instructed.now) row.now vote) }
{
    if is_silent(on_row, instructed) {
        return Some(None);
    }
    Some(Some(own_vote(on_row, instructed, row)?))
}
