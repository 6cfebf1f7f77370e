//! A voter's casts as covers of a member's places, and the way of a place among them.
ghost use Rattle.std.specs.Prelude.{◌≡◌, ℕ, IsTrue, IfOk, filter, is_some};
ghost use Rattle.std.specs.BTreeMap.{get};
ghost use Rattle.std.specs.FinSet as set;
ghost use Rattle.std.specs.List.{filter_map};
ghost use Rattle.vocabulary.specs.Names.{name_cmp};
ghost use Rattle.share_blocks.specs.Tags.{is_tag};
ghost use Rattle.vote_rules.specs.VoteCovers.{cover_of, vote_covers, whole_cover, vote_pieces, way_at, way_number, way_tagged};
ghost use Rattle.vote_rules.specs.InstructedCasts.{is_after, is_before};

use crate::received::BlockCast;
use desk_words::{Capacity, MOST_PLACES, Party, Range, Way};
use share_blocks::{Admitted, Blocks, Tag};
use std::alloc::{AllocError, Global};
use std::collections::BTreeMap;

/// The number of the tag of a way.
fn way_number(way: Way) -> u64
    ensures { result ≡ way_number way }
{
    match way {
        Way::For => 1,
        Way::Against => 2,
        Way::Withheld => 3,
    }
}

/// The way of a tag, where what is cast as instructed has this way or none.
fn way_tagged(tag: Tag, instructed: Option<Way>) -> Option<Way>
    ensures { result ≡ way_tagged instructed tag }
{
    match tag.number() {
        1 => Some(Way::For),
        2 => Some(Way::Against),
        3 => Some(Way::Withheld),
        4 => instructed,
        _ => None,
    }
}

/// The tag of that number.
fn tag_with(number: u64) -> Tag
    requires { IsTrue (is_tag number) }
    ensures { result ≡ number }
{
    match Tag::new(number) {
        Some(tag) => tag,
        None => unreachable!(),
    }
}

/// The tag of a way.
fn tag_of(way: Way) -> Tag
    ensures { result ≡ way_number way }
{
    tag_with(way_number(way))
}

/// The tag of what is cast as instructed.
pub(crate) fn instructed_tag() -> Tag
    ensures { result ≡ 4 }
{
    tag_with(4)
}

/// The places of a block with the tag of its way, if the voter casts it in this capacity.
fn cover_of(cast: &BlockCast, capacity: Capacity, voter: Party) -> Option<(Range, Tag)>
    ensures { result ≡ cover_of capacity voter cast.now }
{
    if cast.block.capacity == capacity && cast.voter.is(voter) {
        Some((cast.block.range, tag_of(cast.block.way)))
    } else {
        None
    }
}

/// All places, with the tag of what is cast as instructed.
fn everywhere() -> (Range, Tag)
    ensures { result ≡ whole_cover }
{
    (Range::with_ends(1, MOST_PLACES), instructed_tag())
}

/// The covers of the voter's blocks.
fn covers_of(
    alloc: Global,
    casts: &[BlockCast],
    capacity: Capacity,
    voter: Party,
) -> Result<Vec<(Range, Tag)>, AllocError>
    ensures { IfOk result
        (λ covers. covers.items ≡ filter_map (cover_of capacity voter) casts.now) }
{
    casts
        .iter()
        .filter_map(|cast| cover_of(cast, capacity, voter))
        .collect(alloc)
}

/// The covers of the voter's blocks that were received before the record at that place.
fn covers_before(
    alloc: Global,
    casts: &[BlockCast],
    capacity: Capacity,
    voter: Party,
    order: usize,
) -> Result<Vec<(Range, Tag)>, AllocError>
    ensures { IfOk result
        (λ covers. covers.items
        ≡ filter_map (cover_of capacity voter) (filter (is_before order) casts.now)) }
{
    casts
        .iter()
        .filter(|cast| cast.order < order)
        .filter_map(|cast| cover_of(cast, capacity, voter))
        .collect(alloc)
}

/// The covers of the voter's blocks that were received after the record at that place.
fn covers_after(
    alloc: Global,
    casts: &[BlockCast],
    capacity: Capacity,
    voter: Party,
    order: usize,
) -> Result<Vec<(Range, Tag)>, AllocError>
    ensures { IfOk result
        (λ covers. covers.items
        ≡ filter_map (cover_of capacity voter) (filter (is_after order) casts.now)) }
{
    casts
        .iter()
        .filter(|cast| order < cast.order)
        .filter_map(|cast| cover_of(cast, capacity, voter))
        .collect(alloc)
}

/// The covers of a voter's casts in order of receipt. Of several records as instructed the last
/// alone counts, since all of them have one way on a share.
fn covers_by(
    alloc: Global,
    casts: &[BlockCast],
    capacity: Capacity,
    voter: Party,
    instructed: Option<usize>,
) -> Result<Vec<(Range, Tag)>, AllocError>
    ensures { IfOk result (λ covers. covers.items
        ≡ vote_covers capacity voter casts.now instructed) }
{
    match instructed {
        None => covers_of(alloc, casts, capacity, voter),
        Some(order) => {
            let mut covers = covers_before(alloc, casts, capacity, voter, order)?;
            let mut later = covers_after(alloc, casts, capacity, voter, order)?;
            covers.push(everywhere())?;
            covers.append(&mut later)?;
            Ok(covers)
        }
    }
}

/// What a voter's casts leave of the places of a member's shares, of which these are the blocks
/// that are cast on them. The error is want of memory.
pub(crate) fn pieces_by<B: Blocks>(
    alloc: Global,
    casts: &[BlockCast],
    instructed: &BTreeMap<Party, usize>,
    capacity: Capacity,
    voter: Party,
) -> Result<B, AllocError>
    ensures { IfOk result
        (λ blocks. B.pieces blocks
        ≡ vote_pieces casts.now (get name_cmp instructed.now) capacity voter) }
{
    let order = instructed.get(&voter).copied();
    let covers = covers_by(alloc, casts, capacity, voter, order)?;
    share_blocks::run(alloc, covers.as_slice())
}

/// The tags that have a way, where what is cast as instructed has this way or none.
fn admitted(instructed: Option<Way>) -> Admitted
    ensures { (tag : ℕ) → set.contains result tag ≡ is_some (way_tagged instructed tag) }
{
    let mut admitted = Admitted::none();
    if instructed.is_some() {
        admitted.admit(instructed_tag());
    }
    admitted.admit(tag_of(Way::Withheld));
    admitted.admit(tag_of(Way::Against));
    admitted.admit(tag_of(Way::For));
    admitted
}

/// The way of the newest tag of a place that has one.
pub(crate) fn way_at<B: Blocks>(blocks: &B, place: u64, instructed: Option<Way>) -> Option<Way>
    ensures { result ≡ way_at instructed (B.pieces blocks.now) place }
{
    match blocks.first_where(place, &admitted(instructed)) {
        Some(tag) => way_tagged(tag, instructed),
        None => None,
    }
}
