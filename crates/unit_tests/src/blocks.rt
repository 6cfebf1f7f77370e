//! Blocks of shares, and callers that know no more than their trait.
ghost use Rattle.std.specs.Prelude.{◌≡◌, ℕ, IsTrue, IfOk, find};
ghost use Rattle.std.specs.FinSet as set;
ghost use Rattle.share_blocks.specs.Covers.{tags_of};
ghost use Rattle.share_blocks.specs.Pieces.{covered, is_place, uncovered};

use desk_words::Range;
use share_blocks::laws::run_alike;
use share_blocks::{Admitted, Blocks, LinkedBlocks, PlainBlocks, Tag, run};
use std::alloc::{AllocError, Global};
use std::test::Fail;

/// A caller that knows the trait alone: the newest admitted tag of a place.
fn newest<B: Blocks>(
    alloc: Global,
    covers: &[(Range, Tag)],
    place: u64,
    admitted: &Admitted,
) -> Result<Option<Tag>, AllocError>
    requires { IsTrue (is_place place) }
    ensures { IfOk result
        (λ tag. tag ≡ find (set.contains admitted.now) (tags_of covers.now place)) }
{
    let blocks: B = run(alloc, covers)?;
    Ok(blocks.first_where(place, admitted))
}

/// A caller that knows the trait alone: one range covered, and no more.
fn with_cover<B: Blocks>(alloc: Global, range: Range, tag: Tag) -> Result<B, AllocError>
    ensures { IfOk result (λ blocks. B.pieces blocks ≡ covered range tag uncovered) }
{
    let mut blocks = B::new(alloc);
    blocks.cover(range, tag)?;
    Ok(blocks)
}

fn cover(from: u64, to: u64, number: u64) -> Result<(Range, Tag), Fail> {
    let range = Range::new(from, to).ok_or("no range")?;
    let tag = Tag::new(number).ok_or("no tag")?;
    Ok((range, tag))
}

/// The first hundred places under tag 1, and 41 to 60 of them under tag 2 too.
fn two_covers() -> Result<[(Range, Tag); 2], Fail> {
    Ok([cover(1, 100, 1)?, cover(41, 60, 2)?])
}

fn admitting(numbers: &[u64]) -> Admitted {
    let mut admitted = Admitted::none();
    for number in numbers {
        if let Some(tag) = Tag::new(*number) {
            admitted.admit(tag);
        }
    }
    admitted
}

/// The number of the newest of these tags on a place, or 0.
fn newest_of<B: Blocks>(alloc: Global, place: u64, numbers: &[u64]) -> Result<u64, Fail> {
    let covers = two_covers()?;
    if place == 0 || place > 1_000_000_000_000 {
        return Err("no place".into());
    }
    let tag = newest::<B>(alloc, &covers, place, &admitting(numbers))?;
    Ok(tag.map_or(0, |tag| tag.number()))
}

const BOTH: &[u64] = &[1, 2];

/// A place, the tags that are admitted, and the newest of them on the place, or 0.
const NEWEST: &[(u64, &[u64], u64)] = &[
    (50, BOTH, 2),
    (50, &[1], 1),
    (50, &[], 0),
    (40, BOTH, 1),
    (40, &[2], 0),
    (101, BOTH, 0),
    (1_000_000_000_000, BOTH, 0),
];

#[test]
fn the_newest_tag_comes_first(rt: HostRuntime) -> Result<(), Fail> {
    for &(place, admitted, tag) in NEWEST {
        let plain = newest_of::<PlainBlocks>(rt.alloc(), place, admitted)?;
        let linked = newest_of::<LinkedBlocks>(rt.alloc(), place, admitted)?;
        assert!(rt; plain == tag && linked == tag, "{place}");
    }
    Ok(())
}

/// The ends of the pieces, one after another.
fn ends<B: Blocks>(alloc: Global, covers: &[(Range, Tag)]) -> Result<Vec<u64>, Fail> {
    let blocks: B = run(alloc, covers)?;
    let mut ends = Vec::new(alloc);
    for piece in &blocks.pieces()? {
        ends.push(piece.to())?;
    }
    Ok(ends)
}

/// Whether these are the ends of the pieces under the two covers.
fn has_ends<B: Blocks>(alloc: Global, wanted: &[u64]) -> Result<bool, Fail> {
    let covers = two_covers()?;
    Ok(ends::<B>(alloc, &covers)?.as_slice() == wanted)
}

const ENDS: &[u64] = &[40, 60, 100, 1_000_000_000_000];

#[test]
fn pieces_are_parted_at_the_cuts(rt: HostRuntime) -> Result<(), Fail> {
    assert!(rt; has_ends::<PlainBlocks>(rt.alloc(), ENDS)?);
    assert!(rt; has_ends::<LinkedBlocks>(rt.alloc(), ENDS)?);
    Ok(())
}

/// Tag k on the places k to 1000 - k, for each tag.
fn nested(alloc: Global) -> Result<Vec<(Range, Tag)>, Fail> {
    let mut covers = Vec::new(alloc);
    for number in 1..257 {
        covers.push(cover(number, 1000 - number, number)?)?;
    }
    Ok(covers)
}

/// Whether two kinds have the same newest tag at each end of each range.
fn same_tags<A: Blocks, B: Blocks>(one: &A, other: &B, covers: &[(Range, Tag)]) -> bool {
    let all = Admitted::all();
    covers.iter().all(|(range, _)| {
        [range.from(), range.to()].iter().all(|place| one.first_where(*place, &all)
            == other.first_where(*place, &all))
    })
}

/// How many pieces both kinds have, or 0 where their pieces or their newest tags differ.
fn pieces_of_both(alloc: Global, covers: &[(Range, Tag)]) -> Result<usize, Fail> {
    let (plain, linked): (PlainBlocks, LinkedBlocks) = run_alike(alloc, covers)?;
    let pieces = plain.pieces()?;
    let same = pieces.as_slice() == linked.pieces()?.as_slice();
    Ok(if same && same_tags(&plain, &linked, covers) {
        pieces.len()
    } else {
        0
    })
}

// There are cuts at 2 to 256, and at 745 to 1000.
#[test]
fn all_tags_in_one_run(rt: HostRuntime) -> Result<(), Fail> {
    let covers = nested(rt.alloc())?;
    assert!(rt; pieces_of_both(rt.alloc(), &covers)? == 512);
    Ok(())
}

/// Tag k on the places 2k to 2k + 600, for each tag.
fn overlapping(alloc: Global) -> Result<Vec<(Range, Tag)>, Fail> {
    let mut covers = Vec::new(alloc);
    for number in 1..257 {
        covers.push(cover(2 * number, 2 * number + 600, number)?)?;
    }
    Ok(covers)
}

// There are cuts at 2, 4, .. 512, and at 603, 605, .. 1113.
#[test]
fn as_many_pieces_as_there_can_be(rt: HostRuntime) -> Result<(), Fail> {
    let covers = overlapping(rt.alloc())?;
    assert!(rt; pieces_of_both(rt.alloc(), &covers)? == 513);
    Ok(())
}

#[test]
fn one_cover_more(rt: HostRuntime) -> Result<(), Fail> {
    let (range, tag) = cover(3, 4, 5)?;
    let blocks: LinkedBlocks = with_cover(rt.alloc(), range, tag)?;
    assert!(rt; blocks.pieces()?.len() == 3);
    Ok(())
}
