//! A holding in ranges on each of which every share votes alike.
ghost use Rattle.std.specs.Prelude.{◌≡◌, ◌≤◌, true, All, IfOk};
ghost use Rattle.std.specs.List.{filter_map};
ghost use Rattle.proxy_rules.specs.Tagging.{held_of};
ghost use Rattle.proxy_rules.specs.Tiles.{are_tiled};
ghost use Rattle.share_blocks.specs.Pieces.{ranges_of};
ghost use Rattle.vote_rules.specs.Ballots.{IsUncut, cuts_of};

use crate::covers::instructed_tag;
use crate::received::BlockCast;
use desk_words::{MOST_PLACES, Range};
use proxy_rules::{GovernedPiece, held};
use share_blocks::{Blocks, Tag};
use std::alloc::{AllocError, Global};

/// What part a holding: the pieces of what governs it, and the blocks that are cast on it. What
/// they are tagged with is not asked.
fn cuts_of(
    alloc: Global,
    governed: &[GovernedPiece],
    casts: &[BlockCast],
) -> Result<Vec<(Range, Tag)>, AllocError>
    ensures { IfOk result (λ cuts. cuts.items ≡ cuts_of governed.now casts.now) }
{
    let tag = instructed_tag();
    let pieces = governed.iter().map(|piece| (piece.range, tag));
    let blocks = casts.iter().map(|cast| (cast.block.range, tag));
    pieces.chain(blocks).collect(alloc)
}

/// What of the ranges a holding of so many shares has.
fn held_of_each(alloc: Global, ranges: &[Range], shares: u64) -> Result<Vec<Range>, AllocError>
    ensures { IfOk result (λ parts. parts.items ≡ filter_map (held_of shares) ranges.now) }
{
    ranges
        .iter()
        .filter_map(|range| held(*range, shares))
        .collect(alloc)
}

/// A holding of so many shares in ranges, in order and without gaps: parted where what governs it
/// changes, and where a cast on it begins or has just ended. The error is want of memory.
pub(crate) fn parted<B: Blocks>(
    alloc: Global,
    governed: &[GovernedPiece],
    casts: &[BlockCast],
    shares: u64,
) -> Result<Vec<Range>, AllocError>
    requires { shares ≤ MOST_PLACES }
    ensures tiled { IfOk result (λ ranges. are_tiled 1 ranges.items shares ≡ true) }
    ensures uncut { IfOk result
        (λ ranges. All (IsUncut (cuts_of governed.now casts.now)) ranges.items) }
{
    let cuts = cuts_of(alloc, governed, casts)?;
    let blocks: B = share_blocks::run(alloc, cuts.as_slice())?;
    let ranges = blocks.pieces()?;
    held_of_each(alloc, ranges.as_slice(), shares)
}
