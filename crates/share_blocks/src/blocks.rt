//! What covers the places of a member's shares.
ghost use Rattle.std.specs.Prelude.{◌≡◌, ◌+◌, ◌*◌, ℕ, Bool, List, ◌<◌, ◌≤◌, All, IsTrue, IfOk, OnOk, OnErr, find, length};
ghost use Rattle.std.specs.FinSet as set;
ghost use Rattle.share_blocks.specs.Covers.{is_cut, newest_of, pieces_after, tags_of};
ghost use Rattle.share_blocks.specs.Pieces.{AreAlike, Piece, begin_at, covered, follow_from, is_place, ranges_of, tags_at, uncovered};

use crate::admitted::Admitted;
use crate::tag::Tag;
use desk_words::{MOST_PLACES, Range};
use std::alloc::{AllocError, Global};

/// The places 1 to `MOST_PLACES` of a member's shares, and the tags that cover each, the newest
/// first.
///
/// Contracts see it as the list of its pieces in order, however it is kept. The pieces are parted
/// at the cuts: the places after the first where a covered range begins or has just ended. So a
/// range that is covered parts no more than two of them.
pub trait Blocks: Drop {
    /// Its pieces in order, each with the tags of its places.
    ghost pieces: { Self → List Piece };

    /// All places in one piece, which nothing covers. It takes no memory until a range is covered.
    fn new(alloc: Global) -> Self
        ensures { pieces result ≡ uncovered };

    /// Covers each place of the range with the tag, which comes before the tags that it has.
    ///
    /// With `AllocError`, where no memory is left for it, all stays as it was.
    fn cover(&mut self, range: Range, tag: Tag) -> Result<(), AllocError>
        ensures ok { OnOk result (pieces self.new ≡ covered range tag (pieces self.old)) }
        ensures bound { OnOk result (length (pieces self.new) ≤ length (pieces self.old) + 2) }
        ensures err { OnErr result (pieces self.new ≡ pieces self.old) };

    /// The ranges of the pieces: all places in order, each once, parted at the cuts, so that the
    /// places of a range have the same tags. The only error is want of memory.
    fn pieces(&self) -> Result<Vec<Range>, AllocError>
        ensures ranges { IfOk result (λ ranges. ranges.items ≡ ranges_of (pieces self.now)) }
        ensures in_order { IsTrue (follow_from 1 (ranges_of (pieces self.now))) }
        ensures alike { All (AreAlike (pieces self.now)) (ranges_of (pieces self.now)) };

    /// The newest tag of a place that is admitted, or none where no tag of it is; what is no place
    /// has no tags. It takes no memory.
    fn first_where(&self, place: u64, admitted: &Admitted) -> Option<Tag>
        ensures { result ≡ find (set.contains admitted.now) (tags_at (pieces self.now) place) };
}

/// Covers ranges in turn, the first of them first. The only error is want of memory.
///
/// A place then has the tags of the ranges that hold it, the newest first. So the first tag of it
/// that passes a test is that of the newest range that holds it under such a tag. The pieces are
/// parted exactly at the cuts, and so are at most twice as many as the ranges, and one.
pub fn run<B: Blocks>(alloc: Global, covers: &[(Range, Tag)]) -> Result<B, AllocError>
    ensures pieces { IfOk result (λ blocks. B.pieces blocks ≡ pieces_after covers.now) }
    ensures tags { IfOk result (λ blocks. (place : ℕ) → IsTrue (is_place place)
        → tags_at (B.pieces blocks) place ≡ tags_of covers.now place) }
    ensures newest { IfOk result (λ blocks. (place : ℕ) (test : ℕ → Bool) → IsTrue (is_place place)
        → find test (tags_at (B.pieces blocks) place) ≡ newest_of test covers.now place) }

    ensures in_order { IfOk result
        (λ blocks. IsTrue (follow_from 1 (ranges_of (B.pieces blocks)))) }
    ensures cuts { IfOk result (λ blocks. (place : ℕ) → 1 < place → place ≤ MOST_PLACES
        → begin_at (ranges_of (B.pieces blocks)) place ≡ is_cut covers.now place) }
    ensures bound { IfOk result
        (λ blocks. length (B.pieces blocks) ≤ 2 * length covers.now + 1) }
{
    let mut blocks = B::new(alloc);
    for (range, tag) in covers {
        blocks.cover(*range, *tag)?;
    }
    Ok(blocks)
}
