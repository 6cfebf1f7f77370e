//! Covered ranges as a plain list.
ghost use Rattle.std.specs.Prelude.{◌≡◌, ◌++◌, ◌&&◌, ◌==◌, ℕ, IsTrue, IfOk, OnOk, find};
ghost use Rattle.std.specs.FinSet as set;
ghost use Rattle.std.specs.List.{list_any};
ghost use Rattle.desk_words.specs.Places.{holds};
ghost use Rattle.share_blocks.specs.Covers.{is_cut, newest_of, pieces_after};
ghost use Rattle.share_blocks.specs.Cuts.{inner, is_inner, rise_from};
ghost use Rattle.share_blocks.specs.Pieces.{ranges_of, tags_at};

use crate::admitted::Admitted;
use crate::blocks::Blocks;
use crate::cuts::parted_at;
use crate::tag::Tag;
use desk_words::{MOST_PLACES, Range};
use seq::in_order_once;
use std::alloc::{AllocError, Global};

/// The ranges as they were covered, the newest last.
///
/// To cover a range takes about the same time whatever was covered before. `first_where` looks at
/// each covered range at most once, and `pieces` takes about n log n steps for n of them.
#[derive(Drop)]
pub struct PlainBlocks {
    covers: Vec<(Range, Tag)>,
}

impl Blocks for PlainBlocks {
    ghost pieces = { λ b. pieces_after b.covers.items };

    fn new(alloc: Global) -> Self {
        Self {
            covers: Vec::new(alloc),
        }
    }

    fn cover(&mut self, range: Range, tag: Tag) -> Result<(), AllocError> {
        self.covers.push((range, tag))?;
        Ok(())
    }

    fn pieces(&self) -> Result<Vec<Range>, AllocError> {
        pieces_of(*self.covers.allocator(), self.covers.as_slice())
    }

    fn first_where(&self, place: u64, admitted: &Admitted) -> Option<Tag> {
        first_tag(self.covers.as_slice(), place, admitted)
    }
}

/// Whether the range of a cover holds the place, and its tag is admitted.
fn is_admitted_at(cover: &(Range, Tag), place: u64, admitted: &Admitted) -> bool
    ensures { result ≡ (holds cover.now.0 place && set.contains admitted.now cover.now.1) }
{
    cover.0.has(place) && admitted.has(cover.1)
}

/// The tag of the newest cover whose range holds the place and whose tag is admitted.
fn newest_admitted(covers: &[(Range, Tag)], place: u64, admitted: &Admitted) -> Option<Tag>
    ensures { result ≡ newest_of (set.contains admitted.now) covers.now place }
{
    covers
        .iter()
        .rev()
        .find(|cover| is_admitted_at(cover, place, admitted))
        .map(|(_, tag)| *tag)
}

/// The first admitted tag of a place that the covers hold; what is no place has none.
#[tactic(auto, using(crate::proofs::BlockCoverLemmas::newest_tags))]
fn first_tag(covers: &[(Range, Tag)], place: u64, admitted: &Admitted) -> Option<Tag>
    ensures { result ≡ find (set.contains admitted.now) (tags_at (pieces_after covers.now) place) }
{
    if 1 <= place && place <= MOST_PLACES {
        newest_admitted(covers, place, admitted)
    } else {
        None
    }
}

/// Adds a place to the cuts, if there is a place before it.
fn push_cut(cuts: &mut Vec<u64>, place: u64) -> Result<(), AllocError>
    ensures { OnOk result (cuts.new.items ≡ cuts.old.items ++ inner place) }
{
    if 1 < place && place <= MOST_PLACES {
        cuts.push(place)?;
    }
    Ok(())
}

/// The cuts in order, each once.
fn cuts_in_order(alloc: Global, covers: &[(Range, Tag)]) -> Result<Vec<u64>, AllocError>
    ensures in_order { IfOk result (λ cuts. IsTrue (rise_from 1 cuts.items)) }
    ensures cuts { IfOk result (λ cuts. (place : ℕ)
        → list_any (λ cut. cut == place) cuts.items ≡ (is_inner place && is_cut covers.now place)) }
{
    let mut cuts = Vec::with_capacity(alloc, covers.len().saturating_mul(2))?;
    for (range, _) in covers {
        push_cut(&mut cuts, range.from())?;
        push_cut(&mut cuts, range.to() + 1)?;
    }
    Ok(in_order_once(cuts))
}

/// The ranges of the pieces that the covers leave.
#[tactic(auto, using(crate::proofs::RangeLemmas::parted_at_cuts))]
fn pieces_of(alloc: Global, covers: &[(Range, Tag)]) -> Result<Vec<Range>, AllocError>
    ensures { IfOk result (λ ranges. ranges.items ≡ ranges_of (pieces_after covers.now)) }
{
    let cuts = cuts_in_order(alloc, covers)?;
    parted_at(alloc, cuts.as_slice())
}
