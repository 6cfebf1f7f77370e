//! All places, parted at cuts.
ghost use Rattle.std.specs.Prelude.{◌≡◌, IsTrue, IfOk};
ghost use Rattle.share_blocks.specs.Cuts.{ranges_between, rise_from};

use desk_words::{MOST_PLACES, Range};
use std::alloc::{AllocError, Global};

/// All places, parted at the cuts.
pub(crate) fn parted_at(alloc: Global, cuts: &[u64]) -> Result<Vec<Range>, AllocError>
    requires { IsTrue (rise_from 1 cuts.now) }
    ensures { IfOk result (λ ranges. ranges.items ≡ ranges_between 1 cuts.now) }
{
    let mut ranges = Vec::with_capacity(alloc, cuts.len().saturating_add(1))?;
    let mut from = 1;
    for cut in cuts {
        ranges.push(Range::with_ends(from, *cut - 1))?;
        from = *cut;
    }
    ranges.push(Range::with_ends(from, MOST_PLACES))?;
    Ok(ranges)
}
