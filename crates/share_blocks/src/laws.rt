//! Laws of covering, whoever implements it.
ghost use Rattle.std.specs.Prelude.{◌≡◌, ℕ, Bool, IfOk, find};
ghost use Rattle.share_blocks.specs.Pieces.{tags_at};

use crate::blocks::{Blocks, run};
use crate::tag::Tag;
use desk_words::Range;
use std::alloc::{AllocError, Global};

/// Covers ranges in turn, by one kind of blocks and by another: both have the same pieces. So
/// their ranges are the same, and at each place the first tag that passes a test, whatever tags are
/// admitted. The only error is want of memory.
pub fn run_alike<A: Blocks, B: Blocks>(
    alloc: Global,
    covers: &[(Range, Tag)],
) -> Result<(A, B), AllocError>
    ensures pieces { IfOk result (λ both. A.pieces both.0 ≡ B.pieces both.1) }
    ensures first { IfOk result (λ both. (place : ℕ) (admitted : ℕ → Bool)
        → find admitted (tags_at (A.pieces both.0) place)
        ≡ find admitted (tags_at (B.pieces both.1) place)) }
{
    let one = run(alloc, covers)?;
    let other = run(alloc, covers)?;
    Ok((one, other))
}
