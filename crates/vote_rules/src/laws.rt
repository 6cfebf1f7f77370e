//! Laws of the definitions by which the contracts speak.
ghost use Rattle.vote_rules.specs.TallyLaws.{TalliesFitTheShares, TalliesReadTheirOwnCasts};

/// Of every register, and of no rows, whatever is cast and whoever governs: the votes of a tally
/// are at most the shares, and the shares at most 10^12.
pub fn tallies_fit()
    ensures { TalliesFitTheShares }
{}

/// The tally of a resolution depends, of all casts, on those on that resolution alone.
pub fn tallies_read_their_own_casts()
    ensures { TalliesReadTheirOwnCasts }
{}
