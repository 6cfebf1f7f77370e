//! Laws of the definitions by which the contracts speak.
ghost use Rattle.proxy_rules.specs.GoverningLaws.{ClaimsGovern, EarlierTakeNothing, EndingsReviveNothing, RunsAreParted, RunsHoldWhatGoverns, RunsHoldWhatPasses};
ghost use Rattle.proxy_rules.specs.Tiles.{PiecesCountShares, TilesCountPlaces};

/// Of every test, the runs hold exactly the places that pass it.
pub fn runs_hold_what_passes()
    ensures { RunsHoldWhatPasses }
{}

/// Of every test, the runs are in order, with a gap between each and the next.
pub fn runs_are_parted()
    ensures { RunsAreParted }
{}

/// The runs of the shares that an appointment governs hold exactly the places of which it is the
/// one that governs (section 324): what `governed` and `governing` answer is one rule.
pub fn runs_hold_what_governs()
    ensures { RunsHoldWhatGoverns }
{}

/// An ending more revives nothing: what governs a place with it governed that place without it
/// (own, after section 330).
pub fn endings_revive_nothing()
    ensures { EndingsReviveNothing }
{}

/// What a member's appointment governs does not depend on those that were received before all of
/// its number.
pub fn earlier_take_nothing()
    ensures { EarlierTakeNothing }
{}

/// The number, the range and the moment of appointments decide alone what each governs, and not
/// whom they name or how they instruct him (section 324).
pub fn claims_govern()
    ensures { ClaimsGovern }
{}

/// Over ranges that hold the places 1 to n in order, on each of which a test answers alike, the
/// places that pass are those of the ranges that pass: how a count of shares goes over pieces.
pub fn tiles_count_places()
    ensures { TilesCountPlaces }
{}

/// The shares of a holding that are governed by what passes a test are those of the pieces that
/// pass.
pub fn pieces_count_shares()
    ensures { PiecesCountShares }
{}
