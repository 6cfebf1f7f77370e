//! The records of a party, looked up by the names that they are filed under.
ghost use Rattle.std.specs.Prelude.{◌≡◌, ◌==◌, IfOk, filter, true};
ghost use Rattle.std.specs.Option.{option_copied};
ghost use Rattle.desk_words.specs.Ordered.{ascends_by};
ghost use Rattle.desk_words.specs.Registers.{member_before};
ghost use Rattle.party_views.specs.OwnCasts.{cast_count};
ghost use Rattle.party_views.specs.PartyRows.{presences_of};
ghost use Rattle.proxy_rules.specs.Holdings.{is_ended_of};
ghost use Rattle.proxy_rules.specs.Parties.{authorises, is_authority_of, is_cast_by, is_demanded_by};
ghost use Rattle.proxy_rules.specs.Shares.{row_of, shares_by};

use desk_words::{
    Authority, CastMark, DemandMark, Ending, Filed, Party, PresenceMark, RegisterRow,
};
use proxy_rules::{find_row, shares};
use std::alloc::{AllocError, Global};

/// A copy of a member's row.
pub(crate) fn row_of(rows: &[RegisterRow], party: Party) -> Result<Option<RegisterRow>, AllocError>
    requires { ascends_by member_before rows.now ≡ true }
    ensures { IfOk result (λ r. r ≡ row_of rows.now party) }
{
    match find_row(rows, party) {
        None => Ok(None),
        Some(row) => Ok(Some(row.clone()?)),
    }
}

/// How many shares a member has.
pub(crate) fn shares_of(rows: &[RegisterRow], member: Party) -> u64
    requires { ascends_by member_before rows.now ≡ true }
    ensures { result ≡ shares_by rows.now member }
{
    match find_row(rows, member) {
        None => 0,
        Some(row) => shares(row),
    }
}

/// The endings that a party made, in order of receipt.
pub(crate) fn ended_by(
    alloc: Global,
    endings: &Filed<Ending>,
    party: Party,
) -> Result<Vec<Ending>, AllocError>
    ensures { IfOk result (λ ended. ended.items ≡ filter (is_ended_of party) endings.now) }
{
    endings.by_first(alloc, party)
}

/// The authorities that a party gave, in order of receipt.
pub(crate) fn persons_of(
    alloc: Global,
    authorities: &Filed<Authority>,
    party: Party,
) -> Result<Vec<Authority>, AllocError>
    ensures { IfOk result (λ persons. persons.items
        ≡ filter (is_authority_of party) authorities.now) }
{
    authorities.by_first(alloc, party)
}

/// The authorities that were given to a party, in order of receipt.
pub(crate) fn trusting(
    alloc: Global,
    authorities: &Filed<Authority>,
    party: Party,
) -> Result<Vec<Authority>, AllocError>
    ensures { IfOk result (λ given. given.items ≡ filter (authorises party) authorities.now) }
{
    authorities.by_second(alloc, party)
}

/// Those of a corporation.
fn of_corporation(
    alloc: Global,
    given: &[Authority],
    corporation: Party,
) -> Result<Vec<Authority>, AllocError>
    ensures { IfOk result (λ found. found.items ≡ filter (is_authority_of corporation) given.now) }
{
    given
        .iter()
        .copied()
        .filter(|authority| authority.corporation.is(corporation))
        .collect(alloc)
}

/// The authorities that a corporation gave to a party, in order of receipt.
pub(crate) fn trusting_for(
    alloc: Global,
    authorities: &Filed<Authority>,
    corporation: Party,
    party: Party,
) -> Result<Vec<Authority>, AllocError>
    ensures { IfOk result (λ given. given.items
        ≡ filter (is_authority_of corporation) (filter (authorises party) authorities.now)) }
{
    let given = trusting(alloc, authorities, party)?;
    of_corporation(alloc, given.as_slice(), corporation)
}

/// The sessions in which a party is marked present, in order of receipt.
pub(crate) fn presences_of(
    alloc: Global,
    presences: &Filed<PresenceMark>,
    party: Party,
) -> Result<Vec<u64>, AllocError>
    ensures { IfOk result (λ sessions. sessions.items ≡ presences_of party presences.now) }
{
    let all = presences.as_slice();
    let places = presences.places_by_first(party);
    let mut sessions = Vec::with_capacity(alloc, places.len())?;
    for place in places {
        sessions.push(all[*place].session)?;
    }
    Ok(sessions)
}

/// The polls that a party demanded, in order of receipt. In most meetings nobody demands one, and
/// then nothing is looked up.
pub(crate) fn demands_of(
    alloc: Global,
    demands: &Filed<DemandMark>,
    party: Party,
) -> Result<Vec<DemandMark>, AllocError>
    ensures { IfOk result (λ found. found.items ≡ filter (is_demanded_by party) demands.now) }
{
    if demands.as_slice().is_empty() {
        return Ok(Vec::new(alloc));
    }
    demands.by_first(alloc, party)
}

/// The votes that a party cast, in order of receipt.
pub(crate) fn casts_of(
    alloc: Global,
    casts: &Filed<CastMark>,
    party: Party,
) -> Result<Vec<CastMark>, AllocError>
    ensures { IfOk result (λ found. found.items ≡ filter (is_cast_by party) casts.now) }
{
    casts.by_first(alloc, party)
}

/// How many votes a party cast on a resolution.
pub(crate) fn count_cast_on(casts: &Filed<CastMark>, party: Party, resolution: u64) -> usize
    ensures { result ≡ cast_count (filter (is_cast_by party) casts.now) resolution }
{
    let all = casts.as_slice();
    let places = casts.places_by_first(party);
    let mut count = 0;
    for place in places {
        if all[*place].resolution == resolution {
            count += 1;
        }
    }
    count
}
