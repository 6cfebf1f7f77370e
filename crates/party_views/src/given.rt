//! The appointments that a party gave, with their endings, and the corporations that authorised it.
ghost use Rattle.std.specs.Prelude.{◌≡◌, ℕ, IfOk, map};
ghost use Rattle.std.specs.BTreeMap.{get};
ghost use Rattle.std.specs.Option.{option_copied};
ghost use Rattle.std.specs.Ordering.{nat_cmp};
ghost use Rattle.party_views.specs.ViewsByMember.{given_with_ending};
ghost use Rattle.party_views.specs.OwnViews.{authorised_in_rows, ended_at, given_in, shares_in};

use crate::own_rows::AuthorityRows;
use desk_words::{
    Appointment, Authorised, Ending, Given, HolderKind, Listing, Moment, RegisterRow,
};
use std::alloc::{AllocError, Global};
use std::collections::BTreeMap;

/// The moments of the endings, by the numbers that they name.
fn moments_by_number(alloc: Global, ended: &[Ending]) -> Result<BTreeMap<u64, Moment>, AllocError>
    ensures { IfOk result (λ moments. (number : ℕ) →
        get nat_cmp moments number ≡ ended_at ended.now number) }
{
    let mut moments = BTreeMap::new(alloc);
    for ending in ended {
        moments.insert(ending.number, ending.moment)?;
    }
    Ok(moments)
}

/// The appointments, each with its ending.
fn given_with(
    alloc: Global,
    given: Vec<Appointment>,
    moments: &BTreeMap<u64, Moment>,
) -> Result<Vec<Given>, AllocError>
    ensures { IfOk result (λ all. all.items ≡ map (given_with_ending moments.now) given.items) }
{
    let mut all = Vec::with_capacity(alloc, given.len())?;
    for appointment in given {
        let ended = moments.get(&appointment.number).copied();
        all.push(Given { appointment, ended })?;
    }
    Ok(all)
}

/// The appointments that a party gave, each with its ending. Where there are none, nothing is looked
/// up.
pub(crate) fn given_from(
    alloc: Global,
    given: Listing<Appointment>,
    ended: &[Ending],
) -> Result<Listing<Given>, AllocError>
    ensures { IfOk result (λ all. all ≡ map (given_in ended.now) given) }
{
    if given.is_empty() {
        return Ok(Listing::new(alloc));
    }
    let moments = moments_by_number(alloc, ended)?;
    let all = given_with(alloc, given.into_vec(), &moments)?;
    Ok(Listing::from_vec(all))
}

/// The shares of a row, 0 where it is no corporation's.
fn shares_in(row: Option<&RegisterRow>) -> u64
    ensures { result ≡ shares_in (option_copied row.entry) }
{
    match row {
        Some(row) => match row.kind {
            HolderKind::Corporation => row.shares,
            HolderKind::Individual | HolderKind::Treasury => 0,
        },
        None => 0,
    }
}

/// An authority's corporation, with its shares in the register.
fn authorised_by(rows: &AuthorityRows) -> Authorised
    ensures { result ≡ authorised_in_rows rows.now }
{
    Authorised {
        corporation: rows.authority.corporation,
        shares: shares_in(rows.row.as_ref()),
    }
}

/// The corporations that authorised a party, with their shares.
pub(crate) fn authorised_from(
    alloc: Global,
    authorised: &[AuthorityRows],
) -> Result<Vec<Authorised>, AllocError>
    ensures { IfOk result (λ all. all.items ≡ map authorised_in_rows authorised.now) }
{
    authorised.iter().map(authorised_by).collect(alloc)
}
