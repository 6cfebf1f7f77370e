//! The appointments that a member gave, or that name a party.
ghost use Rattle.std.specs.Prelude.{◌≡◌, IfOk, filter, length, map};
ghost use Rattle.proxy_rules.specs.Holdings.{claim_of, is_given_by};
ghost use Rattle.proxy_rules.specs.Parties.{names};

use desk_words::{Appointment, Filed, Listing, Party};
use proxy_rules::Claim;
use row_source::GivenTo;
use std::alloc::{AllocError, Global};

/// What of a member's appointments decides which shares they govern.
pub(crate) fn claims_by(
    alloc: Global,
    appointments: &Filed<Appointment>,
    member: Party,
) -> Result<Vec<Claim>, AllocError>
    ensures { IfOk result
        (λ claims. claims.items ≡ map claim_of (filter (is_given_by member) appointments.now)) }
{
    let all = appointments.as_slice();
    let places = appointments.places_by_first(member);
    let mut claims = Vec::with_capacity(alloc, places.len())?;
    for place in places {
        claims.push(Claim::of(&all[*place]))?;
    }
    Ok(claims)
}

/// How many appointments a member gave.
pub(crate) fn count_given_by(appointments: &Filed<Appointment>, member: Party) -> u64
    ensures { result ≡ length (filter (is_given_by member) appointments.now) }
{
    appointments.places_by_first(member).len() as u64
}

/// The appointments that name a party as their proxy, in order of receipt.
pub(crate) fn naming(
    alloc: Global,
    appointments: &Filed<Appointment>,
    party: Party,
) -> Result<Listing<Appointment>, AllocError>
    ensures { IfOk result (λ received. received ≡ filter (names party) appointments.now) }
{
    let received = appointments.by_second(alloc, party)?;
    Ok(Listing::from_vec(received))
}

/// Those of them that a member gave.
fn naming_by(
    alloc: Global,
    appointments: &Filed<Appointment>,
    member: Party,
    party: Party,
) -> Result<Listing<Appointment>, AllocError>
    ensures { IfOk result (λ found. found
        ≡ filter (is_given_by member) (filter (names party) appointments.now)) }
{
    let all = appointments.as_slice();
    let mut found = Listing::new(alloc);
    for place in appointments.places_by_first(member) {
        let appointment = all[*place];
        if appointment.proxy.is(party) {
            found.push(appointment)?;
        }
    }
    Ok(found)
}

/// Those of the appointments that a member gave that name a party, and what of all of them decides
/// which shares they govern.
pub(crate) fn given_to(
    alloc: Global,
    appointments: &Filed<Appointment>,
    member: Party,
    party: Party,
) -> Result<GivenTo, AllocError>
    ensures { IfOk result (λ given. given ≡ record {
      received = filter (is_given_by member) (filter (names party) appointments.now);
      claims = map claim_of (filter (is_given_by member) appointments.now);
    }) }
{
    let received = naming_by(alloc, appointments, member, party)?;
    let claims = claims_by(alloc, appointments, member)?;
    Ok(GivenTo {
        received,
        claims: Listing::from_vec(claims),
    })
}
