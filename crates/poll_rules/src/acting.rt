//! The members for whom persons may act.
ghost use Rattle.std.specs.Prelude.{◌≡◌, ◌||◌, ℕ, List, IfOk, OnOk};
ghost use Rattle.std.specs.List.{list_any, slice_get};
ghost use Rattle.std.specs.Option.{option_copied};
ghost use Rattle.vocabulary.specs.Names.{same_name};
ghost use Rattle.poll_rules.specs.Acting.{is_one_of, some_authorised, some_may_act, some_named};
ghost use Rattle.poll_rules.specs.Demands.{names_one};
ghost use Rattle.poll_rules.specs.GatheredItems.{are_in};

use desk_words::{Appointment, Authority, Filed, Party};
use proxy_rules::Papers;
use std::alloc::{AllocError, Global};
use std::collections::BTreeSet;

/// The persons, as a set.
pub(crate) fn set_of(alloc: Global, persons: &[Party]) -> Result<BTreeSet<Party>, AllocError>
    ensures { IfOk result (λ set. (person : List ℕ)
        → is_one_of set person ≡ are_in persons.now person) }
{
    let mut set = BTreeSet::new(alloc);
    for person in persons {
        set.insert(*person)?;
    }
    Ok(set)
}

/// Whether the appointment names one of the persons.
pub(crate) fn names_one(persons: &BTreeSet<Party>, by: Option<&Appointment>) -> bool
    ensures { result ≡ names_one (is_one_of persons.now) (option_copied by.entry) }
{
    match by {
        Some(appointment) => persons.contains(&appointment.proxy),
        None => false,
    }
}

/// Whether the appointment at the place names one of the persons.
fn names_one_at(given: &[Appointment], persons: &BTreeSet<Party>, place: usize) -> bool
    ensures { result ≡ names_one (is_one_of persons.now) (slice_get given.now place) }
{
    names_one(persons, given.get(place))
}

/// Whether an appointment at one of the places names one of the persons.
fn any_names_one(given: &[Appointment], places: &[usize], persons: &BTreeSet<Party>) -> bool
    ensures { result
        ≡ list_any (λ place. names_one (is_one_of persons.now) (slice_get given.now place))
        places.now }
{
    places
        .iter()
        .any(|place| names_one_at(given, persons, *place))
}

/// Whether the member named one of the persons as its proxy.
pub(crate) fn has_named_one(
    appointments: &Filed<Appointment>,
    persons: &BTreeSet<Party>,
    member: Party,
) -> bool
    ensures { result ≡ some_named (is_one_of persons.now) appointments.now member }
{
    let places = appointments.places_by_first(member);
    any_names_one(appointments.as_slice(), places, persons)
}

/// Adds the corporations that authorised the person (section 323).
fn add_corporations(
    members: &mut BTreeSet<Party>,
    authorities: &Filed<Authority>,
    person: Party,
) -> Result<(), AllocError>
    ensures { OnOk result ((member : List ℕ) → is_one_of members.new member
        ≡ (is_one_of members.old member
        || some_authorised (same_name person) authorities.now member)) }
{
    let all = authorities.as_slice();
    for place in authorities.places_by_second(person) {
        members.insert(all[*place].corporation)?;
    }
    Ok(())
}

/// Adds the members who named the person as their proxy (section 324).
fn add_appointers(
    members: &mut BTreeSet<Party>,
    appointments: &Filed<Appointment>,
    person: Party,
) -> Result<(), AllocError>
    ensures { OnOk result ((member : List ℕ) → is_one_of members.new member
        ≡ (is_one_of members.old member
        || some_named (same_name person) appointments.now member)) }
{
    let all = appointments.as_slice();
    for place in appointments.places_by_second(person) {
        members.insert(all[*place].member)?;
    }
    Ok(())
}

/// Adds the members for whom the person may act: itself, the corporations that authorised it, and
/// those who named it as their proxy.
fn add_members(
    members: &mut BTreeSet<Party>,
    papers: &Papers,
    person: Party,
) -> Result<(), AllocError>
    ensures { OnOk result ((member : List ℕ) → is_one_of members.new member
        ≡ (is_one_of members.old member
        || some_may_act (same_name person) papers.now.appointments.now papers.now.authorities.now
        member)) }
{
    members.insert(person)?;
    add_corporations(members, papers.authorities, person)?;
    add_appointers(members, papers.appointments, person)
}

/// The members for whom one of the persons may act, looked up by the names of the persons. No
/// share of another member is one for which any of them acts.
pub(crate) fn members_of(
    alloc: Global,
    papers: &Papers,
    persons: &[Party],
) -> Result<BTreeSet<Party>, AllocError>
    ensures { IfOk result (λ members. (member : List ℕ) → is_one_of members member
        ≡ some_may_act (are_in persons.now) papers.now.appointments.now papers.now.authorities.now
        member) }
{
    let mut members = BTreeSet::new(alloc);
    for person in persons {
        add_members(&mut members, papers, *person)?;
    }
    Ok(members)
}
