//! The members who named a party, and the corporations that authorised it.
ghost use Rattle.std.specs.Prelude.{◌≡◌, ℕ, List, IfOk, None, filter, map};
ghost use Rattle.std.specs.BTreeSet.{contains};
ghost use Rattle.vocabulary.specs.Names.{name_cmp};
ghost use Rattle.std.specs.List.{list_any};
ghost use Rattle.proxy_rules.specs.Holdings.{is_given_by};
ghost use Rattle.party_views.specs.RowsRead.{is_instructing};
ghost use Rattle.party_views.specs.PartyRows.{givers};
ghost use Rattle.row_source.specs.LookUps.{authority_at, member_at, member_with, naming_by_in, naming_in, trusting_from};
ghost use Rattle.row_source.specs.LookUps.{chosen, chosen_givers, givers_among, with_givers};
ghost use Rattle.row_source.specs.TrueLookUps.{IsTrueLookUp};

use crate::source::{GivenTo, RowSource};
use desk_words::{Appointment, Authority, Listing, Party};
use party_views::{AuthorityRows, MemberRows};
use proxy_rules::{Claim, Claims, instructed_on};
use std::alloc::{AllocError, Global};
use std::collections::BTreeSet;

/// Appointments that name a party, and the members who gave them, each once, in the order in which
/// they first named it.
#[derive(Drop)]
pub(crate) struct ReceivedRows {
    pub(crate) received: Listing<Appointment>,
    pub(crate) members: Listing<MemberRows>,
}

/// A member, with its shares, these claims of its appointments, and its endings.
fn member_with<R: RowSource>(
    source: &mut R,
    member: Party,
    claims: Listing<Claim>,
) -> Result<MemberRows, R::Error>
    ensures { IsTrueLookUp R.trusted R.shows R.keeps R.leaves R.may_fail source.old source.new result
        (λ found rows. rows ≡ member_with found member claims) }
{
    let shares = source.shares_of(member)?;
    let ended = source.ended_by(member)?;
    Ok(MemberRows {
        member,
        holding: Claims::new(shares, claims, ended),
    })
}

/// A member, with its shares, the claims of its appointments, and its endings.
fn member_rows<R: RowSource>(source: &mut R, member: Party) -> Result<MemberRows, R::Error>
    ensures { IsTrueLookUp R.trusted R.shows R.keeps R.leaves R.may_fail source.old source.new result
        (λ found rows. rows ≡ member_at found member) }
{
    let claims = source.claims_by(member)?;
    member_with(source, member, claims)
}

/// The members who gave the appointments, each once, where it first gave one.
fn givers(alloc: Global, given: &[Appointment]) -> Result<Vec<Party>, AllocError>
    ensures { IfOk result (λ members. members.items ≡ givers given.now) }
{
    if let [only] = given {
        return Ok(vec![in alloc; only.member]?);
    }
    let mut members = Vec::new(alloc);
    let mut seen = BTreeSet::new(alloc);
    for appointment in given {
        if seen.insert(appointment.member)? {
            members.push(appointment.member)?;
        }
    }
    Ok(members)
}

/// Those of the appointments that instruct on a resolution (section 324A).
fn instructing_among(
    alloc: Global,
    received: &[Appointment],
    resolution: u64,
) -> Result<Listing<Appointment>, AllocError>
    ensures { IfOk result (λ found. found ≡ filter (is_instructing resolution) received.now) }
{
    let found: Vec<Appointment> = received
        .iter()
        .copied()
        .filter(|a| instructed_on(a.instructions.as_slice(), resolution).is_some())
        .collect(alloc)?;
    Ok(Listing::from_vec(found))
}

/// The members who gave one of these appointments.
fn givers_of(alloc: Global, given: &[Appointment]) -> Result<BTreeSet<Party>, AllocError>
    ensures { IfOk result
        (λ givers. (member : List ℕ) → contains name_cmp givers member
        ≡ list_any (is_given_by member) given.now) }
{
    let mut givers = BTreeSet::new(alloc);
    for appointment in given {
        let _ = givers.insert(appointment.member)?;
    }
    Ok(givers)
}

/// Those of the members who are in the set.
fn among(members: Vec<Party>, set: &BTreeSet<Party>) -> Vec<Party>
    ensures { result.items ≡ filter (contains name_cmp set.now) members.items }
{
    let mut found = members;
    found.retain(|member| set.contains(member));
    found
}

/// Of the members who gave these appointments, each once, those who gave one of those.
fn givers_among(
    alloc: Global,
    given: &[Appointment],
    those: &[Appointment],
) -> Result<Vec<Party>, AllocError>
    ensures { IfOk result (λ members. members.items ≡ givers_among given.now those.now) }
{
    if those.is_empty() {
        return Ok(Vec::new(alloc));
    }
    let all = givers(alloc, given)?;
    Ok(among(all, &givers_of(alloc, those)?))
}

/// Appointments, and the members who gave them.
#[derive(Drop)]
struct Chosen {
    received: Listing<Appointment>,
    givers: Vec<Party>,
}

/// Those of the appointments that instruct on a resolution (section 324A), or all where none is
/// named; and the members who gave them.
fn choose(alloc: Global, given: Listing<Appointment>, on: Option<u64>) -> Result<Chosen, AllocError>
    ensures received { IfOk result (λ c. c.received ≡ chosen on given) }
    ensures givers { IfOk result (λ c. c.givers.items ≡ chosen_givers on given) }
{
    match on {
        None => {
            let givers = givers(alloc, given.as_slice())?;
            Ok(Chosen {
                received: given,
                givers,
            })
        }
        Some(resolution) => {
            let received = instructing_among(alloc, given.as_slice(), resolution)?;
            let givers = givers_among(alloc, given.as_slice(), received.as_slice())?;
            Ok(Chosen { received, givers })
        }
    }
}

/// The appointments that a member gave and that name a party (section 324), and the member, where
/// there is one. The member's appointments are looked up once; where none names the party, nothing
/// else is.
pub(crate) fn named_by<R: RowSource>(
    source: &mut R,
    alloc: Global,
    member: Party,
    party: Party,
) -> Result<ReceivedRows, R::Error>
    ensures { IsTrueLookUp R.trusted R.shows R.keeps R.leaves R.may_fail source.old source.new result
        (λ found named. named ≡ with_givers found None (naming_by_in found member party)) }
{
    let given = source.given_to(member, party)?;
    let GivenTo { received, claims } = given;
    if received.is_empty() {
        return Ok(ReceivedRows {
            received,
            members: Listing::new(alloc),
        });
    }
    let mut members = Listing::new(alloc);
    members.push(member_with(source, member, claims)?)?;
    Ok(ReceivedRows { received, members })
}

/// The appointments that name a party (section 324), or of them those that instruct on a
/// resolution, where one is named; and the members who gave them. Of a member who gave none of them
/// nothing else is looked up.
pub(crate) fn named<R: RowSource>(
    source: &mut R,
    alloc: Global,
    party: Party,
    on: Option<u64>,
) -> Result<ReceivedRows, R::Error>
    ensures { IsTrueLookUp R.trusted R.shows R.keeps R.leaves R.may_fail source.old source.new result
        (λ found named. named ≡ with_givers found on (naming_in found party)) }
{
    let given = source.naming(party)?;
    let chosen = choose(alloc, given, on)?;
    let Chosen { received, givers } = chosen;
    let mut members = Listing::from_vec(Vec::with_capacity(alloc, givers.len())?);
    for member in &givers {
        members.push(member_rows(source, *member)?)?;
    }
    Ok(ReceivedRows { received, members })
}

/// The authorities that were given to a party, or that of a giver, where one is named.
fn trusting_from<R: RowSource>(
    source: &mut R,
    giver: Option<Party>,
    party: Party,
) -> Result<Listing<Authority>, R::Error>
    ensures { IsTrueLookUp R.trusted R.shows R.keeps R.leaves R.may_fail source.old source.new result
        (λ found given. given ≡ trusting_from found giver party) }
{
    match giver {
        None => source.trusting(party),
        Some(corporation) => source.trusting_for(corporation, party),
    }
}

/// The authorities that were given to a party (section 323), or that of a giver, where one is
/// named; each with its corporation's row.
pub(crate) fn authorised<R: RowSource>(
    source: &mut R,
    alloc: Global,
    giver: Option<Party>,
    party: Party,
) -> Result<Listing<AuthorityRows>, R::Error>
    ensures { IsTrueLookUp R.trusted R.shows R.keeps R.leaves R.may_fail source.old source.new result
        (λ found all. all ≡ map (authority_at found) (trusting_from found giver party)) }
{
    let given = trusting_from(source, giver, party)?;
    let mut all = Listing::from_vec(Vec::with_capacity(alloc, given.len())?);
    for authority in given.as_slice() {
        all.push(AuthorityRows {
            authority: *authority,
            row: source.row_of(authority.corporation)?,
        })?;
    }
    Ok(all)
}
