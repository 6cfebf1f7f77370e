//! In which roles a person may act at a meeting.
ghost use Rattle.std.specs.Prelude.{◌≡◌, ◌≤◌, ◌^◌, ◌&&◌, ◌++◌, [], ℕ, List, filter, map, option_map, true, IfOk, OnOk};
ghost use Rattle.std.specs.List.{filter_map, flat_map};
ghost use Rattle.vocabulary.specs.Names.{same_name};
ghost use Rattle.desk_words.specs.Office.{are_numbered_after};
ghost use Rattle.desk_words.specs.Registers.{all_shares};
ghost use Rattle.desk_words.specs.declared.records.Appointment.{Appointment};
ghost use Rattle.desk_words.specs.declared.records.Authority.{Authority};
ghost use Rattle.proxy_rules.specs.Holdings.{IsValidHolding, are_tags, holding_by};
ghost use Rattle.proxy_rules.specs.Shares.{is_corporation, is_individual};
ghost use Rattle.proxy_rules.specs.Tiles.{governing_of};
ghost use Rattle.poll_rules.specs.Acting.{is_one_of, some_may_act};
ghost use Rattle.poll_rules.specs.GatheredItems.{are_in, items_at};
ghost use Rattle.poll_rules.specs.Quorum.{same_role};
ghost use Rattle.poll_rules.specs.Roles.{has_authority, is_proxy_in, proxy_of, role_if, roles_by};

use crate::acting::{has_named_one, members_of, set_of};
use crate::gathered::add_to;
use desk_words::{Authority, Capacity, Filed, HolderKind, Party, RegisterRow};
use proxy_rules::{Cutoffs, GovernedPiece, Holding, Papers, authorised_by};
use seq::in_order_once;
use std::alloc::{AllocError, Global};
use std::collections::{BTreeMap, BTreeSet};

/// A capacity in which a person acts, and the member for whose shares.
#[derive(Clone, Copy, PartialEq, Eq)]
pub struct Role {
    pub capacity: Capacity,
    pub member: Party,
}

impl Role {
    /// Whether both are the same role.
    pub(crate) fn is(self, other: Role) -> bool
        ensures { result ≡ same_role self other }
    {
        self.capacity == other.capacity && self.member.is(other.member)
    }
}

/// Those of the persons who are present.
fn present_among(persons: Vec<Party>, present: &BTreeSet<Party>) -> Vec<Party>
    ensures { result.items ≡ filter (is_one_of present.now) persons.items }
{
    let mut found = persons;
    found.retain(|person| present.contains(person));
    found
}

/// Gives each of these persons who is present the role in that capacity, for the member, once.
fn give_role(
    roles: &mut BTreeMap<Party, Vec<Role>>,
    present: &BTreeSet<Party>,
    persons: Vec<Party>,
    capacity: Capacity,
    member: Party,
) -> Result<(), AllocError>
    ensures { OnOk result
        ((person : List ℕ)
        → is_one_of present.now person ≡ true
        → items_at roles.new person
        ≡ items_at roles.old person
        ++ role_if (are_in persons.items person) capacity member) }
{
    let each = in_order_once(present_among(persons, present));
    for person in &each {
        add_to(roles, *person, Role { capacity, member })?;
    }
    Ok(())
}

/// The individual who holds the row, if one does.
fn holders(alloc: Global, row: &RegisterRow) -> Result<Vec<Party>, AllocError>
    ensures { IfOk result
        (λ persons. (person : List ℕ)
        → are_in persons.items person
        ≡ (is_individual row.now.kind && same_name row.now.member person)) }
{
    match row.kind {
        HolderKind::Individual => Ok(vec![in alloc; row.member]?),
        HolderKind::Corporation | HolderKind::Treasury => Ok(Vec::new(alloc)),
    }
}

/// The persons who may represent the corporation that holds the row (section 323).
fn representatives(
    alloc: Global,
    authorities: &Filed<Authority>,
    row: &RegisterRow,
) -> Result<Vec<Party>, AllocError>
    ensures { IfOk result
        (λ persons. (person : List ℕ)
        → are_in persons.items person
        ≡
        (is_corporation row.now.kind
        && has_authority authorities.now row.now.member person)) }
{
    match row.kind {
        HolderKind::Corporation => authorised_by(alloc, authorities, row.member),
        HolderKind::Individual | HolderKind::Treasury => Ok(Vec::new(alloc)),
    }
}

/// The proxy who governs a piece of a holding.
fn proxy_of(holding: &Holding, piece: &GovernedPiece) -> Option<Party>
    ensures { result ≡ proxy_of holding.now piece.now }
{
    Some(holding.appointment(piece)?.proxy)
}

/// The proxies who govern the pieces of a holding.
fn proxies_of(
    alloc: Global,
    holding: &Holding,
    pieces: &[GovernedPiece],
) -> Result<Vec<Party>, AllocError>
    ensures { IfOk result
        (λ persons. persons.items ≡ filter_map (proxy_of holding.now) pieces.now) }
{
    pieces
        .iter()
        .filter_map(|piece| proxy_of(holding, piece))
        .collect(alloc)
}

/// The proxies who govern a share of a holding (section 324).
fn proxies(alloc: Global, cutoffs: &Cutoffs, holding: &Holding) -> Result<Vec<Party>, AllocError>
    requires { IsValidHolding holding.now }
    ensures { IfOk result
        (λ persons. (person : List ℕ)
        → are_in persons.items person ≡ is_proxy_in cutoffs.now holding.now person) }
{
    let pieces = holding.pieces(alloc, cutoffs)?;
    proxies_of(alloc, holding, pieces.as_slice())
}

/// The proxies who govern a share of the row. Where its member named none of those who are present,
/// nothing is looked up.
fn proxies_of_row(
    alloc: Global,
    cutoffs: &Cutoffs,
    papers: &Papers,
    present: &BTreeSet<Party>,
    row: &RegisterRow,
) -> Result<Vec<Party>, AllocError>
    requires tags { are_tags papers.now.appointments.now ≡ true }
    requires numbered { are_numbered_after [] papers.now.appointments.now ≡ true }
    requires few { row.now.shares ≤ 10 ^ 12 }
    ensures { IfOk result
        (λ persons. (person : List ℕ)
        → is_one_of present.now person ≡ true
        → are_in persons.items person
        ≡ is_proxy_in cutoffs.now
        (holding_by papers.now.appointments.now papers.now.endings.now row.now) person) }
{
    if !has_named_one(papers.appointments, present, row.member) {
        return Ok(Vec::new(alloc));
    }
    let holding = Holding::of_row(alloc, row, papers.appointments, papers.endings)?;
    proxies(alloc, cutoffs, &holding)
}

/// Gives the roles in which those who are present act for the row.
fn give_roles(
    alloc: Global,
    roles: &mut BTreeMap<Party, Vec<Role>>,
    cutoffs: &Cutoffs,
    papers: &Papers,
    present: &BTreeSet<Party>,
    row: &RegisterRow,
) -> Result<(), AllocError>
    requires tags { are_tags papers.now.appointments.now ≡ true }
    requires numbered { are_numbered_after [] papers.now.appointments.now ≡ true }
    requires few { row.now.shares ≤ 10 ^ 12 }
    ensures { OnOk result
        ((person : List ℕ)
        → is_one_of present.now person ≡ true
        → items_at roles.new person
        ≡ items_at roles.old person
        ++ roles_by cutoffs.now papers.now.appointments.now papers.now.endings.now
        papers.now.authorities.now person row.now) }
{
    let member = row.member;
    let own = holders(alloc, row)?;
    give_role(roles, present, own, Capacity::Member, member)?;
    let representing = representatives(alloc, papers.authorities, row)?;
    give_role(roles, present, representing, Capacity::Rep, member)?;
    let governing = proxies_of_row(alloc, cutoffs, papers, present, row)?;
    give_role(roles, present, governing, Capacity::Proxy, member)
}

/// The roles of each person who is present, where those may act for these members alone: the row of
/// each such member is asked once.
fn roles_over(
    alloc: Global,
    cutoffs: &Cutoffs,
    papers: &Papers,
    present: &BTreeSet<Party>,
    members: &BTreeSet<Party>,
) -> Result<BTreeMap<Party, Vec<Role>>, AllocError>
    requires tags { are_tags papers.now.appointments.now ≡ true }
    requires numbered { are_numbered_after [] papers.now.appointments.now ≡ true }
    requires few { all_shares papers.now.register.now ≤ 10 ^ 12 }
    requires members { (member : List ℕ) → is_one_of members.now member
        ≡ some_may_act (is_one_of present.now) papers.now.appointments.now
        papers.now.authorities.now member }
    ensures { IfOk result
        (λ roles. (person : List ℕ)
        → is_one_of present.now person ≡ true
        → items_at roles person
        ≡ flat_map
        (roles_by cutoffs.now papers.now.appointments.now papers.now.endings.now
        papers.now.authorities.now person)
        papers.now.register.now) }
{
    let mut roles = BTreeMap::new(alloc);
    for row in papers.register {
        if members.contains(&row.member) {
            give_roles(alloc, &mut roles, cutoffs, papers, present, row)?;
        }
    }
    Ok(roles)
}

/// The roles of each of the persons. Of others it says nothing: rows are asked only where one of
/// the persons may act for their members. The error is want of memory.
pub(crate) fn roles_by_person(
    alloc: Global,
    cutoffs: &Cutoffs,
    papers: &Papers,
    persons: &[Party],
) -> Result<BTreeMap<Party, Vec<Role>>, AllocError>
    requires tags { are_tags papers.now.appointments.now ≡ true }
    requires numbered { are_numbered_after [] papers.now.appointments.now ≡ true }
    requires few { all_shares papers.now.register.now ≤ 10 ^ 12 }
    ensures { IfOk result
        (λ roles. (person : List ℕ)
        → are_in persons.now person ≡ true
        → items_at roles person
        ≡ flat_map
        (roles_by cutoffs.now papers.now.appointments.now papers.now.endings.now
        papers.now.authorities.now person)
        papers.now.register.now) }
{
    let present = set_of(alloc, persons)?;
    let members = members_of(alloc, papers, persons)?;
    roles_over(alloc, cutoffs, papers, &present, &members)
}
