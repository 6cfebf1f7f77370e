//! The demand of a poll.
ghost use Rattle.std.specs.Prelude.{◌≡◌, ◌≤◌, ◌<◌, ◌*◌, ◌^◌, ◌||◌, ℕ, List, [], true, IfOk, filter, map, sum_by};
ghost use Rattle.std.specs.List.{list_any};
ghost use Rattle.desk_words.specs.declared.records.DemandMark.{DemandMark};
ghost use Rattle.desk_words.specs.Office.{are_numbered_after, are_rows};
ghost use Rattle.proxy_rules.specs.Holdings.{are_tags};
ghost use Rattle.proxy_rules.specs.Tiles.{shares_if};
ghost use Rattle.poll_rules.specs.Acting.{is_one_of, some_may_act};
ghost use Rattle.poll_rules.specs.DemandSums.{FitsRow, demand_from, sums_by, with_row};
ghost use Rattle.poll_rules.specs.Demands.{by_a_representative, holder_demanded, demand_of, is_demand_in, is_enough, names_one, shares_demanding};
ghost use Rattle.poll_rules.specs.GatheredItems.{are_in};

use crate::acting::{members_of, names_one, set_of};
use desk_words::{Authority, DemandMark, Filed, HolderKind, Party, RegisterRow};
use proxy_rules::{Cutoffs, GovernedPiece, Holding, Papers, authorised_by, shares};
use std::alloc::{AllocError, Global};
use std::collections::BTreeSet;

/// Which shares demand a poll, and whether they are enough (sections 321 and 329).
#[derive(Clone, Copy, PartialEq, Eq)]
pub struct Demand {
    /// How many members hold a share that demands it.
    pub members: u64,
    /// How many shares demand it.
    pub shares: u64,
    /// The pence paid up on these shares.
    pub paid: u64,
    /// Whether some share demands it, and the shares that do have at least five holders, or are at
    /// least a tenth of all shares by number or by the sum paid up on them.
    pub reached: bool,
}

/// The demand of nobody.
const NO_DEMAND: Demand = Demand {
    members: 0,
    shares: 0,
    paid: 0,
    reached: false,
};

/// The sums of a demand over some rows.
#[derive(Clone, Copy)]
struct Sums {
    /// How many rows have a share that demands.
    members: u64,
    /// How many shares demand, and the pence paid up on them.
    shares: u64,
    paid: u64,
    /// How many shares there are, and the pence paid up on them.
    all_shares: u64,
    all_paid: u64,
}

const NOTHING: Sums = Sums {
    members: 0,
    shares: 0,
    paid: 0,
    all_shares: 0,
    all_paid: 0,
};

/// Whether the demand was made in the session, of a poll on the resolution.
fn is_demand_in(demand: &DemandMark, session: u64, resolution: u64) -> bool
    ensures { result ≡ is_demand_in session resolution demand.now }
{
    demand.session == session && demand.resolution == resolution
}

/// Those who demanded a poll on the resolution in the session.
fn demanders(
    alloc: Global,
    demands: &[DemandMark],
    session: u64,
    resolution: u64,
) -> Result<Vec<Party>, AllocError>
    ensures { IfOk result (λ persons. persons.items
        ≡ map (λ (demand : DemandMark). demand.party)
        (filter (is_demand_in session resolution) demands.now)) }
{
    demands
        .iter()
        .filter(|demand| is_demand_in(demand, session, resolution))
        .map(|demand| demand.party)
        .collect(alloc)
}

/// Whether any of these persons demands it.
fn any_demands(demanders: &BTreeSet<Party>, persons: &[Party]) -> bool
    ensures { result ≡ list_any (is_one_of demanders.now) persons.now }
{
    persons.iter().any(|person| demanders.contains(person))
}

/// Whether the individual who holds the row demands it, or a representative of the corporation that
/// does.
fn holder_demands(
    alloc: Global,
    demanders: &BTreeSet<Party>,
    authorities: &Filed<Authority>,
    row: &RegisterRow,
) -> Result<bool, AllocError>
    ensures { IfOk result (λ demands. demands ≡ (holder_demanded (is_one_of demanders.now) row.now
        || by_a_representative (is_one_of demanders.now) authorities.now row.now)) }
{
    match row.kind {
        HolderKind::Individual => Ok(demanders.contains(&row.member)),
        HolderKind::Corporation => {
            let persons = authorised_by(alloc, authorities, row.member)?;
            Ok(any_demands(demanders, persons.as_slice()))
        }
        HolderKind::Treasury => Ok(false),
    }
}

/// How many shares a piece of a holding has, if its proxy demands it.
fn shares_if_demanded(demanders: &BTreeSet<Party>, holding: &Holding, piece: &GovernedPiece) -> u64
    ensures { result ≡ shares_if (names_one (is_one_of demanders.now)) holding.now piece.now }
{
    if names_one(demanders, holding.appointment(piece)) {
        piece.range.to() - piece.range.from() + 1
    } else {
        0
    }
}

/// How many shares the pieces of those who demand have.
fn shares_of_demanders(
    demanders: &BTreeSet<Party>,
    holding: &Holding,
    pieces: &[GovernedPiece],
) -> u64
    requires { sum_by (shares_if (names_one (is_one_of demanders.now)) holding.now) pieces.now
        < 2 ^ 64 }
    ensures { result
        ≡ sum_by (shares_if (names_one (is_one_of demanders.now)) holding.now) pieces.now }
{
    pieces
        .iter()
        .map(|piece| shares_if_demanded(demanders, holding, piece))
        .sum()
}

/// How many shares of the row demand it.
fn demanding(
    alloc: Global,
    cutoffs: &Cutoffs,
    papers: &Papers,
    demanders: &BTreeSet<Party>,
    row: &RegisterRow,
) -> Result<u64, AllocError>
    requires tags { are_tags papers.now.appointments.now ≡ true }
    requires numbered { are_numbered_after [] papers.now.appointments.now ≡ true }
    requires few { row.now.shares ≤ 10 ^ 12 }
    ensures { IfOk result
        (λ shares. shares
        ≡ shares_demanding (is_one_of demanders.now) cutoffs.now papers.now.appointments.now
        papers.now.endings.now papers.now.authorities.now row.now) }
{
    if holder_demands(alloc, demanders, papers.authorities, row)? {
        return Ok(shares(row));
    }
    let holding = Holding::of_row(alloc, row, papers.appointments, papers.endings)?;
    let pieces = holding.pieces(alloc, cutoffs)?;
    Ok(shares_of_demanders(demanders, &holding, pieces.as_slice()))
}

/// How many shares of the row demand it. Where no demander may act for its member, none do, and
/// nothing is looked up.
fn demanding_if_any(
    alloc: Global,
    cutoffs: &Cutoffs,
    papers: &Papers,
    demanders: &BTreeSet<Party>,
    members: &BTreeSet<Party>,
    row: &RegisterRow,
) -> Result<u64, AllocError>
    requires tags { are_tags papers.now.appointments.now ≡ true }
    requires numbered { are_numbered_after [] papers.now.appointments.now ≡ true }
    requires few { row.now.shares ≤ 10 ^ 12 }
    requires members { (member : List ℕ) → is_one_of members.now member
        ≡ some_may_act (is_one_of demanders.now) papers.now.appointments.now
        papers.now.authorities.now member }
    ensures { IfOk result
        (λ shares. shares
        ≡ shares_demanding (is_one_of demanders.now) cutoffs.now papers.now.appointments.now
        papers.now.endings.now papers.now.authorities.now row.now) }
{
    if members.contains(&row.member) {
        demanding(alloc, cutoffs, papers, demanders, row)
    } else {
        Ok(0)
    }
}

/// Counts one row more, of which so many shares demand.
fn add_row(sums: &mut Sums, row: &RegisterRow, demanding: u64)
    requires { FitsRow sums.old row.now demanding }
    ensures { sums.new ≡ with_row sums.old row.now demanding }
{
    if demanding > 0 {
        sums.members += 1;
    }
    sums.shares += demanding;
    sums.paid += demanding * row.paid;
    sums.all_shares += shares(row);
    sums.all_paid += shares(row) * row.paid;
}

/// The sums over the rows, where the demanders may act for these members alone.
fn sums_over(
    alloc: Global,
    cutoffs: &Cutoffs,
    papers: &Papers,
    demanders: &BTreeSet<Party>,
    members: &BTreeSet<Party>,
) -> Result<Sums, AllocError>
    requires tags { are_tags papers.now.appointments.now ≡ true }
    requires numbered { are_numbered_after [] papers.now.appointments.now ≡ true }
    requires rows { are_rows papers.now.register.now ≡ true }
    requires members { (member : List ℕ) → is_one_of members.now member
        ≡ some_may_act (is_one_of demanders.now) papers.now.appointments.now
        papers.now.authorities.now member }
    ensures { IfOk result
        (λ sums. sums
        ≡ sums_by
        (shares_demanding (is_one_of demanders.now) cutoffs.now
        papers.now.appointments.now papers.now.endings.now papers.now.authorities.now)
        papers.now.register.now) }
{
    let mut sums = NOTHING;
    for row in papers.register {
        let demanding = demanding_if_any(alloc, cutoffs, papers, demanders, members, row)?;
        add_row(&mut sums, row, demanding);
    }
    Ok(sums)
}

/// The sums over the rows, where these persons demand it.
fn sums_for(
    alloc: Global,
    cutoffs: &Cutoffs,
    papers: &Papers,
    persons: &[Party],
) -> Result<Sums, AllocError>
    requires tags { are_tags papers.now.appointments.now ≡ true }
    requires numbered { are_numbered_after [] papers.now.appointments.now ≡ true }
    requires rows { are_rows papers.now.register.now ≡ true }
    ensures { IfOk result
        (λ sums. sums
        ≡ sums_by
        (shares_demanding (are_in persons.now) cutoffs.now papers.now.appointments.now
        papers.now.endings.now papers.now.authorities.now)
        papers.now.register.now) }
{
    let demanders = set_of(alloc, persons)?;
    let members = members_of(alloc, papers, persons)?;
    sums_over(alloc, cutoffs, papers, &demanders, &members)
}

/// Whether the shares that demand have at least five holders, or are a tenth of all shares by
/// number or by what is paid up on them.
fn is_enough(sums: &Sums) -> bool
    requires shares { 10 * sums.now.shares < 2 ^ 64 }
    requires paid { 10 * sums.now.paid < 2 ^ 64 }
    ensures { result
        ≡ is_enough sums.now.members sums.now.shares sums.now.paid sums.now.all_shares
        sums.now.all_paid }
{
    sums.shares > 0
        && (sums.members >= 5
            || 10 * sums.shares >= sums.all_shares
            || 10 * sums.paid >= sums.all_paid)
}

/// The demand, in the session of that number, of a poll on a resolution: a share demands it if the
/// individual who holds it, a representative of the corporation that holds it, or the proxy who
/// governs it by these cutoffs has demanded it in this session (sections 321, 323 and 329). Treasury
/// shares are none. The error is want of memory. Where nobody demanded it, it reads no row; else it
/// looks up what those members gave for whom a demander may act.
pub fn demand_reached(
    alloc: Global,
    cutoffs: &Cutoffs,
    papers: &Papers,
    session: u64,
    resolution: u64,
) -> Result<Demand, AllocError>
    requires rows { are_rows papers.now.register.now ≡ true }
    requires tags { are_tags papers.now.appointments.now ≡ true }
    requires numbered { are_numbered_after [] papers.now.appointments.now ≡ true }
    ensures { IfOk result
        (λ demand. demand
        ≡ demand_of cutoffs.now papers.now.register.now papers.now.appointments.now
        papers.now.endings.now papers.now.authorities.now papers.now.demands.now session
        resolution) }
{
    let found = demanders(alloc, papers.demands.as_slice(), session, resolution)?;
    let persons = found.as_slice();
    if persons.is_empty() {
        return Ok(NO_DEMAND);
    }
    let sums = sums_for(alloc, cutoffs, papers, persons)?;
    Ok(Demand {
        members: sums.members,
        shares: sums.shares,
        paid: sums.paid,
        reached: is_enough(&sums),
    })
}
