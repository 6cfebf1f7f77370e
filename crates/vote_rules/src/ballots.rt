//! The valid vote of a place, by the casts of each voter who may vote for it.
ghost use Rattle.std.specs.Prelude.{◌≡◌, ℕ, IfOk, None, Some, true, false, map, filter, nat_lt};
ghost use Rattle.std.specs.BTreeMap.{get};
ghost use Rattle.std.specs.List.Sorted.{IsPartitionPoint};
ghost use Rattle.vocabulary.specs.Names.{name_cmp};
ghost use Rattle.vocabulary.specs.declared.kinds.Capacity.TheVariants.{Proxy};
ghost use Rattle.desk_words.specs.declared.records.Appointment.{Appointment};
ghost use Rattle.proxy_rules.specs.declared.pieces.GovernedPiece.{GovernedPiece};
ghost use Rattle.vote_rules.specs.Ballots.{AreInOrder, capacity_for, governing_at, joined_way, piece_at, vote_by, vote_by_governing, vote_by_proxy, vote_if, voters_for, ways_at};
ghost use Rattle.vote_rules.specs.VoteCovers.{vote_pieces, way_at};
ghost use Rattle.proxy_rules.specs.Instructions.{same_way};
ghost use Rattle.vote_rules.specs.Votes.{common_way};

use crate::covers::{pieces_by, way_at};
use crate::received::BlockCast;
use desk_words::{Appointment, Authority, Capacity, Filed, HolderKind, Party, RegisterRow, Way};
use proxy_rules::{GovernedPiece, allows, authorised_by, instructed_on};
use share_blocks::Blocks;
use std::alloc::{AllocError, Global};
use std::collections::BTreeMap;

/// What is cast on the shares of one row by those who may vote for them.
#[derive(Drop)]
pub(crate) struct Ballots<B: Blocks> {
    /// The casts of the individual who holds the row, or of each representative of the corporation
    /// that does.
    pub(crate) holders: Vec<B>,
    /// The casts of the proxy of each of the member's appointments, in the order of these.
    pub(crate) proxies: Vec<B>,
}

/// Those who vote for the holder of the row: the individual itself, or the representatives of the
/// corporation. For treasury shares nobody does.
fn voters_for(
    alloc: Global,
    authorities: &Filed<Authority>,
    row: &RegisterRow,
) -> Result<Vec<Party>, AllocError>
    ensures { IfOk result
        (λ voters. voters.items ≡ voters_for authorities.now row.now.kind row.now.member) }
{
    match row.kind {
        HolderKind::Individual => Ok(vec![in alloc; row.member]?),
        HolderKind::Corporation => authorised_by(alloc, authorities, row.member),
        HolderKind::Treasury => Ok(Vec::new(alloc)),
    }
}

/// The capacity in which they vote.
fn capacity_for(kind: HolderKind) -> Capacity
    ensures { result ≡ capacity_for kind }
{
    match kind {
        HolderKind::Individual | HolderKind::Treasury => Capacity::Member,
        HolderKind::Corporation => Capacity::Rep,
    }
}

/// The proxies whom the appointments name, one for each.
fn proxies_of(alloc: Global, appointed: &[Appointment]) -> Result<Vec<Party>, AllocError>
    ensures { IfOk result
        (λ proxies. proxies.items ≡ map (λ (a : Appointment). a.proxy) appointed.now) }
{
    appointed
        .iter()
        .map(|appointment| appointment.proxy)
        .collect(alloc)
}

/// What the casts of each of these voters leave of the places of a member's shares.
fn pieces_by_each<B: Blocks>(
    alloc: Global,
    casts: &[BlockCast],
    instructed: &BTreeMap<Party, usize>,
    capacity: Capacity,
    voters: &[Party],
) -> Result<Vec<B>, AllocError>
    ensures { IfOk result
        (λ each. map B.pieces each.items
        ≡ map (vote_pieces casts.now (get name_cmp instructed.now) capacity) voters.now) }
{
    let mut each = Vec::with_capacity(alloc, voters.len())?;
    for voter in voters {
        let blocks = pieces_by(alloc, casts, instructed, capacity, *voter)?;
        each.push(blocks)?;
    }
    Ok(each)
}

impl<B: Blocks> Ballots<B> {
    /// What is cast on the shares of a row, of whose member these are the appointments; the casts
    /// are the blocks that are cast on its shares. The error is want of memory.
    pub(crate) fn of_row(
        alloc: Global,
        casts: &[BlockCast],
        instructed: &BTreeMap<Party, usize>,
        authorities: &Filed<Authority>,
        appointed: &[Appointment],
        row: &RegisterRow,
    ) -> Result<Ballots<B>, AllocError>
        ensures holders { IfOk result
            (λ ballots. map B.pieces ballots.holders.items
            ≡ map
            (vote_pieces casts.now (get name_cmp instructed.now) (capacity_for row.now.kind))
            (voters_for authorities.now row.now.kind row.now.member)) }
        ensures proxies { IfOk result
            (λ ballots. map B.pieces ballots.proxies.items
            ≡ map (vote_pieces casts.now (get name_cmp instructed.now) Proxy)
            (map (λ (a : Appointment). a.proxy) appointed.now)) }
    {
        let voters = voters_for(alloc, authorities, row)?;
        let proxies = proxies_of(alloc, appointed)?;
        let capacity = capacity_for(row.kind);
        Ok(Ballots {
            holders: pieces_by_each(alloc, casts, instructed, capacity, voters.as_slice())?,
            proxies: pieces_by_each(
                alloc,
                casts,
                instructed,
                Capacity::Proxy,
                proxies.as_slice(),
            )?,
        })
    }
}

/// The way, if a proxy who is so instructed, or free, may vote it.
fn vote_if(wanted: Option<Way>, way: Way) -> Option<Way>
    ensures { result ≡ vote_if wanted way }
{
    if allows(wanted, way) { Some(way) } else { None }
}

/// The vote by the proxy of an appointment, by what its casts leave.
fn vote_by_proxy<B: Blocks>(
    blocks: &B,
    appointment: &Appointment,
    resolution: u64,
    place: u64,
) -> Option<Way>
    ensures { result ≡ vote_by_proxy resolution place appointment.now (B.pieces blocks.now) }
{
    let wanted = instructed_on(appointment.instructions.as_slice(), resolution);
    let way = way_at(blocks, place, wanted)?;
    vote_if(wanted, way)
}

/// The vote by the proxy of the appointment that stands there among the member's.
fn vote_by_governing<B: Blocks>(
    proxies: &[B],
    appointed: &[Appointment],
    by: Option<usize>,
    resolution: u64,
    place: u64,
) -> Option<Way>
    ensures { result
        ≡ vote_by_governing resolution place appointed.now (map B.pieces proxies.now) by }
{
    let at = by?;
    let appointment = appointed.get(at)?;
    let blocks = proxies.get(at)?;
    vote_by_proxy(blocks, appointment, resolution, place)
}

/// Whether both are the same way.
fn same_way(way: Way, other: Way) -> bool
    ensures { result ≡ same_way way other }
{
    way == other
}

/// The common way of casts and of one more.
fn joined_way(common: Option<Option<Way>>, way: Way) -> Option<Way>
    ensures { result ≡ joined_way common way }
{
    match common {
        None => Some(way),
        Some(Some(first)) if same_way(first, way) => Some(first),
        Some(_) => None,
    }
}

/// The common way in which the holder's voters cast on the place, where any of them does. Casts that
/// differ are no vote.
fn common_way<B: Blocks>(holders: &[B], place: u64) -> Option<Option<Way>>
    ensures { result ≡ common_way (ways_at (map B.pieces holders.now) place) }
{
    let mut common = None;
    for blocks in holders {
        if let Some(way) = way_at(blocks, place, None) {
            common = Some(joined_way(common, way));
        }
    }
    common
}

/// Where the first of the pieces stands that ends at the place or behind it, or how many there are.
fn first_that_reaches(governed: &[GovernedPiece], place: u64) -> usize
    requires { AreInOrder governed.now }
    ensures { IsPartitionPoint (λ (piece : GovernedPiece). nat_lt piece.range.to place ≡ true)
        (λ (piece : GovernedPiece). nat_lt piece.range.to place ≡ false) governed.now result }
{
    governed.partition_point(|piece| piece.range.to() < place)
}

/// The piece that holds the place, found by halves.
fn piece_at(governed: &[GovernedPiece], place: u64) -> Option<GovernedPiece>
    requires { AreInOrder governed.now }
    ensures { result ≡ piece_at governed.now place }
{
    let piece = *governed.get(first_that_reaches(governed, place))?;
    if piece.range.has(place) {
        Some(piece)
    } else {
        None
    }
}

/// Where the appointment stands that governs the place.
pub(crate) fn governing_at(governed: &[GovernedPiece], place: u64) -> Option<usize>
    requires { AreInOrder governed.now }
    ensures { result ≡ governing_at governed.now place }
{
    piece_at(governed, place)?.by
}

/// The valid vote of a place: that of the holder's voters, where any of them has a cast on it, and
/// else that of the proxy whose appointment stands there.
pub(crate) fn vote_by<B: Blocks>(
    ballots: &Ballots<B>,
    appointed: &[Appointment],
    by: Option<usize>,
    resolution: u64,
    place: u64,
) -> Option<Way>
    ensures { result
        ≡ vote_by (map B.pieces ballots.now.holders.items)
        (map B.pieces ballots.now.proxies.items) appointed.now by resolution place }
{
    match common_way(ballots.holders.as_slice(), place) {
        Some(vote) => vote,
        None => vote_by_governing(ballots.proxies.as_slice(), appointed, by, resolution, place),
    }
}
