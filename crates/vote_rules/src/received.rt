//! What is cast on a resolution, in the order of the members on whose shares it is cast.
ghost use Rattle.std.specs.Prelude.{◌≡◌, ◌≤◌, ℕ, List, Some, None, IfOk, filter, length};
ghost use Rattle.std.specs.BTreeMap.{get};
ghost use Rattle.std.specs.List.{enumerate_from, position_from, position_or_len};
ghost use Rattle.vocabulary.specs.Names.{name_cmp};
ghost use Rattle.vote_rules.specs.InstructedCasts.{AreInMemberOrder, block_on, blocks_on, is_from_member, is_instructed_on, is_on_shares_of, is_past_member, last_instructed};

use desk_words::{Block, CastKind, CastMark, Party};
use std::alloc::{AllocError, Global};
use std::collections::BTreeMap;

/// A block that is cast on the resolution.
#[derive(Clone, Copy, PartialEq, Eq)]
pub(crate) struct BlockCast {
    /// Its place in the order of receipt of all records of the meeting's polls.
    pub(crate) order: usize,
    pub(crate) voter: Party,
    pub(crate) block: Block,
}

/// What is cast on the resolution.
#[derive(Drop)]
pub(crate) struct PollCasts {
    /// The blocks, in the order of the members on whose shares they are cast; those on the shares
    /// of one member stand in order of receipt.
    pub(crate) by_member: Vec<BlockCast>,
    /// For each voter who casts as instructed, the place of the last such record in the order of
    /// receipt.
    pub(crate) instructed: BTreeMap<Party, usize>,
}

/// The block that a record casts on the resolution, if it does.
fn block_on(order: usize, cast: &CastMark, resolution: u64) -> Option<BlockCast>
    ensures { result ≡ block_on resolution (order, cast.now) }
{
    match cast.what {
        CastKind::Block(block) if cast.resolution == resolution => Some(BlockCast {
            order,
            voter: cast.voter,
            block,
        }),
        _ => None,
    }
}

/// Whether the record casts on the resolution as instructed.
fn is_instructed_on(cast: &CastMark, resolution: u64) -> bool
    ensures { result ≡ is_instructed_on resolution cast.now }
{
    match cast.what {
        CastKind::Block(_) => false,
        CastKind::AsInstructed => cast.resolution == resolution,
    }
}

/// The blocks that are cast on the resolution, in order of receipt.
fn blocks_on(
    alloc: Global,
    casts: &[CastMark],
    resolution: u64,
) -> Result<Vec<BlockCast>, AllocError>
    ensures { IfOk result (λ blocks. blocks.items ≡ blocks_on resolution casts.now) }
{
    let mut blocks = Vec::new(alloc);
    for (order, cast) in casts.iter().enumerate() {
        if let Some(block) = block_on(order, cast, resolution) {
            blocks.push(block)?;
        }
    }
    Ok(blocks)
}

/// The blocks that are cast on the resolution, in the order of the members on whose shares they
/// are cast. Where they were received in that order, none is moved.
fn blocks_by_member(
    alloc: Global,
    casts: &[CastMark],
    resolution: u64,
) -> Result<Vec<BlockCast>, AllocError>
    ensures order { IfOk result (λ blocks. AreInMemberOrder blocks.items) }
    ensures preserved { IfOk result
        (λ blocks. (member : List ℕ)
        → filter (is_on_shares_of member) blocks.items
        ≡ filter (is_on_shares_of member) (blocks_on resolution casts.now)) }
{
    let mut blocks = blocks_on(alloc, casts, resolution)?;
    blocks.sort_by_key(|cast| cast.block.member)?;
    Ok(blocks)
}

/// Where each voter last casts on the resolution as instructed.
fn last_instructed(
    alloc: Global,
    casts: &[CastMark],
    resolution: u64,
) -> Result<BTreeMap<Party, usize>, AllocError>
    ensures { IfOk result
        (λ last. (voter : List ℕ)
        → get name_cmp last voter ≡ last_instructed resolution casts.now voter) }
{
    let mut last = BTreeMap::new(alloc);
    for (order, cast) in casts.iter().enumerate() {
        if is_instructed_on(cast, resolution) {
            last.insert(cast.voter, order)?;
        }
    }
    Ok(last)
}

impl PollCasts {
    /// What is cast on the resolution: the records are walked twice, whatever they name, and the
    /// blocks are sorted. The error is want of memory.
    pub(crate) fn on(
        alloc: Global,
        casts: &[CastMark],
        resolution: u64,
    ) -> Result<PollCasts, AllocError>
        ensures order { IfOk result (λ on. AreInMemberOrder on.by_member.items) }
        ensures blocks { IfOk result
            (λ on. (member : List ℕ)
            → filter (is_on_shares_of member) on.by_member.items
            ≡ filter (is_on_shares_of member) (blocks_on resolution casts.now)) }
        ensures instructed { IfOk result
            (λ on. (voter : List ℕ)
            → get name_cmp on.instructed voter ≡ last_instructed resolution casts.now voter) }
    {
        Ok(PollCasts {
            by_member: blocks_by_member(alloc, casts, resolution)?,
            instructed: last_instructed(alloc, casts, resolution)?,
        })
    }
}

/// Where the first block stands that is not on the shares of a member before this one.
fn first_from(blocks: &[BlockCast], member: Party) -> Option<usize>
    ensures { result ≡ position_from (is_from_member member) 0 blocks.now }
{
    blocks
        .iter()
        .position(|cast| !cast.block.member.cmp(&member).is_lt())
}

/// Where the first block stands that is on the shares of a member after this one.
fn first_past(blocks: &[BlockCast], member: Party) -> Option<usize>
    ensures { result ≡ position_from (is_past_member member) 0 blocks.now }
{
    blocks
        .iter()
        .position(|cast| member.cmp(&cast.block.member).is_lt())
}

/// How many blocks stand before the first that is not on the shares of a member before this one.
fn count_before(blocks: &[BlockCast], member: Party) -> usize
    ensures count { result ≡ position_or_len (is_from_member member) blocks.now }
    ensures bound { result ≤ length blocks.now }
{
    match first_from(blocks, member) {
        Some(place) => place,
        None => blocks.len(),
    }
}

/// How many blocks stand before the first that is on the shares of a member after this one.
fn count_to(blocks: &[BlockCast], member: Party) -> usize
    ensures count { result ≡ position_or_len (is_past_member member) blocks.now }
    ensures bound { result ≤ length blocks.now }
{
    match first_past(blocks, member) {
        Some(place) => place,
        None => blocks.len(),
    }
}

/// Of blocks in the order of the members on whose shares they are cast, those on the shares of
/// this member, and those on the shares of members who come after it.
pub(crate) fn parted_at(blocks: &[BlockCast], member: Party) -> (&[BlockCast], &[BlockCast])
    requires { AreInMemberOrder blocks.now }
    ensures own { result.0.now ≡ filter (is_on_shares_of member) blocks.now }
    ensures later { result.1.now ≡ filter (is_past_member member) blocks.now }
{
    let (_, from) = blocks.split_at(count_before(blocks, member));
    from.split_at(count_to(from, member))
}
