//! The places of a holding in pieces, each of which one appointment governs, or none.
ghost use Rattle.std.specs.Prelude.{◌≡◌, ◌-◌, ℕ, IsTrue, IfOk, option_map};
ghost use Rattle.std.specs.FinSet as set;
ghost use Rattle.std.specs.List.{filter_map, list_any};
ghost use Rattle.std.specs.Option.{option_copied};
ghost use Rattle.proxy_rules.specs.Governing.{ends};
ghost use Rattle.proxy_rules.specs.Holdings.{IsValidHolding};
ghost use Rattle.proxy_rules.specs.Tagging.{cover_by, covers_by, held_of, piece_over, tag_ended, tag_over};
ghost use Rattle.proxy_rules.specs.Tiles.{ArePieces, governing_of};
ghost use Rattle.share_blocks.specs.Pieces.{ranges_of};
ghost use Rattle.share_blocks.specs.Tags.{is_tag};

use crate::holdings::Holding;
use crate::meeting_records::Cutoffs;
use desk_words::{Appointment, Ending, Range};
use share_blocks::{Admitted, Blocks, PlainBlocks, Tag};
use std::alloc::{AllocError, Global};

/// Some of a member's shares, which one of its appointments governs, or none.
#[derive(Clone, Copy, PartialEq, Eq)]
pub struct GovernedPiece {
    /// The places of the shares.
    pub range: Range,
    /// Where the appointment that governs them stands among the holding's, counted from 0; none
    /// where no appointment does.
    pub by: Option<usize>,
}

/// The range of an appointment that counts, under the tag of its number.
fn cover_by(cutoffs: &Cutoffs, appointment: &Appointment) -> Option<(Range, Tag)>
    ensures { result ≡ cover_by cutoffs.now appointment.now }
{
    if appointment.moment <= cutoffs.appointments {
        Some((appointment.range, Tag::new(appointment.number)?))
    } else {
        None
    }
}

/// The covers of the appointments that count, in order of receipt.
fn covers_by(
    alloc: Global,
    cutoffs: &Cutoffs,
    appointed: &[Appointment],
) -> Result<Vec<(Range, Tag)>, AllocError>
    ensures { IfOk result (λ covers. covers.items ≡ covers_by cutoffs.now appointed.now) }
{
    appointed
        .iter()
        .filter_map(|appointment| cover_by(cutoffs, appointment))
        .collect(alloc)
}

/// The tag of the number that an ending names, in time to count.
fn tag_ended(cutoffs: &Cutoffs, ending: &Ending) -> Option<Tag>
    ensures { result ≡ tag_ended cutoffs.now ending.now }
{
    if ending.moment < cutoffs.endings {
        Tag::new(ending.number)
    } else {
        None
    }
}

/// The numbers that counted endings name.
pub(crate) fn ended_numbers(cutoffs: &Cutoffs, ended: &[Ending]) -> Admitted
    ensures { (tag : ℕ) → IsTrue (is_tag tag)
        → set.contains result tag ≡ list_any (ends cutoffs.now tag) ended.now }
{
    let mut numbers = Admitted::none();
    for ending in ended {
        if let Some(tag) = tag_ended(cutoffs, ending) {
            numbers.admit(tag);
        }
    }
    numbers
}

/// What of a range of places a holding of so many shares has, or none where the range lies past it.
pub fn held(range: Range, shares: u64) -> Option<Range>
    ensures { result ≡ held_of shares range }
{
    Range::new(range.from(), shares.min(range.to()))
}

/// The newest admitted tag of a place, unless it is ended.
pub(crate) fn tag_over<B: Blocks>(
    blocks: &B,
    place: u64,
    admitted: &Admitted,
    ended: &Admitted,
) -> Option<Tag>
    ensures { result
        ≡ tag_over (set.contains admitted.now) (set.contains ended.now) (B.pieces blocks.now)
        place }
{
    let tag = blocks.first_where(place, admitted)?;
    if ended.has(tag) { None } else { Some(tag) }
}

/// Where the appointment of a tag stands among those that are numbered 1, 2, ..
fn index_of(tag: Option<Tag>) -> Option<usize>
    ensures { result ≡ option_map (λ number. number - 1) tag }
{
    Some(tag?.number() as usize - 1)
}

/// What of a range a holding of so many shares has, by the newest tag of its first place.
fn piece_over<B: Blocks>(
    blocks: &B,
    admitted: &Admitted,
    ended: &Admitted,
    shares: u64,
    range: Range,
) -> Option<GovernedPiece>
    ensures { result
        ≡ piece_over (set.contains admitted.now) (set.contains ended.now) (B.pieces blocks.now)
        shares range }
{
    let held = held(range, shares)?;
    let tag = tag_over(blocks, range.from(), admitted, ended);
    Some(GovernedPiece {
        range: held,
        by: index_of(tag),
    })
}

/// The pieces of a holding of so many shares.
fn pieces_of<B: Blocks>(
    alloc: Global,
    blocks: &B,
    admitted: &Admitted,
    ended: &Admitted,
    shares: u64,
) -> Result<Vec<GovernedPiece>, AllocError>
    ensures { IfOk result
        (λ pieces. pieces.items
        ≡ filter_map
        (piece_over (set.contains admitted.now) (set.contains ended.now)
        (B.pieces blocks.now) shares)
        (ranges_of (B.pieces blocks.now))) }
{
    let ranges = blocks.pieces()?;
    ranges
        .iter()
        .filter_map(|range| piece_over(blocks, admitted, ended, shares, *range))
        .collect(alloc)
}

impl Holding {
    /// The shares of the holding in pieces, in order and without gaps, each with the appointment
    /// that governs all of it, or none (sections 324, 327 and 330). The holding is one that an
    /// office keeps. The error is want of memory.
    ///
    /// Its cost does not grow with the shares. For n appointments it is n log n where each lies
    /// around all before, and at most the square of n, which is 256 at most.
    pub fn pieces(&self, alloc: Global, cutoffs: &Cutoffs) -> Result<Vec<GovernedPiece>, AllocError>
        requires { IsValidHolding self.now }
        ensures { IfOk result (λ pieces. ArePieces cutoffs.now self.now pieces.items) }
    {
        self.pieces_by::<PlainBlocks>(alloc, cutoffs)
    }

    /// The same, found over blocks of the kind that is asked for. The error is want of memory.
    pub fn pieces_by<B: Blocks>(
        &self,
        alloc: Global,
        cutoffs: &Cutoffs,
    ) -> Result<Vec<GovernedPiece>, AllocError>
        requires { IsValidHolding self.now }
        ensures { IfOk result (λ pieces. ArePieces cutoffs.now self.now pieces.items) }
    {
        let covers = covers_by(alloc, cutoffs, self.appointed.as_slice())?;
        let blocks: B = share_blocks::run(alloc, covers.as_slice())?;
        let ended = ended_numbers(cutoffs, self.ended.as_slice());
        pieces_of(alloc, &blocks, &Admitted::all(), &ended, self.shares)
    }

    /// The appointment that governs a piece. It takes no memory.
    pub fn appointment(&self, piece: &GovernedPiece) -> Option<&Appointment>
        ensures { option_copied result ≡ governing_of self.now piece.now }
    {
        self.appointed.as_slice().get(piece.by?)
    }
}
