//! The shares that one appointment governs: those of its places that none takes which was received
//! after it.
ghost use Rattle.std.specs.Prelude.{◌≡◌, ◌+◌, ◌<◌, ◌≤◌, ◌⊎◌, ℕ, None, false, true, find, IfOk, IfSome, length};
ghost use Rattle.std.specs.List.{list_any};
ghost use Rattle.std.specs.Option.{option_copied};
ghost use Rattle.proxy_rules.specs.Alone.{holding_from, is_left, is_taken};
ghost use Rattle.proxy_rules.specs.Governing.{ends, governed_in, is_over};
ghost use Rattle.proxy_rules.specs.Holdings.{IsValidHolding};
ghost use Rattle.proxy_rules.specs.GoverningLaws.{has_number};
ghost use Rattle.proxy_rules.specs.PlaceRuns.{runs_that};

use crate::claims::{Claim, Claims};
use crate::governor::ends;
use crate::meeting_records::Cutoffs;
use crate::runs::join_run;
use desk_words::{Ending, Range};
use std::alloc::{AllocError, Global};

/// An appointment that takes the place.
fn taker<'a>(later: &'a [Claim], cutoffs: &Cutoffs, place: u64) -> Option<&'a Claim>
    ensures { option_copied result ≡ find (is_over cutoffs.now place) later.now }
{
    later
        .iter()
        .find(|appointment| appointment.is_over(cutoffs, place))
}

/// The last place of an appointment that takes the place.
fn taken_to(later: &[Claim], cutoffs: &Cutoffs, place: u64) -> Option<u64>
    ensures some { IfSome result (λ to. (place ≤ to) × ((other : ℕ) → place ≤ other → other ≤ to
        → is_taken cutoffs.now later.now other ≡ true)) }
    ensures none { result ≡ None → is_taken cutoffs.now later.now place ≡ false }
{
    match taker(later, cutoffs, place) {
        Some(appointment) => Some(appointment.range().to()),
        None => None,
    }
}

/// The last place, up to an end, before an appointment begins that counts and is not over the
/// place.
fn free_before(appointment: &Claim, cutoffs: &Cutoffs, place: u64, end: u64) -> u64
    requires order { place ≤ end }
    requires free { is_over cutoffs.now place appointment.now ≡ false }
    ensures within { (place ≤ result) × (result ≤ end) }
    ensures free { (other : ℕ) → place ≤ other → other ≤ result
        → is_over cutoffs.now other appointment.now ≡ false }
{
    let from = appointment.range().from();
    if appointment.counts(cutoffs) && place < from && from <= end {
        from - 1
    } else {
        end
    }
}

/// The last place, up to an end, before the first of the appointments begins that count, where none
/// takes the place.
fn free_to(later: &[Claim], cutoffs: &Cutoffs, place: u64, last: u64) -> u64
    requires order { place ≤ last }
    requires free { is_taken cutoffs.now later.now place ≡ false }
    ensures within { (place ≤ result) × (result ≤ last) }
    ensures free { (other : ℕ) → place ≤ other → other ≤ result
        → is_taken cutoffs.now later.now other ≡ false }
{
    let mut end = last;
    for appointment in later {
        end = free_before(appointment, cutoffs, place, end);
    }
    end
}

/// The runs of the places of a range that none of the later appointments takes.
fn runs_left(
    alloc: Global,
    cutoffs: &Cutoffs,
    range: Range,
    later: &[Claim],
) -> Result<Vec<Range>, AllocError>
    ensures { IfOk result
        (λ runs. runs.items ≡ runs_that (is_left cutoffs.now later.now range) range.to) }
{
    let mut runs = Vec::new(alloc);
    let mut next = range.from();
    while next <= range.to() {
        match taken_to(later, cutoffs, next) {
            Some(to) => next = to.min(range.to()) + 1,
            None => {
                let end = free_to(later, cutoffs, next, range.to());
                join_run(&mut runs, Range::with_ends(next, end))?;
                next = end + 1;
            }
        }
    }
    Ok(runs)
}

/// Whether one of the endings names the number, in time to count.
fn is_ended(ended: &[Ending], cutoffs: &Cutoffs, number: u64) -> bool
    ensures { result ≡ list_any (ends cutoffs.now number) ended.now }
{
    ended.iter().any(|ending| ends(ending, cutoffs, number))
}

/// The runs of what an appointment governs of so many shares, where those that were received after
/// it have other numbers.
fn runs_of(
    alloc: Global,
    cutoffs: &Cutoffs,
    shares: u64,
    appointment: &Claim,
    later: &[Claim],
    ended: &[Ending],
) -> Result<Vec<Range>, AllocError>
    requires { list_any (has_number appointment.now.number) later.now ≡ false }
    ensures { IfOk result (λ runs. runs.items
        ≡ governed_in cutoffs.now (holding_from shares appointment.now later.now ended.now)
        appointment.now.number) }
{
    let from = appointment.range().from();
    let last = shares.min(appointment.range().to());
    let ended = is_ended(ended, cutoffs, appointment.number());
    if last < from || ended || !appointment.counts(cutoffs) {
        return Ok(Vec::new(alloc));
    }
    runs_left(alloc, cutoffs, Range::with_ends(from, last), later)
}

/// Where the appointment of a number stands among those that are numbered 1, 2, ..
fn place_of(appointed: &[Claim], number: u64) -> Option<usize>
    ensures some { IfSome result (λ place. (place + 1 ≡ number) × (place < length appointed.now)) }
    ensures none { result ≡ None → (number ≡ 0) ⊎ (length appointed.now < number) }
{
    if 1 <= number && number <= appointed.len() as u64 {
        Some(number as usize - 1)
    } else {
        None
    }
}

impl Claims {
    /// The shares that its appointment of that number governs: their places in runs in order, with
    /// a gap between each and the next, and none where it has none of that number (sections 324 and
    /// 330). The holding is one that an office keeps. The error is want of memory. It goes over the
    /// appointments that were received after that one, once for each gap that they leave.
    pub fn governed_by(
        &self,
        alloc: Global,
        cutoffs: &Cutoffs,
        number: u64,
    ) -> Result<Vec<Range>, AllocError>
        requires { IsValidHolding self.now }
        ensures { IfOk result (λ runs. runs.items ≡ governed_in cutoffs.now self.now number) }
    {
        let appointed = self.appointed();
        match place_of(appointed, number) {
            Some(place) => {
                let later = &appointed[place + 1..];
                let ended = self.ended();
                runs_of(
                    alloc,
                    cutoffs,
                    self.shares(),
                    &appointed[place],
                    later,
                    ended,
                )
            }
            None => Ok(Vec::new(alloc)),
        }
    }
}
