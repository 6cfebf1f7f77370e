//! What stands in place of a meeting's resolutions where none of them is read.
ghost use Rattle.std.specs.Prelude.{◌≡◌, ℕ, IfSome, MatchResult, true};
ghost use Rattle.party_views.specs.PublicRead.{stand_ins, unread, up_to};
ghost use Rattle.sql_load.specs.declared.fault.LoadError.TheVariants.{Memory};
ghost use Rattle.sql_load.specs.MeetingRecords.{are_on, may_have};

use crate::fault::LoadError;
use desk_words::limits::MOST_RESOLUTIONS;
use desk_words::{Poll, ResKind, Resolution, Resolutions, Text, find_poll};
use std::alloc::Global;

/// The first of so many resolutions up to that of a number, if it is one of them, and else all.
fn up_to(number: u64, count: usize) -> usize
    ensures { result ≡ up_to number count }
{
    if 1 <= number && number <= count as u64 {
        number as usize
    } else {
        count
    }
}

/// How many resolutions stand in place of so many: those up to the one that is asked for, if one is.
pub(crate) fn stand_ins(on: Option<u64>, count: usize) -> usize
    ensures { result ≡ stand_ins on count }
{
    match on {
        Some(number) => up_to(number, count),
        None => 1,
    }
}

/// The resolutions up to that of a number, where a poll on it is ordered: however many there are, it
/// is one of them.
fn up_to_polled(polls: &[Poll], number: u64) -> Option<usize>
    ensures few { IfSome result (λ count. may_have count ≡ true) }
    ensures known { IfSome result (λ count. (all : ℕ) → are_on all polls.now ≡ true
        → count ≡ up_to number all) }
{
    find_poll(polls, number)?;
    if 1 <= number && number <= MOST_RESOLUTIONS as u64 {
        Some(number as usize)
    } else {
        None
    }
}

/// How many resolutions stand in place of a meeting's, where its polls tell. Where they do not, they
/// have to be counted.
pub(crate) fn stand_ins_by_polls(on: Option<u64>, polls: &[Poll]) -> Option<usize>
    ensures few { IfSome result (λ count. may_have count ≡ true) }
    ensures known { IfSome result (λ count. (all : ℕ) → are_on all polls.now ≡ true
        → count ≡ stand_ins on all) }
{
    match on {
        Some(number) => up_to_polled(polls, number),
        None => Some(1),
    }
}

/// A number of resolutions that a meeting may have: this one, if it may have so many.
fn within_limits(count: usize) -> usize
    ensures few { may_have result ≡ true }
    ensures same { may_have count ≡ true → result ≡ count }
{
    if 1 <= count && count <= MOST_RESOLUTIONS {
        count
    } else {
        1
    }
}

/// So many resolutions, none of which is read, if a meeting may have so many. The error is want of
/// memory.
pub(crate) fn unread(alloc: Global, count: usize) -> Result<Resolutions, LoadError>
    ensures { MatchResult result (λ all. may_have count ≡ true → all ≡ unread count)
        (λ fault. fault ≡ Memory) }
{
    let Ok(text) = Text::new(alloc, b"-") else {
        return Err(LoadError::Memory);
    };
    let kind = ResKind::Ordinary;
    let each = Resolution { kind, text };
    match Resolutions::new(vec![in alloc; each; within_limits(count)]?) {
        Ok(resolutions) => Ok(resolutions),
        Err(_) => Err(LoadError::Memory),
    }
}
