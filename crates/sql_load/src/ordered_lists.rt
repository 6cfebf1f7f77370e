//! The lists of an office, each put in its order.
ghost use Rattle.std.specs.Prelude.{◌≡◌, ◌≤◌, ◌+◌, Some, None, false, true, length, map, IfOk, IfSome};
ghost use Rattle.seq.specs.Ordered.{ascends_by};
ghost use Rattle.seq.specs.Sorting.{sort_by};
ghost use Rattle.desk_words.specs.SortedLists.{are_resolutions, caller_before, day_before, is_day_list};
ghost use Rattle.desk_words.specs.SortedLists.{is_key_list};
ghost use Rattle.desk_words.specs.Office.{poll_before, are_rows};
ghost use Rattle.desk_words.specs.Registers.{member_before};
ghost use Rattle.sql_model.specs.OfficeRecords.{number_before, whole_meeting};
ghost use Rattle.sql_load.specs.OwnLists.{are_few, at_most, unnumbered, number_from};
ghost use Rattle.sql_load.specs.OwnLists.{numbered_own, resolutions_own, sessions_own};
ghost use Rattle.sql_load.specs.LoadResults.{ReadAgrees};

use crate::fault::LoadError;
use desk_words::limits::{MOST_RESOLUTIONS, MOST_SESSIONS};
use desk_words::{
    Day, DayList, KeyRow, KeyRows, Listing, Meeting, Poll, Register, RegisterRow, Resolution,
    Resolutions, Session,
};
use seq::{ascend, into_order};
use sql_rows::{MeetingRow, Numbered};
use std::alloc::{AllocError, Global};

/// The keys in the order of callers. The fault is `NoOffice` only where they are no such list.
pub fn key_rows(rows: Listing<KeyRow>) -> Result<KeyRows, LoadError>
    ensures { ReadAgrees is_key_list result (Some (sort_by caller_before rows)) }
{
    match KeyRows::new(rows.into_vec()) {
        Ok(rows) => Ok(rows),
        Err(_) => Err(LoadError::NoOffice),
    }
}

/// The days in order, or none where a day stands twice.
fn days_in_order(days: Vec<Day>) -> Option<Vec<Day>>
    ensures some { IfSome result (λ v. v.items ≡ sort_by day_before days.items) }
    ensures ascending { IfSome result (λ v. ascends_by day_before v.items ≡ true) }
    ensures none { result ≡ None
        → ascends_by day_before (sort_by day_before days.items) ≡ false }
{
    let mut days = days;
    days.sort_unstable_by_key(|day| *day);
    if !days.is_sorted_by(|first, second| first.cmp(second).is_lt()) {
        return None;
    }
    Some(days)
}

/// The closed days in order (section 1173). The fault is `NoOffice` only where they are no such list.
pub fn day_list(days: Listing<Day>) -> Result<DayList, LoadError>
    ensures { ReadAgrees is_day_list result (Some (sort_by day_before days)) }
{
    let Some(days) = days_in_order(days.into_vec()) else {
        return Err(LoadError::NoOffice);
    };
    match DayList::new(days) {
        Ok(days) => Ok(days),
        Err(_) => Err(LoadError::NoOffice),
    }
}

/// The rows of a register in the order of members; there may be none. The fault is `NoOffice` only
/// where they are no register.
pub fn register_rows(rows: Listing<RegisterRow>) -> Result<Listing<RegisterRow>, LoadError>
    ensures { ReadAgrees are_rows result (Some (sort_by member_before rows)) }
{
    if rows.is_empty() {
        return Ok(rows);
    }
    match Register::new(rows.into_vec()) {
        Ok(register) => Ok(register.into_listing()),
        Err(_) => Err(LoadError::NoOffice),
    }
}

/// The polls in the order of resolutions. The fault is `NoOffice` only where a poll stands twice.
pub fn poll_list(polls: Listing<Poll>) -> Result<Listing<Poll>, LoadError>
    ensures { ReadAgrees (ascends_by poll_before) result (Some (sort_by poll_before polls)) }
{
    let mut polls = polls.into_vec();
    into_order(&mut polls);
    if !ascend(&polls) {
        return Err(LoadError::NoOffice);
    }
    Ok(Listing::from_vec(polls))
}

/// The things in the order of their numbers, or none where a number stands twice.
fn numbers_in_order<T: Drop>(rows: Vec<Numbered<T>>) -> Option<Vec<Numbered<T>>>
    ensures some { IfSome result (λ v. v.items ≡ sort_by number_before rows.items) }
    ensures none { result ≡ None
        → ascends_by number_before (sort_by number_before rows.items) ≡ false }
{
    let mut rows = rows;
    rows.sort_unstable_by_key(|row| row.number);
    if !rows.is_sorted_by(|first, second| first.number.cmp(&second.number).is_lt()) {
        return None;
    }
    Some(rows)
}

/// Whether the numbers go on from that one.
fn are_numbered<T: Drop>(rows: &[Numbered<T>], from: u64) -> bool
    requires { from + length rows.now ≤ 1000 }
    ensures { result ≡ number_from from rows.now }
{
    let mut wanted = from;
    for row in rows {
        if row.number != wanted {
            return false;
        }
        wanted += 1;
    }
    true
}

/// The things without their numbers. The error is want of memory.
fn without_numbers<T: Drop>(alloc: Global, rows: Vec<Numbered<T>>) -> Result<Vec<T>, AllocError>
    ensures { IfOk result (λ v. v.items ≡ map unnumbered rows.items) }
{
    let mut items = Vec::new(alloc);
    for row in rows {
        items.push(row.item)?;
    }
    Ok(items)
}

/// The things in the order of their numbers, which go on from that one. The fault is `NoOffice`
/// only where they are otherwise numbered, or more than `most`.
fn numbered_list<T: Drop>(
    alloc: Global,
    rows: Listing<Numbered<T>>,
    from: u64,
    most: usize,
) -> Result<Listing<T>, LoadError>
    requires { from + most ≤ 1000 }
    ensures { ReadAgrees (at_most most) result (numbered_own from rows) }
{
    let Some(rows) = numbers_in_order(rows.into_vec()) else {
        return Err(LoadError::NoOffice);
    };
    if rows.len() > most {
        return Err(LoadError::NoOffice);
    }
    if !are_numbered(&rows, from) {
        return Err(LoadError::NoOffice);
    }
    let items = without_numbers(alloc, rows)?;
    Ok(Listing::from_vec(items))
}

/// The further sessions of a meeting, in the order of their numbers, which are 2, 3, .. The fault is
/// `NoOffice` only where they are otherwise numbered, or too many.
pub fn session_list(
    alloc: Global,
    rows: Listing<Numbered<Session>>,
) -> Result<Listing<Session>, LoadError>
    ensures { ReadAgrees are_few result (sessions_own rows) }
{
    numbered_list(alloc, rows, 2, MOST_SESSIONS - 1)
}

/// The resolutions of a meeting, in the order of their numbers, which are 1, 2, .. The fault is
/// `NoOffice` only where they are otherwise numbered, none, or too many.
pub fn resolution_list(
    alloc: Global,
    rows: Listing<Numbered<Resolution>>,
) -> Result<Resolutions, LoadError>
    ensures { ReadAgrees are_resolutions result (resolutions_own rows) }
{
    let resolutions = numbered_list(alloc, rows, 1, MOST_RESOLUTIONS)?;
    match Resolutions::new(resolutions.into_vec()) {
        Ok(resolutions) => Ok(resolutions),
        Err(_) => Err(LoadError::NoOffice),
    }
}

/// A meeting, with its further sessions and its resolutions.
pub fn whole_meeting(row: MeetingRow, later: Listing<Session>, resolutions: Resolutions) -> Meeting
    ensures { result ≡ whole_meeting row later resolutions }
{
    Meeting {
        id: row.id,
        company: row.company,
        kind: row.kind,
        given: row.given,
        first: Session {
            appointed: row.appointed,
            opened: row.opened,
        },
        later,
        record_moment: row.record_moment,
        resolutions,
        loaded: row.loaded,
    }
}
