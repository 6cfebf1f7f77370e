//! Whether the tables hold an office. The lists of one meeting are read, judged and dropped after
//! those of another, and the votes on one of its polls after those on another, so that it takes the
//! memory of the fullest.
ghost use Rattle.std.specs.Prelude.{◌≡◌, ◌==◌, MatchResult, count_by, nat_le};
ghost use Rattle.std.specs.List.{list_all};
ghost use Rattle.vocabulary.specs.OptionSteps.{guard};
ghost use Rattle.seq.specs.Ordered.{differ_by};
ghost use Rattle.sql_load.specs.LoadResults.{any_at_all};
ghost use Rattle.sql_load.specs.declared.fault.LoadError.TheVariants.{Memory};
ghost use Rattle.sql_open.specs.Judging.{IsJudged, are_meeting_rows, judged_as, judged_but_votes, judged_days};
ghost use Rattle.sql_open.specs.Judging.{judged_in, judged_keys, judged_lists, judged_meetings, judged_office};
ghost use Rattle.sql_open.specs.Judging.{rows_judged, same_meeting_row};
ghost use Rattle.sql_open.specs.StoredRows.{rows_but_votes, stored_rows};
ghost use Rattle.sql_load.specs.WholeReading.{IsReading};
ghost use Rattle.sql_rows.specs.declared.stored_records.MeetingRow.{MeetingRow};

use crate::emptied::read_left;
use crate::meeting_lists::read_but_votes;
use crate::office::{days_of, keys_of};
use crate::stored_rows::{added, stored_rows};
use crate::votes::judge_votes;
use desk_words::limits::MOST_MEETINGS;
use desk_words::{Listing, MeetingLists, Poll};
use office_validation::meeting_checked;
use sql_desk_tables::meetings::Meetings;
use sql_load::{LoadError, listing};
use sql_rows::MeetingRow;
use sqlite::{Alter, Transaction};
use std::alloc::Global;

/// Judges whether the keys are such a list. The fault is `NoOffice` only where they are none.
fn judge_keys<S: Alter>(tx: &mut Transaction<'_, S>, alloc: Global) -> Result<(), LoadError>
    ensures same_reference { tx.new.conn.ghost_name ≡ tx.old.conn.ghost_name }
    ensures read { IsReading S.Store tx.old.conn.now tx.new.conn.now any_at_all result judged_keys }
{
    let keys = keys_of(tx, alloc)?;
    // This opens the value, so that what its type keeps is known.
    let _ = keys.as_slice();
    Ok(())
}

/// Judges whether the closed days are such a list. The fault is `NoOffice` only where they are none.
fn judge_days<S: Alter>(tx: &mut Transaction<'_, S>, alloc: Global) -> Result<(), LoadError>
    ensures same_reference { tx.new.conn.ghost_name ≡ tx.old.conn.ghost_name }
    ensures read { IsReading S.Store tx.old.conn.now tx.new.conn.now any_at_all result judged_days }
{
    let days = days_of(tx, alloc)?;
    // This opens the value, so that what its type keeps is known.
    let _ = days.as_slice();
    Ok(())
}

/// Whether a meeting's name is that of one meeting at most.
fn is_named_once(rows: &[MeetingRow], row: &MeetingRow) -> bool
    ensures { result ≡ nat_le (count_by (λ (m : MeetingRow). same_meeting_row m row.now) rows.now) 1 }
{
    let name = row.id;
    rows.iter().filter(|other| other.id == name).count() <= 1
}

fn are_named_once(rows: &[MeetingRow]) -> bool
    ensures { result ≡ list_all (λ (row : MeetingRow). nat_le (count_by
        (λ (m : MeetingRow). same_meeting_row m row) rows.now) 1) rows.now }
{
    rows.iter().all(|row| is_named_once(rows, row))
}

/// Whether no two meetings have one name.
fn names_differ(rows: &[MeetingRow]) -> bool
    ensures { result ≡ differ_by same_meeting_row rows.now }
{
    are_named_once(rows)
}

/// Whether there are `MOST_MEETINGS` at most, each with a name of its own.
fn are_meeting_rows(rows: &[MeetingRow]) -> bool
    ensures { result ≡ are_meeting_rows rows.now }
{
    rows.len() <= MOST_MEETINGS && names_differ(rows)
}

/// The rows of the meetings. The fault is `NoOffice` only where one means nothing, two have one name,
/// or they are more than `MOST_MEETINGS`.
fn read_rows<S: Alter>(
    tx: &mut Transaction<'_, S>,
    alloc: Global,
) -> Result<Listing<MeetingRow>, LoadError>
    ensures same_reference { tx.new.conn.ghost_name ≡ tx.old.conn.ghost_name }
    ensures read { IsReading S.Store tx.old.conn.now tx.new.conn.now any_at_all result rows_judged }
{
    let rows = listing::<Meetings, S>(tx, alloc)?;
    if !are_meeting_rows(rows.as_slice()) {
        return Err(LoadError::NoOffice);
    }
    Ok(rows)
}

/// How many rows of the tables a meeting's lists are, but its votes. The fault is `Memory`.
fn rows_but_votes(m: &MeetingLists) -> Result<usize, LoadError>
    ensures { MatchResult result (λ count. count ≡ rows_but_votes m.now)
        (λ fault. fault ≡ Memory) }
{
    let count = added(
        m.meeting.later.len(),
        m.meeting.resolutions.as_slice().len(),
    )?;
    let count = added(count, m.register.len())?;
    let count = added(count, m.appointments.as_slice().len())?;
    let count = added(count, m.endings.as_slice().len())?;
    let count = added(count, m.authorities.as_slice().len())?;
    let count = added(count, m.presences.as_slice().len())?;
    let count = added(count, m.demands.as_slice().len())?;
    added(count, m.polls.len())
}

/// What is judged of a meeting before its votes: how many rows its lists are, and its polls.
#[derive(Drop)]
struct Judged {
    rows: usize,
    polls: Listing<Poll>,
}

/// What is judged of lists that are a meeting's. The fault is `Memory`.
fn judged_as(lists: MeetingLists) -> Result<Judged, LoadError>
    ensures { MatchResult result (λ its. its ≡ judged_as lists) (λ fault. fault ≡ Memory) }
{
    let rows = rows_but_votes(&lists)?;
    Ok(Judged {
        rows,
        polls: lists.polls,
    })
}

/// Judges the lists of a meeting but its votes, and gives how many rows they are, and the polls. The
/// fault is `NoOffice` only where they are none.
fn judge_but_votes<S: Alter>(
    tx: &mut Transaction<'_, S>,
    alloc: Global,
    row: MeetingRow,
) -> Result<Judged, LoadError>
    ensures same_reference { tx.new.conn.ghost_name ≡ tx.old.conn.ghost_name }
    ensures read { IsReading S.Store tx.old.conn.now tx.new.conn.now any_at_all result
        (judged_but_votes row) }
{
    let lists = read_but_votes(tx, alloc, row)?;
    let Some(checked) = meeting_checked(alloc, lists) else {
        return Err(LoadError::NoOffice);
    };
    judged_as(checked)
}

/// Judges a meeting, the votes on one of its polls after those on another, and gives how many rows it
/// has. The fault is `NoOffice` only where they are no meeting's.
fn judge_meeting<S: Alter>(
    tx: &mut Transaction<'_, S>,
    alloc: Global,
    row: MeetingRow,
) -> Result<usize, LoadError>
    ensures same_reference { tx.new.conn.ghost_name ≡ tx.old.conn.ghost_name }
    ensures read { IsReading S.Store tx.old.conn.now tx.new.conn.now any_at_all result
        (judged_in row) }
{
    let meeting = row.id;
    let judged = judge_but_votes(tx, alloc, row)?;
    let mut count = judged.rows;
    let polls = judged.polls.as_slice();
    for poll in polls {
        let votes = judge_votes(tx, alloc, meeting, *poll)?;
        count = added(count, votes)?;
    }
    Ok(count)
}

/// Judges the meetings, one after the other, and gives how many rows their lists are. The fault is
/// `NoOffice` only where they are not those of an office.
fn judge_each<S: Alter>(tx: &mut Transaction<'_, S>, alloc: Global) -> Result<usize, LoadError>
    ensures same_reference { tx.new.conn.ghost_name ≡ tx.old.conn.ghost_name }
    ensures read { IsReading S.Store tx.old.conn.now tx.new.conn.now any_at_all result
        judged_lists }
{
    let rows = read_rows(tx, alloc)?;
    let all = rows.as_slice();
    let mut listed: usize = 0;
    for row in all {
        let its = judge_meeting(tx, alloc, *row)?;
        listed = added(listed, its)?;
    }
    Ok(listed)
}

/// Judges whether so many rows are all that name a meeting. The fault is `NoOffice` only where they
/// are not.
fn judge_count<S: Alter>(tx: &mut Transaction<'_, S>, listed: usize) -> Result<(), LoadError>
    ensures same_reference { tx.new.conn.ghost_name ≡ tx.old.conn.ghost_name }
    ensures read { IsReading S.Store tx.old.conn.now tx.new.conn.now any_at_all result
        (λ trees. guard (listed == stored_rows trees)) }
{
    let stored = stored_rows(tx)?;
    if listed != stored {
        return Err(LoadError::NoOffice);
    }
    Ok(())
}

/// Judges the meetings, and that no row names another. The fault is `NoOffice` only where they are
/// not those of an office.
fn judge_meetings<S: Alter>(tx: &mut Transaction<'_, S>, alloc: Global) -> Result<(), LoadError>
    ensures same_reference { tx.new.conn.ghost_name ≡ tx.old.conn.ghost_name }
    ensures read { IsReading S.Store tx.old.conn.now tx.new.conn.now any_at_all result
        judged_meetings }
{
    let listed = judge_each(tx, alloc)?;
    judge_count(tx, listed)
}

/// Judges all that the tables hold, each part after the other.
pub(crate) fn judge_parts<S: Alter>(
    tx: &mut Transaction<'_, S>,
    alloc: Global,
) -> Result<(), LoadError>
    ensures same_reference { tx.new.conn.ghost_name ≡ tx.old.conn.ghost_name }
    ensures read { IsReading S.Store tx.old.conn.now tx.new.conn.now any_at_all result
        judged_office }
{
    read_left(tx)?;
    judge_keys(tx, alloc)?;
    judge_days(tx, alloc)?;
    judge_meetings(tx, alloc)
}

/// Judges whether the tables hold an office. The fault is `NoOffice` only where they hold none. That
/// each row of a meeting's names one that stands is tested by counts: there are as many as those
/// that name one.
pub(crate) fn judge_office<S: Alter>(
    tx: &mut Transaction<'_, S>,
    alloc: Global,
) -> Result<(), LoadError>
    ensures same_reference { tx.new.conn.ghost_name ≡ tx.old.conn.ghost_name }
    ensures judged { IsJudged S.Store tx.old.conn.now tx.new.conn.now result }
{
    judge_parts(tx, alloc)
}
