//! The votes on one poll, read and judged.
ghost use Rattle.std.specs.Prelude.{◌≡◌, IfOk};
ghost use Rattle.sql_load.specs.LoadResults.{any_at_all};
ghost use Rattle.sql_open.specs.Votes.{judged_votes, rows_on, votes_on};
ghost use Rattle.sql_load.specs.WholeReading.{IsReading};
ghost use Rattle.sql_schema.specs.Statements.{ChangesNothing, IsRead};
ghost use Rattle.sqlite.specs.Held.{state};
ghost use Rattle.sqlite.specs.State.{IsUnchanged};

use crate::own_rows::filed;
use desk_words::{CastMark, Filed, MeetingId, Poll};
use office_validation::are_casts;
use sql_load::LoadError;
use sql_load::query_records::{items, records_found};
use sql_queries::casts::OnResolution;
use sql_stored::{Query, RowKey};
use sqlite::{Alter, Error, Row, Transaction};
use std::alloc::Global;

/// The rows of the votes on a resolution in a meeting, in the order of their numbers. A number that no
/// column holds is an error, as `whole` says.
fn rows_on<S: Alter>(
    tx: &mut Transaction<'_, S>,
    meeting: MeetingId,
    resolution: u64,
) -> Result<Vec<Row>, Error>
    ensures same_reference { tx.new.conn.ghost_name ≡ tx.old.conn.ghost_name }
    ensures rows { IsRead S.Store tx.old.conn.now tx.new.conn.now → IfOk result (λ rows.
        (rows.items ≡ rows_on meeting resolution (state S.Store tx.old.conn.now).now.trees)
        × IsUnchanged (state S.Store tx.old.conn.now) (state S.Store tx.new.conn.now)) }
    ensures changes { ChangesNothing S.Store tx.old.conn.now tx.new.conn.now }
{
    (meeting, resolution).ask(tx, OnResolution::finding())
}

/// The votes on a resolution in a meeting. The fault is `NoOffice` only where a row is no vote.
fn votes_on<S: Alter>(
    tx: &mut Transaction<'_, S>,
    alloc: Global,
    meeting: MeetingId,
    resolution: u64,
) -> Result<Filed<CastMark>, LoadError>
    ensures same_reference { tx.new.conn.ghost_name ≡ tx.old.conn.ghost_name }
    ensures read { IsReading S.Store tx.old.conn.now tx.new.conn.now any_at_all result
        (votes_on meeting resolution) }
{
    let votes = items(
        alloc,
        records_found(alloc, rows_on(tx, meeting, resolution)),
    )?;
    Ok(filed(alloc, votes)?)
}

/// Judges the votes on a poll of a meeting, and gives how many they are. The fault is `NoOffice` only
/// where they are none that could be cast on it.
pub(crate) fn judge_votes<S: Alter>(
    tx: &mut Transaction<'_, S>,
    alloc: Global,
    meeting: MeetingId,
    poll: Poll,
) -> Result<usize, LoadError>
    ensures same_reference { tx.new.conn.ghost_name ≡ tx.old.conn.ghost_name }
    ensures read { IsReading S.Store tx.old.conn.now tx.new.conn.now any_at_all result
        (judged_votes meeting poll) }
{
    let votes = votes_on(tx, alloc, meeting, poll.resolution)?;
    if !are_casts(&[poll], &votes) {
        return Err(LoadError::NoOffice);
    }
    Ok(votes.as_slice().len())
}
