//! The office that the tables hold.
ghost use Rattle.std.specs.Prelude.{◌≡◌};
ghost use Rattle.desk_words.specs.SortedLists.{is_day_list, is_key_list};
ghost use Rattle.desk_words.specs.Office.{is_office};
ghost use Rattle.sql_open.specs.MeetingReading.{days_in, keys_in, office_by_meetings};
ghost use Rattle.sql_load.specs.WholeReading.{IsReading};
ghost use Rattle.sql_model.specs.OfficeRecords.{office_in};

use crate::emptied::read_left;
use crate::judging::judge_parts;
use crate::meeting_lists::read_meetings;
use desk_words::{DayList, KeyRows, OfficeLists};
use sql_desk_tables::closed::ClosedDays;
use sql_desk_tables::keys::Keys;
use sql_load::{LoadError, day_list, key_rows, listing};
use sqlite::{Alter, Transaction};
use std::alloc::Global;

/// The keys by which callers are known. The fault is `NoOffice` only where they are no such list.
pub(crate) fn keys_of<S: Alter>(
    tx: &mut Transaction<'_, S>,
    alloc: Global,
) -> Result<KeyRows, LoadError>
    ensures same_reference { tx.new.conn.ghost_name ≡ tx.old.conn.ghost_name }
    ensures read { IsReading S.Store tx.old.conn.now tx.new.conn.now is_key_list result keys_in }
{
    let rows = listing::<Keys, S>(tx, alloc)?;
    key_rows(rows)
}

/// The days that the office has closed (section 1173). The fault is `NoOffice` only where they are no
/// such list.
pub(crate) fn days_of<S: Alter>(
    tx: &mut Transaction<'_, S>,
    alloc: Global,
) -> Result<DayList, LoadError>
    ensures same_reference { tx.new.conn.ghost_name ≡ tx.old.conn.ghost_name }
    ensures read { IsReading S.Store tx.old.conn.now tx.new.conn.now is_day_list result days_in }
{
    let days = listing::<ClosedDays, S>(tx, alloc)?;
    day_list(days)
}

/// The office that the tables hold, read meeting by meeting.
fn office_by_meetings<S: Alter>(
    tx: &mut Transaction<'_, S>,
    alloc: Global,
) -> Result<OfficeLists, LoadError>
    ensures same_reference { tx.new.conn.ghost_name ≡ tx.old.conn.ghost_name }
    ensures read { IsReading S.Store tx.old.conn.now tx.new.conn.now is_office result
        office_by_meetings }
{
    read_left(tx)?;
    let keys = keys_of(tx, alloc)?;
    let closed = days_of(tx, alloc)?;
    let meetings = read_meetings(tx, alloc)?;
    Ok(OfficeLists {
        keys,
        closed,
        meetings,
    })
}

/// The office that the tables hold. The fault is `NoOffice` only where they hold none.
pub fn read_office<S: Alter>(
    tx: &mut Transaction<'_, S>,
    alloc: Global,
) -> Result<OfficeLists, LoadError>
    ensures same_reference { tx.new.conn.ghost_name ≡ tx.old.conn.ghost_name }
    ensures read { IsReading S.Store tx.old.conn.now tx.new.conn.now is_office result office_in }
{
    // A row that names no meeting would not be read.
    judge_parts(tx, alloc)?;
    office_by_meetings(tx, alloc)
}
