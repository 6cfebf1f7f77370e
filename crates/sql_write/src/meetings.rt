//! Meetings that are called, get a register, are opened and are adjourned.
ghost use Rattle.std.specs.Prelude.{◌≡◌};
ghost use Rattle.desk_words.specs.declared.change.Change.TheVariants as change;
ghost use Rattle.desk_words.specs.declared.change.MeetingChange.TheVariants as meeting_change;
ghost use Rattle.sql_write.specs.Writes.{Rewrites, Writes, any_records};
ghost use Rattle.sql_write.specs.Writes.{resolutions_added, rows_added};

use desk_words::{Meeting, MeetingId, Moment, Register, RegisterRow, Resolution, Session};
use sql_desk_tables::register::TOGETHER;
use sql_desk_tables::{meetings, register, resolutions, sessions};
use sql_queries::sessions::OfMeeting;
use sql_stored::find;
use sqlite::{Alter, Error, Transaction};
use std::alloc::Global;

fn add_resolutions<S: Alter>(
    tx: &mut Transaction<'_, S>,
    meeting: MeetingId,
    resolutions: &[Resolution],
) -> Result<(), Error>
    ensures same_reference { tx.new.conn.ghost_name ≡ tx.old.conn.ghost_name }
    ensures turns { Rewrites S.Store tx.old.conn.now tx.new.conn.now result any_records
        (resolutions_added meeting resolutions.now) }
{
    let mut number = 0;
    for resolution in resolutions {
        number += 1;
        resolutions::add(tx, meeting, number, resolution)?;
    }
    Ok(())
}

/// Adds a meeting, and its resolutions, numbered 1, 2, .. The error is what the database answered.
pub(crate) fn add_meeting<S: Alter>(
    tx: &mut Transaction<'_, S>,
    meeting: &Meeting,
) -> Result<(), Error>
    ensures same_reference { tx.new.conn.ghost_name ≡ tx.old.conn.ghost_name }
    ensures writes { Writes S.Store tx.old.conn.now tx.new.conn.now result
        (change.AddMeeting meeting.now) }
{
    meetings::add(tx, meeting)?;
    add_resolutions(tx, meeting.id, meeting.resolutions.as_slice())
}

fn add_rows<S: Alter>(
    tx: &mut Transaction<'_, S>,
    meeting: MeetingId,
    rows: &[RegisterRow],
) -> Result<(), Error>
    ensures same_reference { tx.new.conn.ghost_name ≡ tx.old.conn.ghost_name }
    ensures turns { Rewrites S.Store tx.old.conn.now tx.new.conn.now result any_records
        (rows_added meeting rows.now) }
{
    for row in rows {
        register::add(tx, meeting, row)?;
    }
    Ok(())
}

/// Adds the rows of a register: `TOGETHER` of them by each statement, and those that are left one
/// by one. What a statement costs beside its rows is a third of what a row costs.
fn add_register<S: Alter>(
    alloc: Global,
    tx: &mut Transaction<'_, S>,
    meeting: MeetingId,
    rows: &[RegisterRow],
) -> Result<(), Error>
    ensures same_reference { tx.new.conn.ghost_name ≡ tx.old.conn.ghost_name }
    ensures turns { Rewrites S.Store tx.old.conn.now tx.new.conn.now result any_records
        (rows_added meeting rows.now) }
{
    let mut rest = rows;
    while let Some((first, more)) = rest.split_first_chunk::<TOGETHER>() {
        register::add_together(alloc, tx, meeting, first)?;
        rest = more;
    }
    add_rows(tx, meeting, rest)
}

/// Puts a register in place of the one that a meeting has, and notes that it is loaded. The error
/// is what the database answered.
pub(crate) fn set_register<S: Alter>(
    alloc: Global,
    tx: &mut Transaction<'_, S>,
    meeting: MeetingId,
    rows: &Register,
) -> Result<(), Error>
    ensures same_reference { tx.new.conn.ghost_name ≡ tx.old.conn.ghost_name }
    ensures writes { Writes S.Store tx.old.conn.now tx.new.conn.now result
        (change.InMeeting meeting (meeting_change.SetRegister rows.now)) }
{
    register::empty(tx, meeting)?;
    add_register(alloc, tx, meeting, rows.rows())?;
    meetings::load(tx, meeting)?;
    Ok(())
}

/// Notes when the last session of a meeting opened: its row is that of the meeting, unless the
/// meeting was adjourned. The error is what the database answered.
pub(crate) fn open_meeting<S: Alter>(
    tx: &mut Transaction<'_, S>,
    meeting: MeetingId,
    moment: Moment,
) -> Result<(), Error>
    ensures same_reference { tx.new.conn.ghost_name ≡ tx.old.conn.ghost_name }
    ensures writes { Writes S.Store tx.old.conn.now tx.new.conn.now result
        (change.InMeeting meeting (meeting_change.SetOpened moment)) }
{
    let further = find::<OfMeeting, S>(tx, meeting)?;
    let last = further.len() as u64 + 1;
    if last == 1 {
        meetings::open(tx, meeting, moment)?;
    } else {
        sessions::open(tx, meeting, last, moment)?;
    }
    Ok(())
}

/// Adds a session behind those of a meeting, appointed for a moment and not opened. The error is
/// what the database answered.
pub(crate) fn add_session<S: Alter>(
    tx: &mut Transaction<'_, S>,
    meeting: MeetingId,
    appointed: Moment,
) -> Result<(), Error>
    ensures same_reference { tx.new.conn.ghost_name ≡ tx.old.conn.ghost_name }
    ensures writes { Writes S.Store tx.old.conn.now tx.new.conn.now result
        (change.InMeeting meeting (meeting_change.AddSession appointed)) }
{
    let further = find::<OfMeeting, S>(tx, meeting)?;
    let number = further.len() as u64 + 2;
    let session = Session {
        appointed,
        opened: None,
    };
    sessions::add(tx, meeting, number, &session)?;
    Ok(())
}
