//! A change.
ghost use Rattle.std.specs.Prelude.{◌≡◌};
ghost use Rattle.desk_words.specs.declared.change.Change.TheVariants as of_desk;
ghost use Rattle.sql_write.specs.Writes.{Writes};

use crate::desk_lists::{set_closed_days, set_keys};
use crate::entries::enter;
use crate::meetings::{add_meeting, add_session, open_meeting, set_register};
use crate::polls::{move_poll, order_poll};
use desk_words::{Change, MeetingChange, MeetingId};
use sqlite::{Alter, Error, Transaction};
use std::alloc::Global;

/// Writes what is changed in a meeting. The error is what the database answered, want of memory
/// among it.
fn write_in_meeting<S: Alter>(
    alloc: Global,
    tx: &mut Transaction<'_, S>,
    meeting: MeetingId,
    change: &MeetingChange,
) -> Result<(), Error>
    ensures same_reference { tx.new.conn.ghost_name ≡ tx.old.conn.ghost_name }
    ensures writes { Writes S.Store tx.old.conn.now tx.new.conn.now result
        (of_desk.InMeeting meeting change.now) }
{
    match change {
        MeetingChange::SetRegister(register) => set_register(alloc, tx, meeting, register),
        MeetingChange::SetOpened(moment) => open_meeting(tx, meeting, *moment),
        MeetingChange::AddSession(moment) => add_session(tx, meeting, *moment),
        MeetingChange::AddPoll(poll) => order_poll(tx, meeting, poll),
        MeetingChange::SetPoll { resolution, change } => {
            move_poll(tx, meeting, *resolution, *change)
        }
        MeetingChange::Enter(entry) => enter(alloc, tx, meeting, entry),
    }
}

/// Writes a change, within a transaction: where the tables are an office that can make it, they are
/// then the office that it leaves. Nothing is committed. The error is what the database answered,
/// want of memory among it; the transaction is then to be given up.
pub fn write<S: Alter>(
    alloc: Global,
    tx: &mut Transaction<'_, S>,
    change: &Change,
) -> Result<(), Error>
    ensures same_reference { tx.new.conn.ghost_name ≡ tx.old.conn.ghost_name }
    ensures writes { Writes S.Store tx.old.conn.now tx.new.conn.now result change.now }
{
    match change {
        Change::AddMeeting(meeting) => add_meeting(tx, meeting),
        Change::SetClosedDays(days) => set_closed_days(tx, days),
        Change::SetKeys(keys) => set_keys(tx, keys),
        Change::InMeeting { meeting, change } => write_in_meeting(alloc, tx, *meeting, change),
    }
}
