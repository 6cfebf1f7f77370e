//! What is entered into the lists of a meeting.
ghost use Rattle.std.specs.Prelude.{◌≡◌};
ghost use Rattle.desk_words.specs.declared.change.Change.TheVariants as change;
ghost use Rattle.desk_words.specs.declared.change.MeetingChange.TheVariants as meeting_change;
ghost use Rattle.sql_write.specs.Writes.{Writes};

use desk_words::{Entry, MeetingId};
use sql_meeting_tables::authorities::Authorities;
use sql_meeting_tables::demands::Demands;
use sql_meeting_tables::endings::Endings;
use sql_meeting_tables::presences::Presences;
use sql_meeting_tables::{appointments, casts};
use sql_stored::add;
use sqlite::{Alter, Error, Transaction};
use std::alloc::Global;

/// Enters something into the lists of a meeting, behind what was received before. The error is what
/// the database answered.
pub(crate) fn enter<S: Alter>(
    alloc: Global,
    tx: &mut Transaction<'_, S>,
    meeting: MeetingId,
    entry: &Entry,
) -> Result<(), Error>
    ensures same_reference { tx.new.conn.ghost_name ≡ tx.old.conn.ghost_name }
    ensures writes { Writes S.Store tx.old.conn.now tx.new.conn.now result
        (change.InMeeting meeting (meeting_change.Enter entry.now)) }
{
    match entry {
        Entry::Appointment(appointment) => appointments::add(alloc, tx, meeting, appointment)?,
        Entry::Ending(ending) => add::<Endings, S>(tx, meeting, ending)?,
        Entry::Authority(authority) => add::<Authorities, S>(tx, meeting, authority)?,
        Entry::Presence(presence) => add::<Presences, S>(tx, meeting, presence)?,
        Entry::Demand(demand) => add::<Demands, S>(tx, meeting, demand)?,
        Entry::Cast(cast) => casts::add(tx, meeting, cast)?,
    };
    Ok(())
}
