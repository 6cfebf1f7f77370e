//! Polls that are ordered, and that come further.
ghost use Rattle.std.specs.Prelude.{◌≡◌};
ghost use Rattle.desk_words.specs.declared.change.Change.TheVariants as change;
ghost use Rattle.desk_words.specs.declared.change.MeetingChange.TheVariants as meeting_change;
ghost use Rattle.sql_write.specs.Writes.{Writes};

use desk_words::{MeetingId, Poll, PollChange};
use sql_meeting_tables::polls;
use sql_schema::PollName;
use sqlite::{Alter, Error, Transaction};

/// Adds a poll that is ordered. The error is what the database answered.
pub(crate) fn order_poll<S: Alter>(
    tx: &mut Transaction<'_, S>,
    meeting: MeetingId,
    poll: &Poll,
) -> Result<(), Error>
    ensures same_reference { tx.new.conn.ghost_name ≡ tx.old.conn.ghost_name }
    ensures writes { Writes S.Store tx.old.conn.now tx.new.conn.now result
        (change.InMeeting meeting (meeting_change.AddPoll poll.now)) }
{
    polls::add(tx, meeting, poll)?;
    Ok(())
}

/// Notes how far the poll on a resolution has come. The error is what the database answered.
pub(crate) fn move_poll<S: Alter>(
    tx: &mut Transaction<'_, S>,
    meeting: MeetingId,
    resolution: u64,
    progress: PollChange,
) -> Result<(), Error>
    ensures same_reference { tx.new.conn.ghost_name ≡ tx.old.conn.ghost_name }
    ensures writes { Writes S.Store tx.old.conn.now tx.new.conn.now result
        (change.InMeeting meeting (meeting_change.SetPoll resolution progress)) }
{
    let poll = PollName {
        meeting,
        resolution,
    };
    match progress {
        PollChange::Started(moment) => polls::start(tx, poll, moment)?,
        PollChange::Closed(moment) => polls::close(tx, poll, moment)?,
        PollChange::Declared(tally) => polls::declare(tx, poll, tally)?,
    };
    Ok(())
}
