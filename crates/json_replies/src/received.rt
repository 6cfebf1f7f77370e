//! Appointments that name a party, and the places that they govern, as JSON.
ghost use Rattle.std.specs.Prelude.{◌≡◌, OnOk};
ghost use Rattle.json_replies.specs.AppointmentJson.{last_votes, run_data, poll_governed_data, received_data, session_governed_data};
ghost use Rattle.json_replies.specs.Forms.{numbered_array};
ghost use Rattle.json_replies.specs.ReplyMembers.{governed_list, received_head};
ghost use Rattle.json_replies.specs.Writing.{WritesMembers, WritesValue};

use crate::shown::{
    Counted, Shown, is_adjourned, put_list, put_number, put_shown, put_text, write_each,
    write_number,
};
use desk_words::{PollGoverned, Range, Received, SessionGoverned};
use json::Writer;
use std::alloc::AllocError;

impl Shown for Range {
    ghost shown = { run_data };

    fn write(&self, out: &mut Writer) -> Result<(), AllocError> {
        out.begin_array()?;
        write_number(out, self.from())?;
        write_number(out, self.to())?;
        out.end_array()
    }
}

impl Shown for PollGoverned {
    ghost shown = { poll_governed_data };

    fn write(&self, out: &mut Writer) -> Result<(), AllocError> {
        out.begin_object()?;
        put_list(out, "governs", self.governs.as_slice())?;
        put_number(out, "resolution", self.resolution)?;
        out.end_object()
    }
}

impl Counted for SessionGoverned {
    ghost counted = { session_governed_data };

    fn write_as(&self, number: u64, out: &mut Writer) -> Result<(), AllocError> {
        out.begin_object()?;
        put_list(out, "acts", self.acts.as_slice())?;
        put_list(out, "governs", self.votes.as_slice())?;
        put_number(out, "session", number)?;
        out.end_object()
    }
}

/// The runs for votes in the last session.
fn last_votes(sessions: &[SessionGoverned]) -> &[Range]
    ensures { result.now ≡ last_votes sessions.now }
{
    match sessions.last() {
        Some(governed) => governed.votes.as_slice(),
        None => &[],
    }
}

/// Writes the list of what is governed in each session, with its number.
fn write_governed(out: &mut Writer, sessions: &[SessionGoverned]) -> Result<(), AllocError>
    ensures { OnOk result
        (WritesValue (numbered_array session_governed_data sessions.now) out.old out.new) }
{
    out.begin_array()?;
    write_each(out, 1, sessions)?;
    out.end_array()
}

/// Writes what is governed in each session as a member, where there is more than one session.
fn put_governed(out: &mut Writer, sessions: &[SessionGoverned]) -> Result<(), AllocError>
    ensures { OnOk result (WritesMembers (governed_list sessions.now) out.old out.new) }
{
    if is_adjourned(sessions.len() as u64) {
        out.key("sessions")?;
        write_governed(out, sessions)
    } else {
        Ok(())
    }
}

/// Writes the members of an appointment before its sessions.
fn put_received_head(out: &mut Writer, received: &Received) -> Result<(), AllocError>
    ensures { OnOk result (WritesMembers (received_head received.now) out.old out.new) }
{
    put_number(out, "from", received.range.from())?;
    put_list(out, "governs", last_votes(received.sessions.as_slice()))?;
    put_list(out, "instructions", received.instructions.as_slice())?;
    put_text(out, "member", received.member.as_str())?;
    put_list(out, "polls", received.polls.as_slice())?;
    put_shown(out, "received", &received.moment)
}

impl Shown for Received {
    ghost shown = { received_data };

    fn write(&self, out: &mut Writer) -> Result<(), AllocError> {
        out.begin_object()?;
        put_received_head(out, self)?;
        put_governed(out, self.sessions.as_slice())?;
        put_number(out, "to", self.range.to())?;
        out.end_object()
    }
}
