//! The notice of a meeting, as JSON.
ghost use Rattle.std.specs.Prelude.{◌≡◌, [], ◌∷◌, codes, OnOk};
ghost use Rattle.json_replies.specs.Forms.{numbered_array, day_data, array_of, or_null};
ghost use Rattle.json_replies.specs.NoticeJson.{has_later, result_data, noticed_poll_data, noticed_resolution_data, noticed_session_data, notice_data};
ghost use Rattle.json_replies.specs.ReplyMembers.{result_head, poll_head, notice_head, notice_lists, sessions_list};
ghost use Rattle.json_replies.specs.Writing.{WritesMembers, WritesValue};

use crate::shown::{
    Counted, Shown, is_adjourned, put_number, put_number_if, put_or_null, put_shown, put_text,
    put_truth, write_each,
};
use desk_words::{
    Day, Declaration, Notice, NoticedPoll, NoticedResolution, NoticedSession, write_day,
};
use json::Writer;
use std::alloc::AllocError;

impl Shown for Day {
    ghost shown = { day_data };

    fn write(&self, out: &mut Writer) -> Result<(), AllocError> {
        let text = write_day(*self);
        out.string(str::from_utf8(&text).unwrap())
    }
}

/// Writes the members of the result of a poll but the last, the shares whose vote was withheld.
pub(crate) fn put_result_head(out: &mut Writer, declared: Declaration) -> Result<(), AllocError>
    ensures { OnOk result (WritesMembers (result_head declared) out.old out.new) }
{
    put_number(out, "against", declared.tally.votes_against)?;
    put_truth(out, "carried", declared.carried)?;
    put_number(out, "eligible", declared.tally.eligible)?;
    put_number(out, "for", declared.tally.votes_for)
}

impl Shown for Declaration {
    ghost shown = { result_data };

    fn write(&self, out: &mut Writer) -> Result<(), AllocError> {
        out.begin_object()?;
        put_result_head(out, *self)?;
        put_number(out, "withheld", self.tally.withheld)?;
        out.end_object()
    }
}

impl Counted for NoticedSession {
    ghost counted = { noticed_session_data };

    fn write_as(&self, number: u64, out: &mut Writer) -> Result<(), AllocError> {
        out.begin_object()?;
        put_shown(out, "appointed", &self.appointed)?;
        put_shown(out, "cutoff", &self.cutoff)?;
        put_number(out, "number", number)?;
        put_or_null(out, "opened", &self.opened)?;
        out.end_object()
    }
}

/// Writes the members of a poll before the number of its session.
fn put_poll_head(out: &mut Writer, noticed: &NoticedPoll) -> Result<(), AllocError>
    ensures { OnOk result (WritesMembers (poll_head noticed.now) out.old out.new) }
{
    put_truth(out, "chair", noticed.chair)?;
    put_or_null(out, "closed", &noticed.closed)?;
    put_shown(out, "cutoff", &noticed.cutoff)?;
    put_truth(out, "late", noticed.late)?;
    put_shown(out, "ordered", &noticed.ordered)?;
    put_or_null(out, "result", &noticed.result)
}

/// Writes a poll, with its session where the meeting was adjourned.
fn write_poll(out: &mut Writer, adjourned: bool, noticed: &NoticedPoll) -> Result<(), AllocError>
    ensures { OnOk result
        (WritesValue (noticed_poll_data adjourned noticed.now) out.old out.new) }
{
    out.begin_object()?;
    put_poll_head(out, noticed)?;
    put_number_if(out, adjourned, "session", noticed.session)?;
    put_or_null(out, "started", &noticed.started)?;
    put_shown(out, "take", &noticed.take)?;
    out.end_object()
}

/// Writes the member that is the poll on a resolution, or null.
fn put_poll(
    out: &mut Writer,
    adjourned: bool,
    noticed: &Option<NoticedPoll>,
) -> Result<(), AllocError>
    ensures { OnOk result (WritesMembers
        ((codes "poll", or_null (noticed_poll_data adjourned) noticed.now) ∷ [])
        out.old out.new) }
{
    out.key("poll")?;
    match noticed {
        None => out.null(),
        Some(noticed) => write_poll(out, adjourned, noticed),
    }
}

/// Writes a resolution, and the poll on it if one is ordered.
fn write_resolution(
    out: &mut Writer,
    adjourned: bool,
    noticed: &NoticedResolution,
) -> Result<(), AllocError>
    ensures { OnOk result
        (WritesValue (noticed_resolution_data adjourned noticed.now) out.old out.new) }
{
    out.begin_object()?;
    put_text(out, "kind", noticed.kind.word())?;
    put_number(out, "number", noticed.number)?;
    put_poll(out, adjourned, &noticed.poll)?;
    put_text(out, "text", noticed.text.as_str())?;
    out.end_object()
}

/// Writes the list of the resolutions.
fn write_resolutions(
    out: &mut Writer,
    adjourned: bool,
    resolutions: &[NoticedResolution],
) -> Result<(), AllocError>
    ensures { OnOk result (WritesValue
        (array_of (noticed_resolution_data adjourned) resolutions.now) out.old out.new) }
{
    out.begin_array()?;
    for resolution in resolutions {
        write_resolution(out, adjourned, resolution)?;
    }
    out.end_array()
}

/// Writes the list of the sessions, with their numbers.
fn write_sessions(out: &mut Writer, notice: &Notice) -> Result<(), AllocError>
    ensures { OnOk result (WritesValue
        (numbered_array noticed_session_data (notice.now.first ∷ notice.now.later)) out.old out.new) }
{
    out.begin_array()?;
    notice.first.write_as(1, out)?;
    write_each(out, 2, notice.later.as_slice())?;
    out.end_array()
}

/// Writes the sessions as a member, where the meeting was adjourned.
fn put_sessions(out: &mut Writer, adjourned: bool, notice: &Notice) -> Result<(), AllocError>
    ensures { OnOk result
        (WritesMembers (sessions_list adjourned notice.now) out.old out.new) }
{
    if adjourned {
        out.key("sessions")?;
        write_sessions(out, notice)
    } else {
        Ok(())
    }
}

/// Whether there is more than one session.
fn has_later(notice: &Notice) -> bool
    ensures { result ≡ has_later notice.now }
{
    is_adjourned(notice.later.as_slice().len() as u64 + 1)
}

/// Writes the members that are lists.
fn put_notice_lists(out: &mut Writer, notice: &Notice) -> Result<(), AllocError>
    ensures { OnOk result (WritesMembers (notice_lists notice.now) out.old out.new) }
{
    let adjourned = has_later(notice);
    out.key("resolutions")?;
    write_resolutions(out, adjourned, notice.resolutions.as_slice())?;
    put_sessions(out, adjourned, notice)
}

/// Writes the members of a notice before the meeting's name.
fn put_notice_head(out: &mut Writer, notice: &Notice) -> Result<(), AllocError>
    ensures { OnOk result (WritesMembers (notice_head notice.now) out.old out.new) }
{
    put_shown(out, "appointed", &notice.first.appointed)?;
    put_text(out, "company", notice.company.word())?;
    put_shown(out, "cutoff", &notice.first.cutoff)?;
    put_shown(out, "given", &notice.given)?;
    put_text(out, "kind", notice.kind.word())
}

/// Writes the object that answers a party that asks for the notice of a meeting.
pub(crate) fn write_notice(out: &mut Writer, notice: &Notice) -> Result<(), AllocError>
    ensures { OnOk result (WritesValue (notice_data notice.now) out.old out.new) }
{
    out.begin_object()?;
    put_notice_head(out, notice)?;
    put_text(out, "meeting", notice.meeting.as_str())?;
    put_text(out, "ok", "notice")?;
    put_or_null(out, "opened", &notice.first.opened)?;
    put_shown(out, "record", &notice.record_moment)?;
    put_truth(out, "register", notice.loaded)?;
    put_notice_lists(out, notice)?;
    out.end_object()
}
