//! Appointments of proxies, as JSON.
ghost use Rattle.std.specs.Prelude.{◌≡◌, OnOk};
ghost use Rattle.json_replies.specs.AppointmentJson.{instruction_data, use_word, given_data, appointed_data};
ghost use Rattle.json_replies.specs.ReplyMembers.{given_head};
ghost use Rattle.json_replies.specs.Writing.{WritesMembers, WritesValue};

use crate::shown::{Shown, put_list, put_number, put_or_null, put_shown, put_text};
use desk_words::{AppointmentReceipt, AppointmentUse, Given, GivenUse, Instr};
use json::Writer;
use std::alloc::AllocError;

/// The words for what an appointment counts for.
fn use_word(used: AppointmentUse) -> &'static str
    ensures { result.now ≡ use_word used }
{
    match used {
        AppointmentUse::Meeting => "meeting",
        AppointmentUse::LaterPolls => "later polls only",
    }
}

impl Shown for Instr {
    ghost shown = { instruction_data };

    fn write(&self, out: &mut Writer) -> Result<(), AllocError> {
        out.string(self.word())
    }
}

/// Writes the members of an appointment before its proxy's name.
fn put_given_head(out: &mut Writer, given: &Given) -> Result<(), AllocError>
    ensures { OnOk result (WritesMembers (given_head given.now) out.old out.new) }
{
    let appointment = &given.appointment;
    put_or_null(out, "ended", &given.ended)?;
    put_number(out, "from", appointment.range.from())?;
    put_list(out, "instructions", appointment.instructions.as_slice())?;
    put_number(out, "number", appointment.number)
}

impl Shown for GivenUse {
    ghost shown = { given_data };

    fn write(&self, out: &mut Writer) -> Result<(), AllocError> {
        let appointment = &self.given.appointment;
        out.begin_object()?;
        put_given_head(out, &self.given)?;
        put_text(out, "proxy", appointment.proxy.as_str())?;
        put_shown(out, "received", &appointment.moment)?;
        put_number(out, "to", appointment.range.to())?;
        put_text(out, "use", use_word(self.used))?;
        out.end_object()
    }
}

/// Writes the object that answers a party whose appointment is recorded.
pub(crate) fn write_appointed(
    out: &mut Writer,
    receipt: AppointmentReceipt,
) -> Result<(), AllocError>
    ensures { OnOk result (WritesValue (appointed_data receipt) out.old out.new) }
{
    out.begin_object()?;
    put_number(out, "number", receipt.number)?;
    put_text(out, "ok", "appointed")?;
    put_text(out, "use", use_word(receipt.used))?;
    out.end_object()
}
