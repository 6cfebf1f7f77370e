//! The answers to a party that gives or ends an appointment of a proxy.
ghost use Rattle.std.specs.Prelude.{◌≡◌, ◌==◌, ◌<◌, None, Some, MatchResult, find, length, if◌then◌else◌};
ghost use Rattle.std.specs.Option.{option_copied};
ghost use Rattle.desk_words.specs.Refusals.{first_refusal};
ghost use Rattle.desk_words.specs.Rulings.{ruled_answer};
ghost use Rattle.desk_words.specs.declared.change.Entry.TheVariants as entry;
ghost use Rattle.desk_words.specs.declared.own_things.Given.{Given};
ghost use Rattle.desk_words.specs.declared.reply.Reply.TheVariants as reply;
ghost use Rattle.caller_view.specs.AppointmentRulings.{appoint_range_cases, appoint_ruling, appointment_of, end_cases, end_ruling, given_numbered, use_by};

use crate::answers::cutoff_in;
use desk_words::limits::MOST_APPOINTMENTS;
use desk_words::{
    Answer, Appointment, AppointmentReceipt, AppointmentUse, Ending, Entry, Given, Instr,
    Instructions, Meeting, Moment, NewAppointment, Range, Refusal, Reply, refuse,
};
use party_views::{OwnView, PublicRecord};

/// What an appointment of a moment counts for, where the last session has that cutoff.
pub(crate) fn use_by(cutoff: Moment, moment: Moment) -> AppointmentUse
    ensures { result ≡ use_by cutoff moment }
{
    if moment <= cutoff {
        AppointmentUse::Meeting
    } else {
        AppointmentUse::LaterPolls
    }
}

/// The instructions, or none where there is not one for each resolution of the meeting.
fn one_for_each(meeting: &Meeting, instructions: &[Instr]) -> Option<Instructions>
    ensures { result ≡ (if length instructions.now == length meeting.now.resolutions
        then Some instructions.now else None) }
{
    if instructions.len() != meeting.resolutions.as_slice().len() {
        return None;
    }
    Instructions::new(instructions)
}

/// The instructions of an appointment over a range of places, or why it is not recorded.
fn unless_refused(
    meeting: &Meeting,
    own: &OwnView,
    new: &NewAppointment,
) -> Result<Instructions, Refusal>
    ensures { MatchResult result
        (λ instructions. (instructions ≡ new.now.instructions)
        × (own.now.given_count < MOST_APPOINTMENTS)
        × (first_refusal (appoint_range_cases meeting.now own.now new.now) ≡ None))
        (λ refusal. first_refusal (appoint_range_cases meeting.now own.now new.now)
        ≡ Some refusal) }
{
    if new.proxy.is(own.party) {
        return Err(Refusal::SelfNamed);
    }
    let Some(instructions) = one_for_each(meeting, new.instructions.as_slice()) else {
        return Err(Refusal::BadInstructions);
    };
    if own.given_count >= MOST_APPOINTMENTS as u64 {
        return Err(Refusal::TooMany);
    }
    Ok(instructions)
}

/// The appointment of a party that gave fewer than `MOST_APPOINTMENTS`.
fn new_appointment(
    own: &OwnView,
    now: Moment,
    new: &NewAppointment,
    range: Range,
    instructions: Instructions,
) -> Appointment
    requires room { own.now.given_count < MOST_APPOINTMENTS }
    requires range { range ≡ record { from = new.now.from; to = new.now.to } }
    requires instructions { instructions ≡ new.now.instructions }
    ensures { result ≡ appointment_of own.now now new.now }
{
    Appointment {
        member: own.party,
        number: own.given_count + 1,
        proxy: new.proxy,
        range,
        instructions,
        moment: now,
    }
}

/// The answer that records an appointment.
fn appointed(used: AppointmentUse, appointment: Appointment) -> Answer<Entry>
    ensures { result ≡ record {
      reply = reply.Appointed (record { number = appointment.number; used = used });
      change = Some (entry.Appointment appointment);
    } }
{
    Answer {
        reply: Reply::Appointed(AppointmentReceipt {
            number: appointment.number,
            used,
        }),
        change: Some(Entry::Appointment(appointment)),
    }
}

/// The answer to a party that appoints a proxy over some of its own shares (sections 324 and 324A):
/// the first that holds of `BadRange`, `SelfNamed` where it names itself, `BadInstructions` where
/// there is not one for each resolution, and `TooMany` where it gave `MOST_APPOINTMENTS` in the
/// meeting; and else `Appointed` with its next number, which enters the appointment. The register
/// is not looked at.
#[inline(never)]
pub(crate) fn appoint(
    public: &PublicRecord,
    meeting: &Meeting,
    own: &OwnView,
    now: Moment,
    new: &NewAppointment,
) -> Answer<Entry>
    ensures { result ≡ ruled_answer (appoint_ruling public.now meeting.now own.now now new.now) }
{
    let Some(range) = Range::new(new.from, new.to) else {
        return refuse(Refusal::BadRange);
    };
    let instructions = match unless_refused(meeting, own, new) {
        Ok(instructions) => instructions,
        Err(refusal) => return refuse(refusal),
    };
    let used = use_by(cutoff_in(public, meeting, now), now);
    appointed(used, new_appointment(own, now, new, range, instructions))
}

fn find_given(given: &[Given], number: u64) -> Option<&Given>
    ensures { option_copied result ≡ given_numbered given.now number }
{
    given.iter().find(|g| g.appointment.number == number)
}

fn end_refusal(own: &OwnView, number: u64) -> Option<Refusal>
    ensures { result ≡ first_refusal (end_cases own.now number) }
{
    let Some(given) = find_given(own.given.as_slice(), number) else {
        return Some(Refusal::NoSuchNumber);
    };
    if given.ended.is_some() {
        return Some(Refusal::AlreadyEnded);
    }
    None
}

/// The answer to a party that ends an appointment that it gave (section 330): `NoSuchNumber` where
/// it gave none of that number, `AlreadyEnded`, and else `Ended`, which enters the ending.
#[inline(never)]
pub(crate) fn end(own: &OwnView, now: Moment, number: u64) -> Answer<Entry>
    ensures { result ≡ ruled_answer (end_ruling own.now now number) }
{
    if let Some(refusal) = end_refusal(own, number) {
        return refuse(refusal);
    }
    Answer {
        reply: Reply::Ended(number),
        change: Some(Entry::Ending(Ending {
            member: own.party,
            number,
            moment: now,
        })),
    }
}
