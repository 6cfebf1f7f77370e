//! Appointments of proxies, and their endings.
ghost use Rattle.json_requests.specs.declared.ask.BodyError.TheVariants.{Unreadable};
ghost use Rattle.std.specs.Prelude.{nat_le, ◌≡◌, IfErr};
ghost use Rattle.vocabulary.specs.OptionSteps.{guard};
ghost use Rattle.serde_json.specs.Events.{items_len};
ghost use Rattle.json_requests.specs.BodyValues.{view, items_view};
ghost use Rattle.vocabulary.specs.Identity.{id};
ghost use Rattle.json_requests.specs.ParsedBodies.{BodyAgrees};
ghost use Rattle.json_requests.specs.AppointmentBodies.{instruction_at, instructions_in, appoint_body, end_in};
ghost use Rattle.json_requests.specs.JsonFields.{json_at, all_items, fields_view};

use crate::ask::BodyError;
use crate::fields::at;
use crate::place::{instruction_in, items_in, number_in, party_in};
use desk_words::limits::MOST_RESOLUTIONS;
use desk_words::{Instr, Listing, NewAppointment, PartyRequest};
use json::Value;
use std::alloc::Global;

#[tactic(auto, unfolding(crate::specs::AppointmentBodies::instruction_at))]
fn instruction(value: &Value<'_>) -> Result<Instr, BodyError>
    ensures agrees { BodyAgrees id result (instruction_at (view value.now)) }
    ensures sure { IfErr result (λ why. why ≡ Unreadable) }
{
    instruction_in(Some(value))
}

/// Refuses more items than an appointment may have instructions, which are as many as the most
/// resolutions of a meeting.
#[tactic(auto, using(crate::proofs::ItemLemmas::items_seen))]
fn few(items: &[Value<'_>]) -> Result<(), BodyError>
    ensures agrees { BodyAgrees id result
        (guard (nat_le (items_len (items_view items.now)) MOST_RESOLUTIONS)) }
    ensures sure { IfErr result (λ why. why ≡ Unreadable) }
{
    if items.len() <= MOST_RESOLUTIONS {
        Ok(())
    } else {
        Err(BodyError::Unreadable)
    }
}

fn instructions_from(alloc: Global, items: &[Value<'_>]) -> Result<Vec<Instr>, BodyError>
    ensures { BodyAgrees (λ v. v.items) result (all_items instruction_at (items_view items.now)) }
{
    let mut found = Vec::new(alloc);
    for item in items {
        found.push(instruction(item)?)?;
    }
    Ok(found)
}

#[tactic(auto, unfolding(crate::specs::AppointmentBodies::instructions_in))]
fn instructions_in(alloc: Global, place: Option<&Value<'_>>) -> Result<Listing<Instr>, BodyError>
    ensures { BodyAgrees id result (instructions_in (json_at place.entry)) }
{
    let items = items_in(place)?;
    few(items)?;
    let instructions = instructions_from(alloc, items)?;
    Ok(Listing::from_vec(instructions))
}

/// The fields of an appointment: `proxy` (a party), `from` and `to` (numbers), and `instructions` (0
/// to `MOST_RESOLUTIONS` of the words `for`, `against`, `withheld` and `free`).
pub(crate) const APPOINT: &[&str] = &["proxy", "from", "to", "instructions"];

/// The appointment that its fields give.
#[tactic(auto, unfolding(crate::specs::AppointmentBodies::appoint_body))]
pub(crate) fn appoint(
    alloc: Global,
    fields: &[Option<Value<'_>>],
) -> Result<PartyRequest, BodyError>
    ensures { BodyAgrees id result (appoint_body (fields_view fields.now)) }
{
    let [proxy, from, to, instructions] = fields else {
        return Err(BodyError::Unreadable);
    };
    let proxy = party_in(at(proxy))?;
    let from = number_in(at(from))?;
    let to = number_in(at(to))?;
    let instructions = instructions_in(alloc, at(instructions))?;
    Ok(PartyRequest::Appoint(NewAppointment {
        proxy,
        from,
        to,
        instructions,
    }))
}

/// The field of an ending: `number` (the number of an appointment).
pub(crate) const END: &[&str] = &["number"];

/// The ending that its field gives.
#[tactic(auto, unfolding(crate::specs::AppointmentBodies::end_in))]
pub(crate) fn end(fields: &[Option<Value<'_>>]) -> Result<PartyRequest, BodyError>
    ensures agrees { BodyAgrees id result (end_in (fields_view fields.now)) }
    ensures sure { IfErr result (λ why. why ≡ Unreadable) }
{
    let [number] = fields else {
        return Err(BodyError::Unreadable);
    };
    let number = number_in(at(number))?;
    Ok(PartyRequest::End(number))
}
