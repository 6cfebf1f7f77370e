//! The calling of a meeting.
ghost use Rattle.json_requests.specs.BodyValues.{view, items_view};
ghost use Rattle.vocabulary.specs.Identity.{id};
ghost use Rattle.json_requests.specs.ParsedBodies.{BodyAgrees};
ghost use Rattle.json_requests.specs.JsonFields.{json_at, all_items, fields_view};
ghost use Rattle.json_requests.specs.CallBodies.{resolution_at, checked_resolutions, resolutions_in, call_body};

use crate::ask::BodyError;
use crate::fields::at;
use crate::place::{
    company_in, day_in, exactly_items, items_in, meeting_kind_in, moment_in, resolution_kind_in,
    text_in,
};
use crate::value::item;
use desk_words::{ListFault, MeetingId, NewMeeting, Resolution, Resolutions};
use json::Value;
use std::alloc::Global;

/// A resolution is a pair of its kind and its text.
#[tactic(auto, unfolding(crate::specs::CallBodies::resolution_at))]
fn resolution(alloc: Global, value: &Value<'_>) -> Result<Resolution, BodyError>
    ensures { BodyAgrees id result (resolution_at (view value.now)) }
{
    exactly_items(value, 2)?;
    let kind = resolution_kind_in(item(value, 0))?;
    let text = text_in(alloc, item(value, 1))?;
    Ok(Resolution { kind, text })
}

fn resolutions_from(alloc: Global, items: &[Value<'_>]) -> Result<Vec<Resolution>, BodyError>
    ensures { BodyAgrees (λ v. v.items) result (all_items resolution_at (items_view items.now)) }
{
    let mut found = Vec::new(alloc);
    for item in items {
        found.push(resolution(alloc, item)?)?;
    }
    Ok(found)
}

fn counted(resolutions: Vec<Resolution>) -> Result<Resolutions, BodyError>
    ensures { BodyAgrees id result (checked_resolutions resolutions.items) }
{
    match Resolutions::new(resolutions) {
        Ok(resolutions) => Ok(resolutions),
        Err(ListFault::Limit) => Err(BodyError::Unreadable),
        Err(ListFault::Memory) => Err(BodyError::Memory),
    }
}

#[tactic(auto, unfolding(crate::specs::CallBodies::resolutions_in))]
fn resolutions_in(alloc: Global, place: Option<&Value<'_>>) -> Result<Resolutions, BodyError>
    ensures { BodyAgrees id result (resolutions_in (json_at place.entry)) }
{
    let items = items_in(place)?;
    let resolutions = resolutions_from(alloc, items)?;
    counted(resolutions)
}

/// The fields of the calling of a meeting: `company` (`private` or `public`), `kind` (`annual` or
/// `general`), `given` (the day of the notice), `appointed` and `record` (moments), and
/// `resolutions` (1 to `MOST_RESOLUTIONS` pairs of a kind, `ordinary` or `special`, and a text).
pub(crate) const CALL: &[&str] = &[
    "company",
    "kind",
    "given",
    "appointed",
    "record",
    "resolutions",
];

/// The meeting that its fields call.
#[tactic(auto, unfolding(crate::specs::CallBodies::call_body))]
pub(crate) fn call(
    alloc: Global,
    meeting: MeetingId,
    fields: &[Option<Value<'_>>],
) -> Result<NewMeeting, BodyError>
    ensures { BodyAgrees id result (call_body meeting (fields_view fields.now)) }
{
    let [company, kind, given, appointed, record_moment, resolutions] = fields else {
        return Err(BodyError::Unreadable);
    };
    let company = company_in(at(company))?;
    let kind = meeting_kind_in(at(kind))?;
    let given = day_in(at(given))?;
    let appointed = moment_in(at(appointed))?;
    let record_moment = moment_in(at(record_moment))?;
    let resolutions = resolutions_in(alloc, at(resolutions))?;
    Ok(NewMeeting {
        meeting,
        company,
        kind,
        given,
        appointed,
        record_moment,
        resolutions,
    })
}
