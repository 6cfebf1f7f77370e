//! The loading of closed days.
ghost use Rattle.std.specs.Prelude.{◌≡◌, IfErr};
ghost use Rattle.json_requests.specs.declared.ask.BodyError.TheVariants.{Unreadable};
ghost use Rattle.json_requests.specs.BodyValues.{view, items_view};
ghost use Rattle.vocabulary.specs.Identity.{id};
ghost use Rattle.json_requests.specs.ParsedBodies.{BodyAgrees};
ghost use Rattle.json_requests.specs.DayBodies.{day_at, days_body, closed_body};
ghost use Rattle.desk_words.specs.SortedLists.{day_list_of};
ghost use Rattle.json_requests.specs.JsonFields.{json_at, all_items, fields_view};

use crate::ask::BodyError;
use crate::fields::at;
use crate::place::{day_in, items_in};
use desk_words::{Day, DayList, ListFault};
use json::Value;
use std::alloc::Global;

#[tactic(auto, unfolding(crate::specs::DayBodies::day_at))]
fn day(value: &Value<'_>) -> Result<Day, BodyError>
    ensures agrees { BodyAgrees id result (day_at (view value.now)) }
    ensures sure { IfErr result (λ why. why ≡ Unreadable) }
{
    day_in(Some(value))
}

fn days_from(alloc: Global, items: &[Value<'_>]) -> Result<Vec<Day>, BodyError>
    ensures { BodyAgrees (λ v. v.items) result (all_items day_at (items_view items.now)) }
{
    let mut found = Vec::new(alloc);
    for item in items {
        found.push(day(item)?)?;
    }
    Ok(found)
}

fn day_list(days: Vec<Day>) -> Result<DayList, BodyError>
    ensures { BodyAgrees id result (day_list_of days.items) }
{
    match DayList::new(days) {
        Ok(days) => Ok(days),
        Err(ListFault::Limit) => Err(BodyError::Unreadable),
        Err(ListFault::Memory) => Err(BodyError::Memory),
    }
}

#[tactic(auto, unfolding(crate::specs::DayBodies::days_body))]
fn days_in(alloc: Global, place: Option<&Value<'_>>) -> Result<DayList, BodyError>
    ensures { BodyAgrees id result (days_body (json_at place.entry)) }
{
    let items = items_in(place)?;
    let days = days_from(alloc, items)?;
    day_list(days)
}

/// The field of the loading of closed days: `days`, an array of days, of which at most
/// `MOST_CLOSED_DAYS` are different.
pub(crate) const CLOSED: &[&str] = &["days"];

/// The closed days that the field loads.
#[tactic(auto, unfolding(crate::specs::DayBodies::closed_body))]
pub(crate) fn closed(alloc: Global, fields: &[Option<Value<'_>>]) -> Result<DayList, BodyError>
    ensures { BodyAgrees id result (closed_body (fields_view fields.now)) }
{
    let [days] = fields else {
        return Err(BodyError::Unreadable);
    };
    days_in(alloc, at(days))
}
