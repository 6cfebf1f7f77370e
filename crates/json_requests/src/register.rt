//! The loading of a register.
ghost use Rattle.json_requests.specs.BodyValues.{view, items_view};
ghost use Rattle.desk_words.specs.Registers.{register_of};
ghost use Rattle.vocabulary.specs.Identity.{id};
ghost use Rattle.json_requests.specs.ParsedBodies.{BodyAgrees};
ghost use Rattle.json_requests.specs.JsonFields.{json_at, all_items, fields_view};
ghost use Rattle.json_requests.specs.RegisterBodies.{row_at, register_body, load_in};

use crate::ask::BodyError;
use crate::fields::at;
use crate::place::{
    exactly_items, holder_kind_in, items_in, moment_in, number_in, party_in, text_in,
};
use crate::value::item;
use desk_words::{ListFault, NewRegister, OfficeRequest, Register, RegisterRow};
use json::Value;
use std::alloc::Global;

/// A row is a member, its kind, its name, its shares and what is paid up on each of them.
#[tactic(auto, unfolding(crate::specs::RegisterBodies::row_at))]
fn row(alloc: Global, value: &Value<'_>) -> Result<RegisterRow, BodyError>
    ensures { BodyAgrees id result (row_at (view value.now)) }
{
    exactly_items(value, 5)?;
    let member = party_in(item(value, 0))?;
    let kind = holder_kind_in(item(value, 1))?;
    let name = text_in(alloc, item(value, 2))?;
    let shares = number_in(item(value, 3))?;
    let paid = number_in(item(value, 4))?;
    Ok(RegisterRow {
        member,
        kind,
        name,
        shares,
        paid,
    })
}

fn rows_from(alloc: Global, items: &[Value<'_>]) -> Result<Vec<RegisterRow>, BodyError>
    ensures { BodyAgrees (λ v. v.items) result (all_items row_at (items_view items.now)) }
{
    let mut found = Vec::new(alloc);
    for item in items {
        found.push(row(alloc, item)?)?;
    }
    Ok(found)
}

fn registered(rows: Vec<RegisterRow>) -> Result<Register, BodyError>
    ensures { BodyAgrees id result (register_of rows.items) }
{
    match Register::new(rows) {
        Ok(register) => Ok(register),
        Err(ListFault::Limit) => Err(BodyError::Unreadable),
        Err(ListFault::Memory) => Err(BodyError::Memory),
    }
}

#[tactic(auto, unfolding(crate::specs::RegisterBodies::register_body))]
fn register_in(alloc: Global, place: Option<&Value<'_>>) -> Result<Register, BodyError>
    ensures { BodyAgrees id result (register_body (json_at place.entry)) }
{
    let items = items_in(place)?;
    let rows = rows_from(alloc, items)?;
    registered(rows)
}

/// The fields of the loading of a register: `record` (a moment) and `rows`, which are arrays of a
/// member, a kind (`individual`, `corporation` or `treasury`), a name, a number of shares and the
/// pence paid up on each of them, and together make a register.
pub(crate) const LOAD: &[&str] = &["record", "rows"];

/// The register that the fields load.
#[tactic(auto, unfolding(crate::specs::RegisterBodies::load_in))]
pub(crate) fn load(alloc: Global, fields: &[Option<Value<'_>>]) -> Result<OfficeRequest, BodyError>
    ensures { BodyAgrees id result (load_in (fields_view fields.now)) }
{
    let [record_moment, rows] = fields else {
        return Err(BodyError::Unreadable);
    };
    let record_moment = moment_in(at(record_moment))?;
    let rows = register_in(alloc, at(rows))?;
    Ok(OfficeRequest::LoadRegister(NewRegister {
        record_moment,
        rows,
    }))
}
