//! The loading of keys.
ghost use Rattle.std.specs.Prelude.{◌≡◌, IfErr};
ghost use Rattle.json_requests.specs.declared.ask.BodyError.TheVariants.{Unreadable};
ghost use Rattle.json_requests.specs.BodyValues.{view, items_view};
ghost use Rattle.desk_words.specs.SortedLists.{key_list_of};
ghost use Rattle.vocabulary.specs.Identity.{id};
ghost use Rattle.json_requests.specs.ParsedBodies.{BodyAgrees};
ghost use Rattle.json_requests.specs.KeyBodies.{key_row_of, key_rows_in, keys_body};
ghost use Rattle.json_requests.specs.JsonFields.{json_at, all_items, fields_view};

use crate::ask::BodyError;
use crate::fields::at;
use crate::place::{caller_in, exactly_items, items_in, key_in};
use crate::value::item;
use desk_words::{Caller, KeyRow, KeyRows, ListFault};
use json::Value;
use std::alloc::Global;

/// A row is a pair of a caller, `OFFICE` or a party, and its key.
#[tactic(auto, unfolding(crate::specs::KeyBodies::key_row_of))]
fn key_row(value: &Value<'_>) -> Result<KeyRow, BodyError>
    ensures agrees { BodyAgrees id result (key_row_of (view value.now)) }
    ensures sure { IfErr result (λ why. why ≡ Unreadable) }
{
    exactly_items(value, 2)?;
    let caller = caller_in(item(value, 0))?;
    let secret = key_in(item(value, 1))?;
    Ok(KeyRow { caller, secret })
}

fn rows_from(alloc: Global, items: &[Value<'_>]) -> Result<Vec<KeyRow>, BodyError>
    ensures { BodyAgrees (λ v. v.items) result (all_items key_row_of (items_view items.now)) }
{
    let mut found = Vec::new(alloc);
    for item in items {
        let row = key_row(item)?;
        // The checker of borrows misses the types of a value's fields unless they are named here.
        let caller: Caller = row.caller;
        found.push(KeyRow { caller, ..row })?;
    }
    Ok(found)
}

fn listed(rows: Vec<KeyRow>) -> Result<KeyRows, BodyError>
    ensures { BodyAgrees id result (key_list_of rows.items) }
{
    match KeyRows::new(rows) {
        Ok(rows) => Ok(rows),
        Err(ListFault::Limit) => Err(BodyError::Unreadable),
        Err(ListFault::Memory) => Err(BodyError::Memory),
    }
}

#[tactic(auto, unfolding(crate::specs::KeyBodies::key_rows_in))]
fn key_rows_in(alloc: Global, place: Option<&Value<'_>>) -> Result<KeyRows, BodyError>
    ensures { BodyAgrees id result (key_rows_in (json_at place.entry)) }
{
    let items = items_in(place)?;
    let rows = rows_from(alloc, items)?;
    listed(rows)
}

/// The field of the loading of keys: `rows`, which are pairs of `OFFICE` or a party, and its key, at
/// most 40,000, with no caller and no key twice.
pub(crate) const KEYS: &[&str] = &["rows"];

/// The keys that the field loads.
#[tactic(auto, unfolding(crate::specs::KeyBodies::keys_body))]
pub(crate) fn keys(alloc: Global, fields: &[Option<Value<'_>>]) -> Result<KeyRows, BodyError>
    ensures { BodyAgrees id result (keys_body (fields_view fields.now)) }
{
    let [rows] = fields else {
        return Err(BodyError::Unreadable);
    };
    key_rows_in(alloc, at(rows))
}
