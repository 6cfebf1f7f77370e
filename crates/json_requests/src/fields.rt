//! The fields of the object that a body is: what stands at each of the names that are asked for. They
//! are read from one token after another, with no tree of the object.
ghost use Rattle.std.specs.Prelude.{◌≡◌, ◌≤◌, ◌<◌, length, replicate, None, Some, Option, List, ℕ, OnOk, IfSome, slice_set, take, bytes_eq, option_map, true};
ghost use Rattle.std.specs.Borrow.{Bor};
ghost use Rattle.std.specs.List.{position_from};
ghost use Rattle.json.specs.Json as tree;
ghost use Rattle.json.specs.Value.{value_view};
ghost use Rattle.json_requests.specs.BodyValues.{view};
ghost use Rattle.json_requests.specs.JsonFields.{fields_view, json_at};
ghost use Rattle.json_requests.specs.MemberFields.{object_read, after_begin_object, all_differ, fields_read, fitting, nested, texts};
ghost use Rattle.json_requests.specs.ParsedBodies.{BodyAgrees};

use crate::ask::BodyError;
use crate::number::fits;
use json::{Error, Reader, Token, Value};
use std::alloc::Global;

/// The most fields that are asked for.
pub(crate) const MOST_FIELDS: usize = 6;

/// How deep arrays and objects may nest in a body.
const MOST_NESTED: usize = 127;

/// What stands at each of the names that are asked for, in their order, and nothing in the places
/// behind them.
pub(crate) type Fields<'a> = [Option<Value<'a>>; MOST_FIELDS];

/// Nothing in each of the places.
#[inline(always)]
pub(crate) fn no_values<'a>() -> Fields<'a>
    ensures { result ≡ replicate MOST_FIELDS None }
{
    [None, None, None, None, None, None]
}

/// Drops the arrays and objects among values. No other value owns memory.
#[inline(always)]
pub(crate) fn drop_owners(values: &mut Fields<'_>) {
    for value in values.iter_mut() {
        if let Some(Value::Array(_) | Value::Object(_)) = value {
            *value = None;
        }
    }
}

/// What stands there, if anything does.
pub(crate) fn at<'v, 'a>(place: &'v Option<Value<'a>>) -> Option<&'v Value<'a>>
    ensures { json_at result ≡ option_map view place.now }
{
    place.as_ref()
}

/// The first place of a name among those that are asked for.
#[inline(never)]
fn first_place(names: &[&str], name: &str) -> Option<usize>
    ensures first { result
        ≡ position_from (λ (own : Bor (List ℕ)). bytes_eq own.now name.now) 0 names.now }
    ensures bound { IfSome result (λ place. place < length names.now) }
{
    names.iter().position(|own| *own == name)
}

/// The place of a name among those that are asked for. Most bodies have their fields in the order
/// in which they are asked for, so the place that is expected is looked at first.
fn place_of(names: &[&str], expected: usize, name: &str) -> Option<usize>
    requires { all_differ (texts names.now) ≡ true }
    ensures first { result
        ≡ position_from (λ (own : Bor (List ℕ)). bytes_eq own.now name.now) 0 names.now }
    ensures bound { IfSome result (λ place. place < length names.now) }
{
    if expected < names.len() && names[expected] == name {
        return Some(expected);
    }
    first_place(names, name)
}

/// Puts a value in a place.
#[inline(always)]
pub(crate) fn put<'a>(fields: &mut Fields<'a>, place: usize, value: Value<'a>)
    requires { place < MOST_FIELDS }
    ensures { fields.new ≡ slice_set fields.old place (Some value.entry) }
{
    fields[place] = Some(value);
}

/// The next name, or none at the end of the object.
#[inline(always)]
fn next_name<'a>(reader: &mut Reader<'a>) -> Result<Option<&'a str>, BodyError>
    ensures { BodyAgrees (λ name. (option_map (λ s. s.now) name, reader.new)) result
        (tree.read_key reader.old) }
{
    match reader.next_key() {
        Ok(name) => Ok(name),
        Err(_) => Err(BodyError::Unreadable),
    }
}

/// The next value, in which no number is too large.
#[inline(always)]
fn next_value<'a>(alloc: Global, reader: &mut Reader<'a>) -> Result<Value<'a>, BodyError>
    ensures read { BodyAgrees (λ value. (value_view value, reader.new)) result
        (fitting (tree.value nested reader.old)) }
    ensures shorter { OnOk result (length reader.new < length reader.old) }
{
    let value = match Value::read(alloc, reader, MOST_NESTED - 1) {
        Ok(value) => value,
        Err(Error::Invalid) => return Err(BodyError::Unreadable),
        Err(_) => return Err(BodyError::Memory),
    };
    if fits(&value) {
        Ok(value)
    } else {
        Err(BodyError::Unreadable)
    }
}

/// Puts each value of the members that the reader is at to the place of its name. Of a name that is
/// repeated the last value counts, and what is not asked for is refused.
#[inline(always)]
fn read_members<'a>(
    alloc: Global,
    reader: &mut Reader<'a>,
    names: &[&str],
    fields: &mut Fields<'a>,
) -> Result<(), BodyError>
    requires few { length names.now ≤ MOST_FIELDS }
    requires none { fields.old ≡ replicate MOST_FIELDS None }
    requires differ { all_differ (texts names.now) ≡ true }
    ensures { BodyAgrees (λ _. (fields_view (take (length names.now) fields.new), reader.new)) result
        (fields_read (texts names.now) reader.old) }
{
    let mut expected = 0;
    while let Some(name) = next_name(reader)? {
        let value = next_value(alloc, reader)?;
        match place_of(names, expected, name) {
            Some(place) => {
                put(fields, place, value);
                expected = place + 1;
            }
            None => return Err(BodyError::Unreadable),
        }
    }
    Ok(())
}

/// Takes the brace that opens an object.
#[inline(always)]
fn open_object(reader: &mut Reader<'_>) -> Result<(), BodyError>
    ensures { BodyAgrees (λ _. reader.new) result (after_begin_object reader.old) }
{
    match reader.next() {
        Some(Token::BeginObject) => Ok(()),
        _ => Err(BodyError::Unreadable),
    }
}

/// Puts each value of the object that the reader is at to the place of its name.
#[inline(always)]
pub(crate) fn read_object<'a>(
    alloc: Global,
    reader: &mut Reader<'a>,
    names: &[&str],
    fields: &mut Fields<'a>,
) -> Result<(), BodyError>
    requires few { length names.now ≤ MOST_FIELDS }
    requires none { fields.old ≡ replicate MOST_FIELDS None }
    requires differ { all_differ (texts names.now) ≡ true }
    ensures { BodyAgrees (λ _. (fields_view (take (length names.now) fields.new), reader.new)) result
        (object_read (texts names.now) reader.old) }
{
    open_object(reader)?;
    read_members(alloc, reader, names, fields)
}
