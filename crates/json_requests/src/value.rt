//! What a JSON value is, and what stands in it at an index. A value borrows its text.
ghost use Rattle.std.specs.Prelude.{◌≡◌, option_map, option_and_then};
ghost use Rattle.serde_json.specs.Find.{as_array, as_bool, as_number, as_str, as_u64, at};
ghost use Rattle.json_requests.specs.BodyValues.{items_view, view};
ghost use Rattle.json_requests.specs.JsonFields.{has_items, json_at};

use crate::number::whole_number;
use json::Value;

#[tactic(auto, using(crate::proofs::BodyValueLemmas::str_seen))]
pub(crate) fn as_str<'a>(value: &Value<'a>) -> Option<&'a str>
    ensures { option_map (λ s. s.now) result ≡ as_str (view value.now) }
{
    value.as_str()
}

#[tactic(auto, using(crate::proofs::BodyValueLemmas::bool_seen))]
pub(crate) fn as_bool(value: &Value<'_>) -> Option<bool>
    ensures { result ≡ as_bool (view value.now) }
{
    value.as_bool()
}

/// The whole number below 2^64 that a value is.
pub(crate) fn as_u64(value: &Value<'_>) -> Option<u64>
    ensures { result ≡ option_and_then as_u64 (as_number (view value.now)) }
{
    match value.as_number() {
        Some(text) => whole_number(text),
        None => None,
    }
}

#[tactic(auto, using(crate::proofs::BodyValueLemmas::view_array, crate::proofs::BodyValueLemmas::array_seen))]
pub(crate) fn as_array<'v, 'a>(value: &'v Value<'a>) -> Option<&'v Vec<Value<'a>>>
    ensures { option_map (λ v. items_view v.now.items) result ≡ as_array (view value.now) }
{
    if let Value::Array(items) = value {
        Some(items)
    } else {
        None
    }
}

/// The item at an index.
pub(crate) fn item<'v, 'a>(value: &'v Value<'a>, index: usize) -> Option<&'v Value<'a>>
    ensures { json_at result ≡ at index (view value.now) }
{
    value.at(index)
}

/// Whether a value is an array of so many items.
pub(crate) fn has_items(value: &Value<'_>, count: usize) -> bool
    ensures { result ≡ has_items count (view value.now) }
{
    match as_array(value) {
        Some(items) => items.as_slice().len() == count,
        None => false,
    }
}
