//! Numbers in bodies, whose text is that of a JSON number.
ghost use Rattle.std.specs.Prelude.{◌≡◌, ◌==◌, ◌<◌, length, slice_index, true, false, is_some, option_and_then, IfSome, IsTrue, Some};
ghost use Rattle.std.specs.Str.Parse.{AllDigits};
ghost use Rattle.json.specs.Value as tree;
ghost use Rattle.serde_json.specs.Data.{unsigned};
ghost use Rattle.serde_json.specs.Find.{as_u64};
ghost use Rattle.serde_json.specs.Read.{float_of, number_from, number_of};
ghost use Rattle.json_requests.specs.BodyValues.{fits, items_fit, members_fit};

use fast_float::Numeral;
use json::Value;

fn has_minus(bytes: &[u8]) -> bool
    ensures value { result ≡ (slice_index bytes.now 0 == 45) }
    ensures len { IsTrue result → 0 < length bytes.now }
{
    !bytes.is_empty() && bytes[0] == b'-'
}

#[tactic(auto, using(crate::proofs::NumberLemmas::float_whole))]
fn whole(numeral: &Numeral<'_>) -> Option<u64>
    ensures { result ≡ option_and_then as_u64 (number_from false numeral.now) }
{
    match numeral.to_u64() {
        Some(n) => Some(n),
        None => None,
    }
}

/// The whole number below 2^64 that a text of digits alone is, in one short pass. Of other texts it
/// tells nothing.
pub(crate) fn digits_number(bytes: &[u8]) -> Option<u64>
    ensures number { IfSome result (λ n. number_of bytes.now ≡ Some (unsigned n)) }
    ensures digits { IfSome result (λ _. (0 < length bytes.now) × AllDigits 10 bytes.now) }
{
    if bytes.is_empty() {
        return None;
    }
    let mut number = 0u64;
    for byte in bytes {
        if !byte.is_ascii_digit() {
            return None;
        }
        number = number
            .checked_mul(10)?
            .checked_add(u64::from(*byte - b'0'))?;
    }
    Some(number)
}

/// The whole number below 2^64 that a text of any form is.
#[inline(never)]
fn any_whole_number(bytes: &[u8]) -> Option<u64>
    ensures { result ≡ option_and_then as_u64 (number_of bytes.now) }
{
    if has_minus(bytes) {
        None
    } else {
        whole(&Numeral::scan(bytes))
    }
}

/// The whole number below 2^64 that a text is.
pub(crate) fn whole_number(text: &str) -> Option<u64>
    ensures { result ≡ option_and_then as_u64 (number_of text.now) }
{
    let bytes = text.as_bytes();
    if let Some(number) = digits_number(bytes) {
        Some(number)
    } else {
        any_whole_number(bytes)
    }
}

fn is_finite(negative: bool, numeral: &Numeral<'_>) -> bool
    ensures { result ≡ is_some (float_of negative numeral.now) }
{
    numeral.to_float::<f64>(negative).is_finite()
}

fn positive_fits(numeral: &Numeral<'_>) -> bool
    ensures { result ≡ is_some (number_from false numeral.now) }
{
    match numeral.to_u64() {
        Some(_) => true,
        None => is_finite(false, numeral),
    }
}

fn negative_fits(numeral: &Numeral<'_>) -> bool
    ensures { result ≡ is_some (number_from true numeral.now) }
{
    if let Some(n) = numeral.to_i64(true) {
        if n < 0 {
            return true;
        }
    }
    is_finite(true, numeral)
}

/// Whether a number of any form is not too large for a float.
#[inline(never)]
fn any_number_fits(bytes: &[u8]) -> bool
    ensures { result ≡ is_some (number_of bytes.now) }
{
    if has_minus(bytes) {
        negative_fits(&Numeral::scan(&bytes[1..]))
    } else {
        positive_fits(&Numeral::scan(bytes))
    }
}

/// Whether a number is not too large for a float.
fn number_fits(text: &str) -> bool
    ensures { result ≡ is_some (number_of text.now) }
{
    let bytes = text.as_bytes();
    digits_number(bytes).is_some() || any_number_fits(bytes)
}

/// Whether no number in a value is too large for a float.
#[cycle(fits)]
#[inline(always)]
pub(crate) fn fits(value: &Value<'_>) -> bool
    ensures { result ≡ fits (tree.value_view value.now) }
{
    match value {
        Value::Number(text) => number_fits(*text),
        Value::Array(items) => items_fit(items),
        Value::Object(members) => members_fit(members),
        _ => true,
    }
}

#[cycle(fits)]
#[inline(never)]
fn items_fit(items: &Vec<Value<'_>>) -> bool
    ensures { result ≡ items_fit (tree.items_view items.now.items) }
{
    for item in items {
        if !fits(item) {
            return false;
        }
    }
    true
}

#[cycle(fits)]
#[inline(never)]
fn members_fit(members: &Vec<(&str, Value<'_>)>) -> bool
    ensures { result ≡ members_fit (tree.members_view members.now.items) }
{
    for member in members {
        if !fits(&member.1) {
            return false;
        }
    }
    true
}
