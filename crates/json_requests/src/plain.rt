//! Bodies in the plain form that most have: an object with the fields that are asked for, in their
//! order and with no space, whose values are numbers of digits and strings with no escape. They are
//! read in one pass. What has another form is left to the reading of any JSON.
ghost use Rattle.std.specs.Prelude.{◌≡◌, [], ◌<◌, ◌≤◌, ◌∷◌, ◌++◌, ◌==◌, ◌&&◌, length, replicate, take, IfSome, IsFalse, IsTrue, None, Some, is_some, nat_lt, slice_index, true};
ghost use Rattle.json.specs.Print.{token_text, IsNumber};
ghost use Rattle.json.specs.Token.{key};
ghost use Rattle.serde_json.specs.Read.{number_of, read};
ghost use Rattle.json_requests.specs.Bodies.{fields_from};
ghost use Rattle.json_requests.specs.JsonFields.{fields_view};
ghost use Rattle.json_requests.specs.MemberFields.{all_differ, texts};
ghost use Rattle.json_requests.specs.PlainBodies.{all_plain, are_plain, comma_before, is_plain, BeginsStrings, BeginsWith, PutsMember, PutsMembers};
ghost use Rattle.json_requests.specs.declared.fields.TheConstants.{MOST_FIELDS};

use crate::fields::{Fields, no_values, put};
use crate::number::digits_number;
use json::Value;
use std::alloc::Global;

/// What stands behind an ASCII byte, where a text begins with it.
#[inline(always)]
fn behind(text: &str, byte: u8) -> Option<&str>
    requires { byte < 128 }
    ensures { IfSome result (λ rest. text.now ≡ byte ∷ rest.now) }
{
    let bytes = text.as_bytes();
    if bytes.is_empty() || bytes[0] != byte {
        return None;
    }
    Some(&text[1..])
}

/// Whether a byte stands in a string for itself.
#[inline(always)]
fn is_plain(byte: u8) -> bool
    ensures { result ≡ is_plain byte }
{
    byte >= 32 && byte != b'"' && byte != b'\\'
}

/// How many bytes at the front stand in a string for themselves.
#[inline(always)]
fn plain_len(bytes: &[u8]) -> usize
    ensures plain { are_plain (take result bytes.now) ≡ true }
    ensures bound { result ≤ length bytes.now }
{
    let mut count = 0;
    while count < bytes.len() && is_plain(bytes[count]) {
        count += 1;
    }
    count
}

/// How many digits stand at the front.
#[inline(always)]
fn digits_len(bytes: &[u8]) -> usize
    ensures { result ≤ length bytes.now }
{
    let mut count = 0;
    while count < bytes.len() && bytes[count].is_ascii_digit() {
        count += 1;
    }
    count
}

/// The plain text before a quotation mark, and what stands behind the mark.
#[inline(always)]
fn quoted_front(text: &str) -> Option<(&str, &str)>
    ensures text { IfSome result (λ p. text.now ≡ p.0.now ++ 34 ∷ p.1.now) }
    ensures plain { IfSome result (λ p. are_plain p.0.now ≡ true) }
{
    let bytes = text.as_bytes();
    let len = plain_len(bytes);
    if len >= bytes.len() || bytes[len] != b'"' {
        return None;
    }
    Some((&text[..len], &text[len + 1..]))
}

/// The plain string that a text begins with, and what stands behind it.
#[inline(always)]
fn string_front(text: &str) -> Option<(&str, &str)>
    ensures text { IfSome result (λ p. text.now ≡ 34 ∷ (p.0.now ++ 34 ∷ p.1.now)) }
    ensures plain { IfSome result (λ p. are_plain p.0.now ≡ true) }
{
    let inner = behind(text, b'"')?;
    let (string, rest) = quoted_front(inner)?;
    Some((string, rest))
}

/// Whether a text of digits has a zero in front of others, which a number has not.
#[inline(always)]
fn is_padded(digits: &[u8]) -> bool
    ensures { result ≡ (nat_lt 1 (length digits.now) && slice_index digits.now 0 == 48) }
{
    digits.len() > 1 && digits[0] == b'0'
}

/// The number that a text begins with, and what stands behind it.
#[inline(always)]
fn number_front(text: &str) -> Option<(&str, &str)>
    ensures text { IfSome result (λ p. text.now ≡ p.0.now ++ p.1.now) }
    ensures number { IfSome result (λ p. IsNumber p.0.now) }
    ensures fits { IfSome result (λ p. is_some (number_of p.0.now) ≡ true) }
{
    let bytes = text.as_bytes();
    let len = digits_len(bytes);
    if len >= bytes.len() || bytes[len] >= 128 {
        return None;
    }
    let (number, rest) = (&text[..len], &text[len..]);
    let digits = number.as_bytes();
    if is_padded(digits) {
        return None;
    }
    match digits_number(digits) {
        Some(_) => Some((number, rest)),
        None => None,
    }
}

/// The string that a text begins with, as a value, and what stands behind it.
#[inline(always)]
fn string_value<'a>(text: &'a str) -> Option<(Value<'a>, &'a str)>
    ensures { IfSome result (λ p. BeginsWith p.0 text.now p.1.now) }
{
    let (string, rest) = string_front(text)?;
    Some((Value::String(string), rest))
}

/// The number that a text begins with, as a value, and what stands behind it.
#[inline(always)]
fn number_value<'a>(text: &'a str) -> Option<(Value<'a>, &'a str)>
    ensures { IfSome result (λ p. BeginsWith p.0 text.now p.1.now) }
{
    let (number, rest) = number_front(text)?;
    Some((Value::Number(number), rest))
}

/// What stands behind the comma before a member or an item, which the first one has not.
#[inline(always)]
fn behind_comma(text: &str, place: usize) -> Option<&str>
    ensures { IfSome result (λ rest. text.now ≡ comma_before (nat_lt 0 place) ++ rest.now) }
{
    if place == 0 {
        Some(text)
    } else {
        behind(text, b',')
    }
}

/// Adds a value. It gives nothing where memory is short.
#[inline(always)]
fn pushed<'a>(values: &mut Vec<Value<'a>>, value: Value<'a>) -> Option<()>
    ensures { IfSome result (λ _. values.new.items ≡ values.old.items ++ value.entry ∷ []) }
{
    match values.push(value) {
        Ok(()) => Some(()),
        Err(_) => None,
    }
}

/// The plain strings up to the bracket that ends an array, and what stands behind that bracket. It
/// gives nothing where memory is short, too.
fn strings_front<'a>(alloc: Global, text: &'a str) -> Option<(Vec<Value<'a>>, &'a str)>
    ensures { IfSome result (λ p. BeginsStrings p.0.items text.now (93 ∷ p.1.now)) }
{
    let mut found = Vec::new(alloc);
    let mut rest = text;
    while !rest.as_bytes().starts_with(b"]") {
        let item = behind_comma(rest, found.as_slice().len())?;
        let (string, left) = string_front(item)?;
        pushed(&mut found, Value::String(string))?;
        rest = left;
    }
    let behind_all = behind(rest, b']')?;
    Some((found, behind_all))
}

/// The array of plain strings that a text begins with, and what stands behind it.
fn array_value<'a>(alloc: Global, text: &'a str) -> Option<(Value<'a>, &'a str)>
    ensures { IfSome result (λ p. BeginsWith p.0 text.now p.1.now) }
{
    let inner = behind(text, b'[')?;
    let (strings, rest) = strings_front(alloc, inner)?;
    Some((Value::Array(strings), rest))
}

/// The value of one token that a text begins with, and what stands behind it.
#[inline(always)]
fn single_value<'a>(text: &'a str) -> Option<(Value<'a>, &'a str)>
    ensures { IfSome result (λ p. BeginsWith p.0 text.now p.1.now) }
{
    match string_value(text) {
        Some(both) => Some(both),
        None => number_value(text),
    }
}

/// The value that a text begins with, and what stands behind it.
#[inline(always)]
fn value_front<'a>(alloc: Global, text: &'a str) -> Option<(Value<'a>, &'a str)>
    ensures { IfSome result (λ p. BeginsWith p.0 text.now p.1.now) }
{
    match single_value(text) {
        Some(both) => Some(both),
        None => array_value(alloc, text),
    }
}

/// What stands behind a name and a quotation mark, where a text begins with them.
#[inline(always)]
fn behind_name<'a>(text: &'a str, name: &str) -> Option<&'a str>
    ensures { IfSome result (λ rest. text.now ≡ name.now ++ 34 ∷ rest.now) }
{
    let bytes = text.as_bytes();
    let len = name.len();
    if len >= bytes.len() || bytes[len] != b'"' {
        return None;
    }
    if &text[..len] == name {
        Some(&text[len + 1..])
    } else {
        None
    }
}

/// What stands behind a name in quotation marks and its colon, where a text begins with them.
#[inline(always)]
fn behind_key<'a>(text: &'a str, name: &str) -> Option<&'a str>
    requires { are_plain name.now ≡ true }
    ensures { IfSome result (λ rest. text.now ≡ token_text (key name.now) ++ rest.now) }
{
    let inner = behind(text, b'"')?;
    let rest = behind_name(inner, name)?;
    let left = behind(rest, b':')?;
    Some(left)
}

/// Puts the value of a member that a text begins with in its place, and gives what stands behind it.
#[inline(always)]
fn member_front<'a>(
    alloc: Global,
    fields: &mut Fields<'a>,
    place: usize,
    name: &str,
    text: &'a str,
) -> Option<&'a str>
    requires place { place < MOST_FIELDS }
    requires plain { are_plain name.now ≡ true }
    ensures { IfSome result (λ rest. PutsMember
        place name.now fields.old fields.new text.now rest.now) }
{
    let member = behind_comma(text, place)?;
    let value_text = behind_key(member, name)?;
    let (value, rest) = value_front(alloc, value_text)?;
    put(fields, place, value);
    Some(rest)
}

/// Puts the values of the members that a text begins with in their places, and gives what stands
/// behind them. Where it gives nothing, some values may be in their places.
#[inline(always)]
fn members_front<'a>(
    alloc: Global,
    names: &[&str],
    fields: &mut Fields<'a>,
    text: &'a str,
) -> Option<&'a str>
    requires few { length names.now ≤ MOST_FIELDS }
    requires none { fields.old ≡ replicate MOST_FIELDS None }
    requires differ { all_differ (texts names.now) ≡ true }
    requires plain { all_plain (texts names.now) ≡ true }
    ensures { IfSome result (λ rest. PutsMembers names.now
        (take (length names.now) fields.new) text.now rest.now) }
{
    let mut rest = text;
    for place in 0..names.len() {
        rest = member_front(alloc, fields, place, names[place], rest)?;
    }
    Some(rest)
}

/// Puts the values of a plain object in their places. Where it is `false`, the text may be another
/// JSON, and some values may be in their places.
fn has_read_plain<'a>(alloc: Global, names: &[&str], fields: &mut Fields<'a>, text: &'a str) -> bool
    requires few { length names.now ≤ MOST_FIELDS }
    requires none { fields.old ≡ replicate MOST_FIELDS None }
    requires differ { all_differ (texts names.now) ≡ true }
    requires plain { all_plain (texts names.now) ≡ true }
    ensures { IsTrue result → fields_from (texts names.now) (read text.now)
        ≡ Some (fields_view (take (length names.now) fields.new)) }
{
    let Some(members) = behind(text, b'{') else {
        return false;
    };
    match members_front(alloc, names, fields, members) {
        Some(rest) => rest == "}",
        None => false,
    }
}

/// Whether a text does not end in an array of arrays, so that it may be a plain object.
fn is_flat(text: &str) -> bool {
    !matches!(text.as_bytes(), [.., b']', b']', b'}'])
}

/// The same, with nothing in the places where it is `false`.
pub(crate) fn has_read_flat<'a>(
    alloc: Global,
    names: &[&str],
    fields: &mut Fields<'a>,
    text: &'a str,
) -> bool
    requires few { length names.now ≤ MOST_FIELDS }
    requires none { fields.old ≡ replicate MOST_FIELDS None }
    requires differ { all_differ (texts names.now) ≡ true }
    requires plain { all_plain (texts names.now) ≡ true }
    ensures read { IsTrue result → fields_from (texts names.now) (read text.now)
        ≡ Some (fields_view (take (length names.now) fields.new)) }
    ensures none { IsFalse result → fields.new ≡ replicate MOST_FIELDS None }
{
    if !is_flat(text) {
        return false;
    }
    if has_read_plain(alloc, names, fields, text) {
        return true;
    }
    *fields = no_values();
    false
}
