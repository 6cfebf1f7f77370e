//! Bodies of requests, which are JSON.
ghost use Rattle.serde_json.specs.Read.{read};
ghost use Rattle.std.specs.Prelude.{◌≡◌, ◌≤◌, None, length, replicate, take, true};
ghost use Rattle.json_requests.specs.JsonFields.{fields_view};
ghost use Rattle.json_requests.specs.declared.fields.TheConstants.{MOST_FIELDS};
ghost use Rattle.json_requests.specs.MemberFields.{all_differ, texts};
ghost use Rattle.json_requests.specs.ParsedBodies.{BodyAgrees};
ghost use Rattle.json_requests.specs.PlainBodies.{all_plain};
ghost use Rattle.json_requests.specs.Bodies.{body_of, fields_from};

use crate::ask::BodyError;
use crate::fields::{Fields, read_object};
use crate::plain::has_read_flat;
use json::{Reader, Scratch};
use std::alloc::Global;

/// Puts each value of the object that a text is to the place of its name. The reader has large
/// locals, for which a caller is not to pay.
#[inline(never)]
fn read_text<'a>(
    alloc: Global,
    scratch: &'a mut Scratch,
    names: &[&str],
    fields: &mut Fields<'a>,
    text: &'a str,
) -> Result<(), BodyError>
    requires few { length names.now ≤ MOST_FIELDS }
    requires none { fields.old ≡ replicate MOST_FIELDS None }
    requires differ { all_differ (texts names.now) ≡ true }
    ensures { BodyAgrees (λ _. fields_view (take (length names.now) fields.new)) result
        (fields_from (texts names.now) (read text.now)) }
{
    let mut reader = Reader::new(text, scratch)?;
    read_object(alloc, &mut reader, names, fields)?;
    if reader.next().is_some() {
        return Err(BodyError::Unreadable);
    }
    Ok(())
}

/// The same, where a plain object is read in one pass.
fn read_json_text<'a>(
    alloc: Global,
    scratch: &'a mut Scratch,
    names: &[&str],
    fields: &mut Fields<'a>,
    text: &'a str,
) -> Result<(), BodyError>
    requires few { length names.now ≤ MOST_FIELDS }
    requires none { fields.old ≡ replicate MOST_FIELDS None }
    requires differ { all_differ (texts names.now) ≡ true }
    requires plain { all_plain (texts names.now) ≡ true }
    ensures { BodyAgrees (λ _. fields_view (take (length names.now) fields.new)) result
        (fields_from (texts names.now) (read text.now)) }
{
    if has_read_flat(alloc, names, fields, text) {
        Ok(())
    } else {
        read_text(alloc, scratch, names, fields, text)
    }
}

/// Puts each value of the object that a body is to the place of its name, where there was nothing;
/// an empty body stands for an object with no fields. The places are lent, so that no value is
/// copied on the way out.
pub(crate) fn read_fields<'a>(
    alloc: Global,
    scratch: &'a mut Scratch,
    names: &[&str],
    fields: &mut Fields<'a>,
    body: &'a str,
) -> Result<(), BodyError>
    requires few { length names.now ≤ MOST_FIELDS }
    requires none { fields.old ≡ replicate MOST_FIELDS None }
    requires differ { all_differ (texts names.now) ≡ true }
    requires plain { all_plain (texts names.now) ≡ true }
    ensures { BodyAgrees (λ _. fields_view (take (length names.now) fields.new)) result
        (fields_from (texts names.now) (body_of body.now)) }
{
    if body.as_bytes().is_empty() {
        Ok(())
    } else {
        read_json_text(alloc, scratch, names, fields, body)
    }
}
