//! The values of the fields of a name.
ghost use Rattle.std.specs.Prelude.{◌≡◌, ℕ, List, [], ◌∷◌, ◌++◌, length, map, All, option_copied};
ghost use Rattle.httparse.specs.Spans.{IsHeaderWithin, header_bytes};
ghost use Rattle.http_heads.specs.Fields.{same_field, values_of, only_value};
ghost use Rattle.http_heads.specs.FieldValues.{AreValues};

use httparse::spans::HeaderSpan;

/// The values of the fields of one name.
#[derive(Clone, Copy)]
pub(crate) enum Values<'a> {
    /// No field has the name.
    Absent,
    /// One field has it, with this value.
    One(&'a [u8]),
    /// Two fields or more have it.
    Several,
}

impl<'a> Values<'a> {
    ghost use Rattle.http_heads.specs.FieldValues.{AreValues};

    /// These values and one more.
    fn and(self, value: &'a [u8]) -> Values<'a>
        ensures { (values : List (List ℕ)) → AreValues self.entry values
            → AreValues result (values ++ value.now ∷ []) }
    {
        match self {
            Values::Absent => Values::One(value),
            _ => Values::Several,
        }
    }
}

/// Whether two names are the same, without regard to ASCII case.
fn same_name(a: &[u8], b: &[u8]) -> bool
    ensures { result ≡ same_field a.now b.now }
{
    a.eq_ignore_ascii_case(b)
}

/// The values of the fields of this name, without regard to ASCII case.
///
/// The fields are places in the bytes.
pub(crate) fn values_of<'a>(bytes: &'a [u8], fields: &[HeaderSpan], name: &[u8]) -> Values<'a>
    requires { All (IsHeaderWithin (length bytes.now)) fields.now }
    ensures { AreValues result (values_of name.now (map (header_bytes bytes.now) fields.now)) }
{
    let mut found = Values::Absent;
    for field in fields {
        if same_name(field.name.of(bytes), name) {
            found = found.and(field.value.of(bytes));
        }
    }
    found
}

/// The value of the one field of this name, without regard to ASCII case.
///
/// The fields are places in the bytes.
pub(crate) fn only_value<'a>(
    bytes: &'a [u8],
    fields: &[HeaderSpan],
    name: &[u8],
) -> Option<&'a [u8]>
    requires { All (IsHeaderWithin (length bytes.now)) fields.now }
    ensures { option_copied result
        ≡ only_value name.now (map (header_bytes bytes.now) fields.now) }
{
    match values_of(bytes, fields, name) {
        Values::One(value) => Some(value),
        _ => None,
    }
}
