//! The length of the body that a head announces.
ghost use Rattle.std.specs.Prelude.{◌≡◌, ◌+◌, ◌≤◌, length, map, min, All, IsTrue};
ghost use Rattle.std.specs.List.{list_all};
ghost use Rattle.std.specs.Char.{is_ascii_digit};
ghost use Rattle.std.specs.Prelude.{codes};
ghost use Rattle.std.specs.Str.Parse.{digits_value};
ghost use Rattle.httparse.specs.Spans.{IsHeaderWithin, header_bytes};
ghost use Rattle.http_heads.specs.Fields.{values_of};
ghost use Rattle.http_heads.specs.Length.{is_number, length_in, length_given, body_length};

use crate::fields::{Values, values_of};
use httparse::spans::HeaderSpan;

/// The most bytes that a body has.
pub const LONGEST_BODY: usize = 65_536;

/// The length of the body that a head announces.
#[derive(Clone, Copy, Debug, PartialEq, Eq)]
pub enum BodyLength {
    /// So many bytes, at most 65,536.
    Bytes(usize),
    /// More than 65,536 bytes.
    TooLarge,
    /// A length that is no number, two lengths, or a transfer encoding.
    Unreadable,
}

/// Whether each byte is a digit.
fn are_digits(bytes: &[u8]) -> bool
    ensures { result ≡ list_all is_ascii_digit bytes.now }
{
    bytes.iter().all(|byte| byte.is_ascii_digit())
}

/// Whether the bytes are one or more digits, and nothing else.
fn is_number(bytes: &[u8]) -> bool
    ensures { result ≡ is_number bytes.now }
{
    !bytes.is_empty() && are_digits(bytes)
}

/// The number that the digits write, or one past the limit where it is larger.
fn capped_number(digits: &[u8]) -> usize
    requires { IsTrue (list_all is_ascii_digit digits.now) }
    ensures { result ≡ min (digits_value 10 digits.now) (LONGEST_BODY + 1) }
{
    let mut number = 0;
    for digit in digits {
        number = (number * 10 + usize::from(*digit - b'0')).min(LONGEST_BODY + 1);
    }
    number
}

/// The length that a value of `Content-Length` gives.
fn length_in(value: &[u8]) -> BodyLength
    ensures { result ≡ length_in value.now }
{
    if !is_number(value) {
        return BodyLength::Unreadable;
    }
    let number = capped_number(value);
    if number <= LONGEST_BODY {
        BodyLength::Bytes(number)
    } else {
        BodyLength::TooLarge
    }
}

/// The length that the fields of the name `Content-Length` give.
fn length_given(bytes: &[u8], fields: &[HeaderSpan]) -> BodyLength
    requires { All (IsHeaderWithin (length bytes.now)) fields.now }
    ensures { result ≡ length_given
        (values_of (codes "content-length") (map (header_bytes bytes.now) fields.now)) }
{
    match values_of(bytes, fields, b"content-length") {
        Values::Absent => BodyLength::Bytes(0),
        Values::One(value) => length_in(value),
        Values::Several => BodyLength::Unreadable,
    }
}

/// The length of the body that the fields announce. They are places in the bytes.
pub(crate) fn body_length(bytes: &[u8], fields: &[HeaderSpan]) -> BodyLength
    requires { All (IsHeaderWithin (length bytes.now)) fields.now }
    ensures { result ≡ body_length (map (header_bytes bytes.now) fields.now) }
{
    let given = length_given(bytes, fields);
    match (given, values_of(bytes, fields, b"transfer-encoding")) {
        (_, Values::Absent) | (BodyLength::TooLarge, _) => given,
        _ => BodyLength::Unreadable,
    }
}
