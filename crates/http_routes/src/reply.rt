//! The texts of replies over HTTP/1.1.
ghost use Rattle.std.specs.Prelude.{◌≡◌, ◌≤◌, ◌++◌, length, OnOk, OnErr};
ghost use Rattle.std.specs.Io.KnownBytes.{Appends};
ghost use Rattle.byte_io.specs.Counts.{one_more};
ghost use Rattle.byte_io.specs.Written.{AppendsPrefix};
ghost use Rattle.http_routes.specs.ReplyTexts.{phrase_of, status_line, header_lines, reply_text, failure_body};

use arrayvec::{ArrayString, ArrayVec};
use byte_io::{DeviceError, Sink, write_all};
use desk_words::Failure;
use http::StatusCode;
use itoa::Buffer;

/// The phrase of a status, or nothing where it has none.
fn phrase_of(status: StatusCode) -> &'static str
    ensures value { result.now ≡ phrase_of status }
    ensures short { length result.now ≤ 31 }
{
    status.canonical_reason().unwrap_or("")
}

/// The room for a head. None has more than 160 bytes: its phrase has at most 31, and the size of its
/// body at most 20 digits.
const HEAD_ROOM: usize = 256;

/// The room for a reply that is written at once. Lists apart, few bodies have more than 1,000 bytes.
const REPLY_ROOM: usize = 2048;

/// The head of a reply with a body of that many bytes: the status line, the headers and the empty
/// line behind them.
fn head(status: StatusCode, size: usize) -> ArrayString<HEAD_ROOM>
    ensures { result.bytes ≡ status_line status ++ header_lines size }
{
    let mut head = ArrayString::new();
    head.push_str("HTTP/1.1 ");
    head.push_str(status.as_str());
    head.push_str(" ");
    head.push_str(phrase_of(status));
    head.push_str("\r\nContent-Type: application/json\r\nContent-Length: ");
    head.push_str(Buffer::new().format(size));
    head.push_str("\r\nConnection: close\r\n\r\n");
    head
}

/// Writes a reply with this status and this body: in one piece, or in two where it is long. It takes
/// no memory.
///
/// An error is one failed write. What was written before it is a part of the reply's text from its
/// front, and never all of it.
pub fn write_reply<W: Sink>(
    status: StatusCode,
    body: &[u8],
    writer: &mut W,
) -> Result<(), DeviceError>
    ensures written { OnOk result
        (Appends (W.contents writer.old) (W.contents writer.new) (reply_text status body.now)) }
    ensures works { OnOk result (W.failures writer.new ≡ W.failures writer.old) }
    ensures failed { OnErr result (W.failures writer.new ≡ one_more (W.failures writer.old)) }
    ensures partly { OnErr result
        (AppendsPrefix (W.contents writer.old) (W.contents writer.new)
        (reply_text status body.now)) }
{
    let head = head(status, body.len());
    let head = head.as_str().as_bytes();
    let mut reply = ArrayVec::<u8, REPLY_ROOM>::new();
    if reply.try_extend_from_slice(head).is_ok() && reply.try_extend_from_slice(body).is_ok() {
        return write_all(writer, reply.as_slice());
    }
    write_all(writer, head)?;
    write_all(writer, body)
}

/// The whole reply that tells of a failure, with status 503. It takes no memory, since there may
/// be none left.
pub fn failure_reply(failure: Failure) -> &'static str
    ensures { result.now ≡ reply_text 503 (failure_body failure) }
{
    match failure {
        Failure::Store => {
            "HTTP/1.1 503 Service Unavailable\r\nContent-Type: application/json\r\nContent-Length: \
            18\r\nConnection: close\r\n\r\n{\"failed\":\"Store\"}"
        }
        Failure::Memory => {
            "HTTP/1.1 503 Service Unavailable\r\nContent-Type: application/json\r\nContent-Length: \
            19\r\nConnection: close\r\n\r\n{\"failed\":\"Memory\"}"
        }
    }
}
