//! What was received, answered and written.
ghost use Rattle.std.specs.Prelude.{◌≡◌, OnErr, OnOk};
ghost use Rattle.desk_http.specs.Served.{FailsWriting, OnFault, Replies, FailureTextHolds};
ghost use Rattle.desk_http.specs.Served.{WritesPart, WritesText, as_write, failure_text};
ghost use Rattle.desk_http.specs.declared.answers.AnswerError.TheVariants.{CutOff};
ghost use Rattle.desk_http.specs.declared.serve.ServeFault.TheVariants.{Read, Write};
ghost use Rattle.http_routes.specs.ReplyTexts.{reply_text};

use crate::answers::{AnswerError, Answered, answer};
use any_office::Office;
use byte_io::{DeviceError, Sink, write_all};
use desk_words::{Failure, Moment};
use http_requests::ReceivedRequest;
use http_routes::{failure_reply, write_reply};
use std::alloc::Global;

/// Why a request was not served to its end.
#[derive(Clone, Copy, Debug, PartialEq, Eq)]
pub enum ServeFault {
    /// A read failed before the request had come whole. Nothing was written or changed.
    Read,
    /// A write failed. What was written is a part of the reply's text from its front, and never all
    /// of it; the call stands, if one was made.
    Write,
}

/// Writes a reply.
fn write_answered<W: Sink>(answered: &Answered, writer: &mut W) -> Result<(), DeviceError>
    ensures written { OnOk result (WritesText W.Sink writer.old writer.new
        (reply_text answered.now.status answered.now.body.items)) }
    ensures works { OnOk result (W.failures writer.new ≡ W.failures writer.old) }
    ensures failed { OnErr result (FailsWriting W.Sink writer.old writer.new) }
    ensures partly { OnErr result (WritesPart W.Sink writer.old writer.new
        (reply_text answered.now.status answered.now.body.items)) }
{
    write_reply(answered.status, &answered.body, writer)
}

/// Writes the fixed text that tells of a failure.
fn write_failure<W: Sink>(failure: Failure, writer: &mut W) -> Result<(), DeviceError>
    ensures written { OnOk result (WritesText W.Sink writer.old writer.new (failure_text failure)) }
    ensures works { OnOk result (W.failures writer.new ≡ W.failures writer.old) }
    ensures failed { OnErr result (FailsWriting W.Sink writer.old writer.new) }
    ensures partly { OnErr result (WritesPart W.Sink writer.old writer.new (failure_text failure)) }
{
    write_all(writer, failure_reply(failure).as_bytes())
}

/// What is returned for the write that ends a request.
fn sent(written: Result<(), DeviceError>) -> Result<(), ServeFault>
    ensures { result ≡ as_write written }
{
    written.map_err(|_| ServeFault::Write)
}

/// Writes the fixed text of a failure; nothing where the request was cut off.
fn write_unanswered<W: Sink>(why: AnswerError, writer: &mut W) -> Result<(), ServeFault>
    ensures served { OnOk result (FailureTextHolds why (WritesText W.Sink writer.old writer.new)) }
    ensures partly { OnFault result Write
        (FailureTextHolds why (WritesPart W.Sink writer.old writer.new)) }
    ensures unread { OnFault result Read ((why ≡ CutOff) × (writer.new ≡ writer.old)) }
    ensures works { OnOk result (W.failures writer.new ≡ W.failures writer.old) }
    ensures failed { OnFault result Write (FailsWriting W.Sink writer.old writer.new) }
{
    match why {
        AnswerError::Failure(failure) => sent(write_failure(failure, writer)),
        AnswerError::CutOff => Err(ServeFault::Read),
    }
}

/// Answers what was received, at a moment, by an office, and writes the reply.
///
/// The text is that of the reply, and the office is the one after the call, if one was made; or it
/// is a fixed text that tells of a failure, which takes no memory, and the office is as it was. At
/// most one call is tried, as `answer` tries it. The fault is `Write` where a write failed, and
/// `Read` only where the source of what was received had failed in the body: nothing is then written
/// or changed.
pub fn reply_to<O: Office, W: Sink>(
    alloc: Global,
    office: &mut O,
    moment: Moment,
    received: ReceivedRequest,
    writer: &mut W,
) -> Result<(), ServeFault>
    ensures { Replies O.Office W.Sink moment received result office.old office.new
        writer.old writer.new }
{
    match answer(alloc, office, moment, received) {
        Ok(answered) => sent(write_answered(&answered, writer)),
        Err(why) => write_unanswered(why, writer),
    }
}
