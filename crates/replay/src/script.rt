//! A replay: a script of requests, answered line by line on an office.
ghost use Rattle.std.specs.Prelude.{◌≡◌, ◌≤◌, ◌<◌, ◌+◌, ◌-◌, ◌++◌, true, false, Ok, length, IfOk, IfErr, OnOk, OnErr, IfSome, Option, Result};
ghost use Rattle.std.specs.Io.KnownBytes.{Appends, IsAtEnd};
ghost use Rattle.any_office.specs.OfficeRuns.{LeavesOffice};
ghost use Rattle.byte_io.specs.Written.{AppendsPrefix};
ghost use Rattle.byte_io.specs.Counts.{one_more};
ghost use Rattle.line_reader.specs.Lines.{lines_of};
ghost use Rattle.line_reader.specs.NextLine.{longest_input, longest_line, unread, SameWhole};
ghost use Rattle.json_replies.specs.Replies.{failure_bytes, reply_bytes};
ghost use Rattle.desk_words.specs.declared.office.OfficeLists.{OfficeLists};
ghost use Rattle.desk_words.specs.declared.reply.Failure.{Failure};
ghost use Rattle.desk_words.specs.declared.reply.Failure.TheVariants.{Memory};
ghost use Rattle.desk_words.specs.declared.reply.Reply.TheVariants.{Refused};
ghost use Rattle.desk_words.specs.declared.request.Call.{Call};
ghost use Rattle.replay.specs.Gathered.{IsGathered};
ghost use Rattle.replay.specs.ReplayRuns.{as_line};
ghost use Rattle.replay.specs.Transcript.{text_or_failure, AreAnswered, AreAnsweredOn, IsReplayedUntil, IsReplayedUntilOn, OfOpenOffice};
ghost use Rattle.replay.specs.ReplaySteps.{replay_state, AnswersLine, Turns, Stops, HasEndedFor};

use crate::gathered::Gathered;
use crate::line::{Scratch, call_of};
use any_office::Office;
use byte_io::{DeviceError, Sink, Source};
use desk_words::{Boxed, Failure, Refusal, Reply};
use json_replies::{LastNotice, ReplyText, reply_text_by, reply_text_in};
use json_requests::Ask;
use line_reader::{LineReader, NextLine, ReadFault};
use meeting_core::Book;
use std::alloc::{AllocError, Global};
use std::mem::replace;

/// Why a replay ended before its input did.
#[derive(Clone, Copy, PartialEq, Eq)]
pub enum ReplayFault {
    /// The reader failed, or gave more than 16,777,216 bytes.
    Read,
    /// The writer failed.
    Write,
}

impl From<ReadFault> for ReplayFault {
    ghost use Rattle.std.specs.Prelude.{◌≡◌};
    ghost use Rattle.replay.specs.declared.script.ReplayFault.{ReplayFault};

    ghost from_gives = { λ _ fault. fault ≡ ReplayFault.Read };

    fn from(_: ReadFault) -> ReplayFault {
        ReplayFault::Read
    }
}

impl From<DeviceError> for ReplayFault {
    ghost use Rattle.std.specs.Prelude.{◌≡◌};
    ghost use Rattle.replay.specs.declared.script.ReplayFault.{ReplayFault};

    ghost from_gives = { λ _ fault. fault ≡ ReplayFault.Write };

    fn from(_: DeviceError) -> ReplayFault {
        ReplayFault::Write
    }
}

/// What is kept from one line to the next, so that a line takes less memory.
#[derive(Drop)]
struct Rooms {
    alloc: Global,
    /// For the reading of a line.
    scratch: Scratch,
    /// For the text of an answer.
    text: Vec<u8>,
    /// The last notice that was an answer, which mostly is the next one too.
    last: Option<Boxed<LastNotice>>,
}

impl Rooms {
    /// No room yet.
    fn new(alloc: Global) -> Rooms {
        Rooms {
            alloc,
            scratch: Scratch::new(alloc),
            text: Vec::new(alloc),
            last: None,
        }
    }

    /// The room for the text of an answer, which is none until it is given back.
    fn take_text(&mut self) -> Vec<u8> {
        replace(&mut self.text, Vec::new(self.alloc))
    }

    /// The text of an answer. A notice takes the place of the one before.
    fn remember(&mut self, shown: ReplyText) -> Vec<u8>
        ensures { result ≡ shown.text }
    {
        let ReplyText { text, notice } = shown;
        if let Some(notice) = notice {
            self.last = Some(notice);
        }
        text
    }

    /// Gives the room of a text back, if it has any.
    fn give_back(&mut self, text: Result<Vec<u8>, Failure>) {
        if let Ok(text) = text {
            self.text = text;
        }
    }
}

/// The line that gives a reply, in the room of a buffer.
fn reply_line(room: Vec<u8>, reply: &Reply) -> Result<Vec<u8>, AllocError>
    ensures { IfOk result (λ text. text.items ≡ as_line (reply_bytes reply.now)) }
{
    let mut text = reply_text_in(room, reply)?;
    text.push(b'\n')?;
    Ok(text)
}

/// The line that gives a reply, as `reply_line` does. The last notice again gives the same text, and
/// another one is handed on with its text.
#[inline(always)]
fn line_by(
    alloc: Global,
    room: Vec<u8>,
    last: &Option<Boxed<LastNotice>>,
    reply: &Reply,
) -> Result<ReplyText, AllocError>
    ensures { IfOk result (λ shown. shown.text.items ≡ as_line (reply_bytes reply.now)) }
{
    let ReplyText {
        text: mut line,
        notice,
    } = reply_text_by(alloc, room, last, reply)?;
    line.push(b'\n')?;
    Ok(ReplyText { text: line, notice })
}

/// The line that tells of a failure. It takes no memory, since there may be none left.
fn failure_line(failure: Failure) -> &'static [u8]
    ensures { result.now ≡ as_line (failure_bytes failure) }
{
    match failure {
        Failure::Store => b"{\"failed\":\"Store\"}\n",
        Failure::Memory => b"{\"failed\":\"Memory\"}\n",
    }
}

/// The line that refuses what is no call.
fn refusal_line(alloc: Global, refusal: Refusal) -> Result<Vec<u8>, Failure>
    ensures text { IfOk result (λ text. text.items ≡ as_line (reply_bytes (Refused refusal))) }
    ensures cause { IfErr result (λ why. why ≡ Memory) }
{
    match reply_line(Vec::new(alloc), &Reply::Refused(refusal)) {
        Ok(text) => Ok(text),
        Err(AllocError) => Err(Failure::Memory),
    }
}

/// Answers one line that is neither empty nor too long. The text is made before the call is made to
/// last, so that a text which is refused memory changes nothing.
fn answer<O: Office>(rooms: &mut Rooms, office: &mut O, line: &[u8]) -> Result<Vec<u8>, Failure>
    requires some { 0 < length line.now }
    requires short { length line.now ≤ longest_line }
    ensures answers { OfOpenOffice O.Office office.old office.new
        (λ it. AnswersLine O.Office it line.now result office.new) }
    ensures leaves { (made : Option Call) × LeavesOffice O.Office made office.old office.new }
{
    match call_of(rooms.alloc, &mut rooms.scratch, line) {
        Ok(call) => {
            let room = rooms.take_text();
            let (alloc, last) = (rooms.alloc, &rooms.last);
            match office.perform(call, |reply| line_by(alloc, room, last, reply)) {
                Ok(shown) => Ok(rooms.remember(shown)),
                Err(failure) => Err(failure),
            }
        }
        Err(Ask::Refused(refusal)) => refusal_line(rooms.alloc, refusal),
        Err(Ask::Memory) => Err(Failure::Memory),
    }
}

/// Puts the line that answers behind what waits, or, where there is none, the line that tells why.
fn put_answer<W: Sink>(
    gathered: &mut Gathered,
    writer: &mut W,
    text: &Result<Vec<u8>, Failure>,
) -> Result<(), DeviceError>
    ensures waits { OnOk result (IsGathered (W.contents writer.old) (W.contents writer.new)
        gathered.new (gathered.old ++ text_or_failure text.now)) }
    ensures partly { OnErr result (AppendsPrefix (W.contents writer.old) (W.contents writer.new)
        (gathered.old ++ text_or_failure text.now)) }
    ensures works { OnOk result (W.failures writer.new ≡ W.failures writer.old) }
    ensures failed { OnErr result (W.failures writer.new ≡ one_more (W.failures writer.old)) }
{
    match text {
        Ok(text) => gathered.put(writer, text),
        Err(failure) => gathered.put(writer, failure_line(*failure)),
    }
}

/// Takes one line and answers it. What waits is written before the reader is asked for more.
/// `false` says that there was no line.
fn turn<O: Office, R: Source, W: Sink>(
    rooms: &mut Rooms,
    office: &mut O,
    lines: &mut LineReader,
    reader: &mut R,
    gathered: &mut Gathered,
    writer: &mut W,
) -> Result<bool, ReplayFault>
    ensures turns { IfOk result (λ more. OfOpenOffice O.Office office.old office.new
        (λ it. (after : OfficeLists) × O.stands office.new after × Turns O.may_fail more
        (replay_state (unread lines.old.pending (R.remaining reader.old)) it
        (W.contents writer.old) gathered.old)
        (replay_state (unread lines.new.pending (R.remaining reader.new)) after
        (W.contents writer.new) gathered.new))) }
    ensures stops { IfErr result (λ fault. OfOpenOffice O.Office office.old office.new
        (λ it. (after : OfficeLists) × O.stands office.new after
        × Stops O.may_fail fault (R.remaining reader.new)
        (replay_state (unread lines.old.pending (R.remaining reader.old)) it
        (W.contents writer.old) gathered.old)
        (replay_state (unread lines.new.pending (R.remaining reader.new)) after
        (W.contents writer.new) gathered.new))) }
    ensures leaves { (made : Option Call) × LeavesOffice O.Office made office.old office.new }
    ensures cause { IfErr result (λ fault. HasEndedFor fault lines.new.taken
        (record { of_reader = R.failures reader.old; of_writer = W.failures writer.old })
        (record { of_reader = R.failures reader.new; of_writer = W.failures writer.new })) }
    ensures works { OnOk result ((R.failures reader.new ≡ R.failures reader.old)
        × (W.failures writer.new ≡ W.failures writer.old)) }
    ensures counted { lines.new.taken + R.passed reader.old
        ≡ lines.old.taken + R.passed reader.new }
    ensures whole { SameWhole lines.old.taken (R.remaining reader.old)
        lines.new.taken (R.remaining reader.new) }

    // Each turn but the last gives some bytes of an input that has so many at most.
    ensures moves { result ≡ Ok true
        → lines.old.taken + length lines.new.pending < lines.new.taken + length lines.old.pending }
    ensures bound { lines.new.taken ≤ longest_input + 1 }
    ensures end { result ≡ Ok false
        → IsAtEnd (R.remaining reader.new) × (lines.new.taken ≤ longest_input) }
{
    gathered.write_before_read(writer, lines)?;
    let text = match lines.next_line(reader)? {
        NextLine::End => return Ok(false),
        NextLine::TooLong => refusal_line(rooms.alloc, Refusal::TooLarge),
        NextLine::Whole => {
            let line = lines.line();
            if line.is_empty() {
                return Ok(true);
            }
            answer(rooms, office, line)
        }
    };
    put_answer(gathered, writer, &text)?;
    rooms.give_back(text);
    Ok(true)
}

/// Answers the lines of the reader, one by one, on an office: for each line that is not empty it
/// writes one reply and a line feed. Answers are gathered, and written before the reader is asked
/// for more bytes, or where more than 65,536 bytes would wait.
///
/// A line is a moment, a caller, a meeting, a verb and a body, parted at its first four spaces. One
/// whose reading, step or text was refused memory, or whose call failed, is answered by the
/// failure's text and changes nothing. Where all goes well the reader is at its end, and gave at
/// most 16,777,216 bytes; it is never asked for more than one byte above that. The fault is `Read`
/// only where the reader failed in this call, or gave more bytes than that, and `Write` only where
/// the writer failed. On `Read` the first lines are answered, each with its line feed, at least all
/// whose own line feed came; on `Write` the answers to the lines that were read since the last write
/// may be cut or missing.
///
/// What is answered is promised where the office is reliable and open afterwards. It then stores
/// the office after the run of the calls of these lines.
pub fn replay_on<O: Office, R: Source, W: Sink>(
    alloc: Global,
    office: &mut O,
    reader: &mut R,
    writer: &mut W,
) -> Result<(), ReplayFault>
    ensures replayed { OnOk result (OfOpenOffice O.Office office.old office.new
        (λ it. IfSome (R.remaining reader.old)
        (λ input. AreAnsweredOn O.may_fail it (O.stands office.new) (lines_of input)
        (Appends (W.contents writer.old) (W.contents writer.new))))) }
    ensures until { IfErr result (λ fault. OfOpenOffice O.Office office.old office.new
        (λ it. IfSome (R.remaining reader.old)
        (λ input. IsReplayedUntilOn O.may_fail it (O.stands office.new) fault input
        (R.passed reader.new - R.passed reader.old)
        (W.contents writer.old) (W.contents writer.new)))) }
    ensures works { OnOk result ((R.failures reader.new ≡ R.failures reader.old)
        × (W.failures writer.new ≡ W.failures writer.old)) }
    ensures cause { IfErr result (λ fault. HasEndedFor fault
        (R.passed reader.new - R.passed reader.old)
        (record { of_reader = R.failures reader.old; of_writer = W.failures writer.old })
        (record { of_reader = R.failures reader.new; of_writer = W.failures writer.new })) }
    ensures end { OnOk result (IsAtEnd (R.remaining reader.new)) }
    ensures whole { OnOk result (R.passed reader.new - R.passed reader.old ≤ longest_input) }
    ensures bound { R.passed reader.new - R.passed reader.old ≤ longest_input + 1 }
{
    let mut lines = LineReader::new();
    let mut rooms = Rooms::new(alloc);
    let mut gathered = Gathered::new(alloc);
    while turn(
        &mut rooms,
        office,
        &mut lines,
        reader,
        &mut gathered,
        writer,
    )? {}
    Ok(())
}

/// Answers the lines of the reader as `replay_on` does, on a book that begins as the empty office.
/// A line fails only where it was refused memory.
pub fn replay<R: Source, W: Sink>(
    alloc: Global,
    reader: &mut R,
    writer: &mut W,
) -> Result<(), ReplayFault>
    ensures replayed { OnOk result (IfSome (R.remaining reader.old)
        (λ input. AreAnswered (lines_of input) (W.contents writer.old) (W.contents writer.new))) }
    ensures until { IfErr result (λ fault. IfSome (R.remaining reader.old)
        (λ input. IsReplayedUntil fault input (R.passed reader.new - R.passed reader.old)
        (W.contents writer.old) (W.contents writer.new))) }
    ensures works { OnOk result ((R.failures reader.new ≡ R.failures reader.old)
        × (W.failures writer.new ≡ W.failures writer.old)) }
    ensures cause { IfErr result (λ fault. HasEndedFor fault
        (R.passed reader.new - R.passed reader.old)
        (record { of_reader = R.failures reader.old; of_writer = W.failures writer.old })
        (record { of_reader = R.failures reader.new; of_writer = W.failures writer.new })) }
    ensures end { OnOk result (IsAtEnd (R.remaining reader.new)) }
    ensures whole { OnOk result (R.passed reader.new - R.passed reader.old ≤ longest_input) }
    ensures bound { R.passed reader.new - R.passed reader.old ≤ longest_input + 1 }
{
    let mut book = Book::new(alloc);
    replay_on(alloc, &mut book, reader, writer)
}
