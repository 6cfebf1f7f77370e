//! Lines of a replay.
ghost use Rattle.std.specs.Prelude.{◌≡◌, ◌<◌, IfErr, IfSome, IsSome, length, option_map, position};
ghost use Rattle.calendar.specs.DateTexts.{moment_of};
ghost use Rattle.vocabulary.specs.Identity.{id};
ghost use Rattle.vocabulary.specs.declared.refusal.Refusal.TheVariants.{Unreadable};
ghost use Rattle.json_requests.specs.RefusalResults.{AskAgrees};
ghost use Rattle.json_requests.specs.declared.ask.Ask.TheVariants.{Memory, Refused};
ghost use Rattle.replay.specs.ReplayLines.{at_first_space, is_space, moment_first, parts_of, parsed_call, text_in};
ghost use Rattle.replay.specs.PartsView.{parts_view, text_view};

use desk_words::{Call, Moment, Refusal, read_caller, read_moment, write_moment};
use json_requests::{Ask, Scratch as BodyScratch, request_of};
use std::alloc::Global;
use std::marker::Model;

const UNREADABLE: Ask = Ask::Refused(Refusal::Unreadable);

const KEY: Ask = Ask::Refused(Refusal::Key);

/// How many letters the text of a moment has.
const MOMENT_LETTERS: usize = 19;

/// A moment, which contracts see, and its text.
#[derive(Drop)]
struct SpelledMoment {
    moment: Moment,
    text: [u8; MOMENT_LETTERS],
}

impl Model for SpelledMoment {
    ghost use Rattle.std.specs.Prelude.{◌≡◌, ℕ, Some};
    ghost use Rattle.calendar.specs.DateTexts.{moment_of};

    ghost Value = { ℕ };

    ghost view = { λ s. s.moment };

    ghost invariant = { λ s. moment_of s.text ≡ Some s.moment };
}

impl SpelledMoment {
    /// The first moment of all.
    fn first() -> SpelledMoment {
        let moment = Moment::first();
        SpelledMoment {
            moment,
            text: write_moment(moment),
        }
    }

    /// The moment of a text. Where it is this one's, it is not read again.
    fn read(&mut self, text: &[u8]) -> Option<Moment>
        ensures { result ≡ moment_of text.now }
    {
        if text == self.text.as_slice() {
            return Some(self.moment);
        }
        let moment = read_moment(text)?;
        if text.len() == MOMENT_LETTERS {
            let mut letters = [0; MOMENT_LETTERS];
            letters.copy_from_slice(text);
            *self = SpelledMoment {
                moment,
                text: letters,
            };
        }
        Some(moment)
    }

    /// The moment before the first space of a line, and what stands after that space. No space is
    /// looked for, since the text of a moment has none.
    fn first_of<'a>(&mut self, line: &'a str) -> Option<(Moment, &'a str)>
        ensures { option_map (λ x. (x.0, x.1.now)) result ≡ moment_first line.now }
    {
        let bytes = line.as_bytes();
        if bytes.len() <= MOMENT_LETTERS || bytes[MOMENT_LETTERS] != b' ' {
            return None;
        }
        let moment = self.read(&bytes[..MOMENT_LETTERS])?;
        Some((moment, &line[MOMENT_LETTERS + 1..]))
    }
}

/// What is kept from one line to the next: the room that the reading of bodies needs, and the last
/// moment, which most lines share with the line before.
#[derive(Drop)]
pub struct Scratch {
    body: BodyScratch,
    last: SpelledMoment,
}

impl Scratch {
    /// No room yet.
    pub fn new(alloc: Global) -> Scratch {
        Scratch {
            body: BodyScratch::new(alloc),
            last: SpelledMoment::first(),
        }
    }
}

/// The parts of a line behind its moment.
#[derive(Clone, Copy)]
pub struct Parts<'a> {
    caller: &'a str,
    meeting: &'a str,
    verb: &'a str,
    body: &'a str,
}

/// The place of the first space.
fn first_space(text: &str) -> Option<usize>
    ensures first { result ≡ position is_space text.now }
    ensures bound { IfSome result (λ place. place < length text.now) }
{
    text.as_bytes().iter().position(|byte| *byte == b' ')
}

/// What stands before the first space, and what stands after it.
fn parted(text: &str) -> Option<(&str, &str)>
    ensures { option_map (λ x. (x.0.now, x.1.now)) result ≡ at_first_space text.now }
{
    let space = first_space(text)?;
    Some((&text[..space], &text[space + 1..]))
}

/// The parts of a line behind its moment, at the first three spaces there.
#[tactic(auto, unfolding(crate::specs::ReplayLines::parts_of))]
fn parts_of(rest: &str) -> Result<Parts<'_>, Ask>
    ensures agrees { AskAgrees parts_view result (parts_of rest.now) }
    ensures sure { IfErr result (λ ask. ask ≡ Refused Unreadable) }
{
    let (caller, rest) = parted(rest).ok_or(UNREADABLE)?;
    let (meeting, rest) = parted(rest).ok_or(UNREADABLE)?;
    let (verb, body) = match parted(rest) {
        Some(both) => both,
        None => (rest, ""),
    };
    Ok(Parts {
        caller,
        meeting,
        verb,
        body,
    })
}

/// The text that bytes are.
fn text_of(bytes: &[u8]) -> Result<&str, Ask>
    ensures agrees { AskAgrees text_view result (text_in bytes.now) }
    ensures sure { IfErr result (λ ask. ask ≡ Refused Unreadable) }
{
    match str::from_utf8(bytes) {
        Ok(text) => Ok(text),
        Err(_) => Err(UNREADABLE),
    }
}

/// The call that a line asks. Its parts are a moment, a caller, a meeting, a verb and a body,
/// separated at the first four spaces; with three spaces the body is empty.
///
/// `Unreadable`: the line is not UTF-8, or has fewer parts or no moment. `Key`: the caller is
/// neither the office nor a party. Then come the refusals of the request. `Memory`: an allocation
/// failed, which it does for no line without a moment. The result does not depend on what `scratch`
/// kept.
#[tactic(auto, unfolding(crate::specs::ReplayLines::parsed_call))]
pub fn call_of(alloc: Global, scratch: &mut Scratch, line: &[u8]) -> Result<Call, Ask>
    ensures agrees { AskAgrees id result (parsed_call line.now) }
    ensures sure { IfErr result (λ ask. ask ≡ Memory → IsSome (moment_first line.now)) }
{
    let text = text_of(line)?;
    let Some((moment, rest)) = scratch.last.first_of(text) else {
        return Err(UNREADABLE);
    };
    let parts = parts_of(rest)?;
    let caller = read_caller(parts.caller.as_bytes()).ok_or(KEY)?;
    let request = request_of(
        alloc,
        &mut scratch.body,
        parts.meeting.as_bytes(),
        parts.verb,
        parts.body,
    )?;
    Ok(Call {
        moment,
        caller,
        request,
    })
}
