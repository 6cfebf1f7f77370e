//! What bytes ask over HTTP, and what is answered where no table is asked.
use crate::findings::Answer;
use crate::request_words::asked_text;
use byte_io::{DeviceError, FailAt, ShortReads, SliceSource, VecSink};
use desk_words::{Refusal, Reply};
use http_requests::{ReceiveError, ReceivedRequest, read_request};
use http_routes::{status_of, write_reply};
use json_replies::reply_text;
use std::alloc::{AllocError, Global};

/// The most bytes of a request that is read one byte at a time too.
const SMALL: usize = 512;

/// How the bytes of a request come: at most so many with a read, of which one fails, or none where
/// its number is 0.
#[derive(Clone, Copy)]
struct Reads {
    most: usize,
    failing: u64,
}

/// The JSON of a refusal.
fn refusal_json(alloc: Global, refusal: Refusal) -> Result<Vec<u8>, AllocError> {
    reply_text(alloc, &Reply::Refused(refusal))
}

/// The whole reply to a refusal.
fn refusal_reply(alloc: Global, refusal: Refusal) -> Result<VecSink, AllocError> {
    let status = status_of(&Reply::Refused(refusal));
    let body = refusal_json(alloc, refusal)?;
    let mut sink = VecSink::new(alloc);
    if write_reply(status, &body, &mut sink).is_err() {
        return Err(AllocError);
    }
    Ok(sink)
}

/// The first line of the reply to a refusal, and its body.
fn refused_text(alloc: Global, refusal: Refusal) -> Result<String, AllocError> {
    let sink = refusal_reply(alloc, refusal)?;
    let text = String::from_utf8_lossy(alloc, sink.as_slice())?;
    let first = text.lines().next().unwrap_or("");
    let last = text.lines().last().unwrap_or("");
    format!(in alloc; "{first} {last}")
}

fn unreceived_text(alloc: Global, why: ReceiveError) -> Result<String, AllocError> {
    match why {
        ReceiveError::Refused(refusal) => refused_text(alloc, refusal),
        ReceiveError::Memory => String::from_str(alloc, "want of memory"),
        ReceiveError::Failed => String::from_str(alloc, "a read failed"),
    }
}

/// What is asked and with which key, or the reply.
fn received_text(alloc: Global, received: &ReceivedRequest) -> Result<String, AllocError> {
    match received {
        ReceivedRequest::Refused(refusal) => refused_text(alloc, *refusal),
        ReceivedRequest::With { key, asked } => {
            let key = key.as_str();
            let text = match asked {
                Ok(request) => asked_text(alloc, request)?,
                Err(why) => unreceived_text(alloc, *why)?,
            };
            format!(in alloc; "{key}: {text}")
        }
    }
}

/// What bytes ask that come so.
fn asked_by(alloc: Global, bytes: &[u8], reads: Reads) -> Result<String, AllocError> {
    let short = ShortReads::new(SliceSource::new(bytes), reads.most.max(1));
    let mut source = FailAt::new(short, reads.failing);
    match read_request(alloc, &mut source) {
        Ok(received) => received_text(alloc, &received),
        Err(DeviceError) => String::from_str(alloc, "a read failed"),
    }
}

/// What the bytes ask. It is wrong where they ask something else when they come in other parts.
pub(crate) fn request_answer(alloc: Global, bytes: &[u8]) -> Result<Answer, AllocError> {
    let ways = if bytes.len() <= SMALL {
        [1, 7]
    } else {
        [1_000, 8_191]
    };
    let at_once = Reads {
        most: bytes.len(),
        failing: 0,
    };
    let mut answer = Answer::new(alloc, asked_by(alloc, bytes, at_once)?);
    for most in ways {
        let other = asked_by(alloc, bytes, Reads { most, failing: 0 })?;
        if other != answer.text {
            writeln!(answer.wrong, "by {most} bytes: {other}")?;
        }
    }
    Ok(answer)
}

/// Answers to a row of numbers, each with the first and the last number of those that have it.
#[derive(Drop)]
struct Runs {
    written: String,
    from: usize,
    to: usize,
    answer: String,
}

impl Runs {
    fn new(alloc: Global) -> Runs {
        Runs {
            written: String::new(alloc),
            from: 0,
            to: 0,
            answer: String::new(alloc),
        }
    }

    /// Ends the run that stands, if there is one.
    fn end(&mut self) -> Result<(), AllocError> {
        if self.answer.is_empty() {
            return Ok(());
        }
        writeln!(
            self.written,
            "{} to {}: {}",
            self.from, self.to, self.answer
        )
    }

    /// Adds the answer to the next number.
    fn add(&mut self, number: usize, answer: String) -> Result<(), AllocError> {
        if answer != self.answer {
            self.end()?;
            self.from = number;
            self.answer = answer;
        }
        self.to = number;
        Ok(())
    }
}

/// What is asked where the input ends after so many of the bytes, from none to all of them.
pub(crate) fn cut_answer(alloc: Global, bytes: &[u8]) -> Result<Answer, AllocError> {
    let mut runs = Runs::new(alloc);
    for count in 0..=bytes.len() {
        let reads = Reads {
            most: count,
            failing: 0,
        };
        let front = bytes.get(..count).unwrap_or(bytes);
        runs.add(count, asked_by(alloc, front, reads)?)?;
    }
    runs.end()?;
    Ok(Answer::new(alloc, runs.written))
}

/// What is asked where the bytes are read one by one, and each read fails in turn: the first one,
/// and on to one more than there are bytes.
pub(crate) fn failing_answer(alloc: Global, bytes: &[u8]) -> Result<Answer, AllocError> {
    let mut runs = Runs::new(alloc);
    for read in 1..=bytes.len().saturating_add(1) {
        let reads = Reads {
            most: 1,
            failing: read as u64,
        };
        runs.add(read, asked_by(alloc, bytes, reads)?)?;
    }
    runs.end()?;
    Ok(Answer::new(alloc, runs.written))
}
