//! What is asked of an office once it is open, and what it answers.
use crate::asked::{Asked, Outcome, failure_word, word};
use crate::devices::{ByteByByte, Request, served_text};
use crate::office_calls;
use any_office::Office;
use byte_io::{FailAt, ShortReads, SliceSource, VecSink};
use desk_http::ServeFault;
use desk_words::read_moment;
use replay::{Scratch, call_of};
use std::alloc::{AllocError, Global};

/// The reply that says that the store failed.
const STORE_FAILED: &[u8] =
    b"HTTP/1.1 503 Service Unavailable\r\nContent-Type: application/json\r\n\
    Content-Length: 18\r\nConnection: close\r\n\r\n{\"failed\":\"Store\"}";

/// What an office replies to a call.
fn call<O: Office>(alloc: Global, office: &mut O, line: &str) -> Outcome {
    match call_of(alloc, &mut Scratch::new(alloc), line.as_bytes()) {
        Ok(call) => office_calls::perform(alloc, office, call, true).map_err(failure_word),
        Err(_) => Err("no call"),
    }
}

/// What was written where a request was served, and before it the fault, if there is one. Nothing is
/// served at a moment that is none.
fn serve<O: Office>(
    alloc: Global,
    office: &mut O,
    request: Request,
) -> Result<Vec<u8>, AllocError> {
    let Some(moment) = read_moment(request.moment.as_bytes()) else {
        return served_text(alloc, "no moment", b"");
    };
    let short = ShortReads::new(SliceSource::new(request.text), 1);
    let mut source = FailAt::new(short, request.read);
    let slow = ByteByByte {
        inner: VecSink::new(alloc),
    };
    let mut sink = FailAt::new(slow, request.write);
    let fault = match office_calls::serve(alloc, office, moment, &mut source, &mut sink) {
        Ok(()) => "",
        Err(ServeFault::Read) => "Read\n",
        Err(ServeFault::Write) => "Write\n",
    };
    served_text(alloc, fault, sink.inner.inner.as_slice())
}

/// What is answered to a request over HTTP: the reply, or `Store` where it is the one that says so.
fn reply<O: Office>(alloc: Global, office: &mut O, request: Request) -> Outcome {
    match serve(alloc, office, request) {
        Ok(text) if text.as_slice() == STORE_FAILED => Err("Store"),
        Ok(text) => Ok(text),
        Err(_) => Err("Memory"),
    }
}

fn ask_once<O: Office>(alloc: Global, office: &mut O, asked: &Asked) -> Outcome {
    match asked {
        Asked::OpenFile => word(alloc, "opened"),
        Asked::Call(line) => call(alloc, office, line),
        Asked::Request(request) => reply(alloc, office, *request),
        _ => Err("no call and no request"),
    }
}

/// What an office answers that was opened as the program opens a file. Where that is `Store` it is
/// asked once more, and has to answer so again.
pub fn ask_office<O: Office>(alloc: Global, office: &mut O, asked: &Asked) -> Outcome {
    match ask_once(alloc, office, asked) {
        Err("Store") => match ask_once(alloc, office, asked) {
            Err("Store") => Err("Store"),
            _ => Err("another answer after Store"),
        },
        answer => answer,
    }
}
