//! Calls of any office. They promise no more than safety, so what makes them at a store of its own
//! proves nothing of what they do.
use any_office::Office;
use byte_io::{Sink, SliceSource, Source};
use case_steps::{FileKind, Handed};
use cli_commands::{days, keys, register};
use cli_exit::Ended;
use desk_http::{ServeFault, serve_one};
use desk_words::{Call, Caller, Failure, Moment, SecretKey};
use json_replies::reply_text;
use std::alloc::{AllocError, Global};

/// Makes a call, and gives the text of its reply. Where it is not to be shown, that fails for want
/// of memory.
pub fn perform<O: Office>(
    alloc: Global,
    office: &mut O,
    call: Call,
    is_shown: bool,
) -> Result<Vec<u8>, Failure> {
    office.perform(call, |reply| {
        if is_shown {
            reply_text(alloc, reply)
        } else {
            Err(AllocError)
        }
    })
}

/// The caller whose key it is.
pub fn caller_of<O: Office>(office: &mut O, key: &SecretKey) -> Result<Option<Caller>, Failure> {
    office.caller_of(key)
}

/// Serves a request over HTTP.
pub fn serve<O: Office, R: Source, W: Sink>(
    alloc: Global,
    office: &mut O,
    moment: Moment,
    source: &mut R,
    sink: &mut W,
) -> Result<(), ServeFault> {
    serve_one(alloc, office, moment, source, sink)
}

/// Loads a file by a command of the office.
pub fn load<O: Office>(alloc: Global, office: &mut O, handed: &Handed) -> Ended {
    let mut source = SliceSource::new(handed.bytes);
    match handed.kind {
        FileKind::Keys => keys(alloc, office, handed.now, &mut source),
        FileKind::Days => days(alloc, office, handed.now, &mut source),
        FileKind::Register {
            meeting,
            record_moment,
        } => register(
            alloc,
            office,
            handed.now,
            meeting,
            record_moment,
            &mut source,
        ),
    }
}
