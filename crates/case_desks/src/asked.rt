//! What is asked of a desk in two files, and what is answered.
use crate::devices::Request;
use desk_words::Failure;
use replay::{Scratch, call_of};
use std::alloc::Global;

/// What is asked.
#[derive(Clone, Copy)]
pub enum Asked<'a> {
    /// That a desk is made.
    Create,
    /// That a desk is opened, as any database is.
    Open,
    /// That a desk is opened as the program opens a file.
    OpenFile,
    /// That a statement is run, where no desk is opened.
    Statement(&'a str),
    /// The values of the rows that a statement reads, where no desk is opened.
    Rows(&'a str),
    /// A call, in the form of a line of a replay.
    Call(&'a str),
    /// The rows of all tables, and what the book would reply to each of these calls, none of which
    /// is made.
    Book(&'a [&'a str]),
    /// A request over HTTP.
    Request(Request<'a>),
}

/// What is answered: a text, or the word of a fault.
pub type Outcome = Result<Vec<u8>, &'static str>;

/// The answer that is a word.
pub fn word(alloc: Global, text: &str) -> Outcome {
    match String::from_str(alloc, text) {
        Ok(text) => Ok(text.into_bytes()),
        Err(_) => Err("Memory"),
    }
}

/// The word of a failure.
pub fn failure_word(failure: Failure) -> &'static str {
    match failure {
        Failure::Store => "Store",
        Failure::Memory => "Memory",
    }
}

/// The bytes of what was answered, or of the word of the fault.
pub(crate) fn outcome_bytes(outcome: &Outcome) -> &[u8] {
    match outcome {
        Ok(bytes) => bytes.as_slice(),
        Err(word) => word.as_bytes(),
    }
}

/// Whether a line is a call.
pub(crate) fn is_call(alloc: Global, line: &str) -> bool {
    call_of(alloc, &mut Scratch::new(alloc), line.as_bytes()).is_ok()
}
