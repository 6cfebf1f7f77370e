//! What is asked by the steps that ask no desk.
use crate::endings::{fault_answer, refusal_answer, well_ended};
use crate::files::file_answer;
use crate::findings::Answer;
use crate::plans::words_answer;
use crate::requests::{cut_answer, failing_answer, request_answer};
use std::alloc::{AllocError, Global};

/// The answer to a command with what is given; none where no such command asks no desk.
pub fn answer(
    alloc: Global,
    command: &str,
    words: &str,
    given: &[u8],
) -> Option<Result<Answer, AllocError>> {
    match command {
        "file" => Some(file_answer(alloc, words, given)),
        "words" => Some(words_answer(alloc, given)),
        "fault" => Some(fault_answer(alloc, words)),
        "refusal" => Some(refusal_answer(alloc, words)),
        "done" => Some(well_ended(alloc)),
        "request" => Some(request_answer(alloc, given)),
        "request-cut" => Some(cut_answer(alloc, given)),
        "request-failing" => Some(failing_answer(alloc, given)),
        _ => None,
    }
}
