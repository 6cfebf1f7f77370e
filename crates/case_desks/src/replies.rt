//! What a book replies to lines of a replay.
use json_replies::reply_text;
use meeting_core::Book;
use replay::{Scratch, call_of};
use std::alloc::{AllocError, Global};

/// Adds what a book replies to a call; nothing where the line is none.
fn add_reply(
    alloc: Global,
    book: &Book,
    line: &str,
    shown: &mut Vec<u8>,
) -> Result<(), AllocError> {
    if let Ok(call) = call_of(alloc, &mut Scratch::new(alloc), line.as_bytes()) {
        let (reply, _) = book.decide(&call)?;
        shown.extend_from_slice(&reply_text(alloc, &reply)?)?;
    }
    Ok(shown.push(b'\n')?)
}

/// What a book replies to each of some calls, none of which is made, a line each.
pub fn replies_of(alloc: Global, book: &Book, lines: &[&str]) -> Result<Vec<u8>, AllocError> {
    let mut shown = Vec::new(alloc);
    for line in lines {
        add_reply(alloc, book, line, &mut shown)?;
    }
    Ok(shown)
}
