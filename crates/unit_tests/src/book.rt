//! A book in which a poll of Ada and Bo is open.
use desk_words::Call;
use json_replies::reply_text;
use meeting_core::Book;
use replay::{Scratch, call_of};
use std::alloc::Global;
use std::test::Fail;

const CALLING: &str =
    r#"2026-06-01T09:00:00 OFFICE G1 call {"company":"private","kind":"general","given":"2026-06-01","appointed":"2026-06-18T10:00:00","record":"2026-06-16T18:00:00","resolutions":[["ordinary","Accounts"],["special","New articles"]]}"#;

/// What opens the poll, and a vote of Bo.
const OPENING: &[&str] = &[
    r#"2026-06-16T18:00:00 OFFICE G1 register {"record":"2026-06-16T18:00:00","rows":[["M1","individual","Ada",100,100],["M2","individual","Bo",50,100]]}"#,
    "2026-06-18T10:00:00 M1 G1 attend {}",
    "2026-06-18T10:00:00 M2 G1 attend {}",
    "2026-06-18T10:00:00 OFFICE G1 open {}",
    r#"2026-06-18T10:05:00 OFFICE G1 order {"resolution":1,"take":"2026-06-18T10:05:00","chair":true}"#,
    r#"2026-06-18T10:05:00 OFFICE G1 start {"resolution":1}"#,
    r#"2026-06-18T10:05:30 M2 G1 cast {"resolution":1,"as":"member","member":"M2","from":1,"to":50,"way":"against"}"#,
];

/// The call that a line makes.
pub(crate) fn call(alloc: Global, line: &str) -> Result<Call, Fail> {
    let mut scratch = Scratch::new(alloc);
    Ok(
        call_of(alloc, &mut scratch, line.as_bytes())
            .ok()
            .ok_or("a call")?,
    )
}

/// The text of the reply of a book to a line.
pub(crate) fn answered(alloc: Global, book: &mut Book, line: &str) -> Result<Vec<u8>, Fail> {
    let reply = book.step(call(alloc, line)?)?;
    Ok(reply_text(alloc, &reply)?)
}

/// The text of the last reply of a book to all these lines.
fn answered_last(alloc: Global, book: &mut Book) -> Result<Vec<u8>, Fail> {
    let mut last = answered(alloc, book, CALLING)?;
    for &line in OPENING {
        last = answered(alloc, book, line)?;
    }
    Ok(last)
}

pub(crate) fn open_poll(alloc: Global) -> Result<Book, Fail> {
    let mut book = Book::new(alloc);
    let last = answered_last(alloc, &mut book)?;
    if last.as_slice() != br#"{"ok":"recorded"}"#.as_slice() {
        return Err("no vote of Bo".into());
    }
    Ok(book)
}
