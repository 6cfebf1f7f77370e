//! The calls of a book that no replay makes, each by itself, with ample memory.
use crate::book::{answered, open_poll};
use desk_words::{MeetingId, read_meeting, read_moment, read_party};
use meeting_core::Book;
use std::alloc::Global;
use std::test::Fail;

fn june() -> Result<MeetingId, Fail> {
    Ok(read_meeting(b"G1").ok_or("a meeting")?)
}

fn is_public(book: &Book) -> Result<bool, Fail> {
    Ok(book.public_of(june()?).meeting().is_some())
}

/// Whether Ada's own things say that she is present.
fn is_ada_present(book: &Book) -> Result<bool, Fail> {
    let ada = read_party(b"M1").ok_or("a party")?;
    let now = read_moment(b"2026-06-18T10:06:00").ok_or("a moment")?;
    Ok(!book.own_of(ada, june()?, now)?.presences.is_empty())
}

#[test]
fn a_book_shows_what_is_public_and_what_is_own(rt: HostRuntime) -> Result<(), Fail> {
    let book = open_poll(rt.alloc())?;
    assert!(rt; is_public(&book)? && is_ada_present(&book)?);
    Ok(())
}

const BOS: &[u8] =
    br#"{"authorised":[],"casts":[{"as":"member","from":1,"member":"M2","resolution":1,"to":50,"way":"against"}],"demands":[],"given":[],"meeting":"G1","ok":"mine","persons":[],"present":true,"received":[],"row":{"kind":"individual","name":"Bo","paid":100,"shares":50}}"#;

#[test]
fn a_book_goes_step_by_step(rt: HostRuntime) -> Result<(), Fail> {
    let mut book = open_poll(rt.alloc())?;
    let mine = answered(rt.alloc(), &mut book, "2026-06-18T10:07:00 M2 G1 mine {}")?;
    assert!(rt; mine.as_slice() == BOS);
    Ok(())
}
