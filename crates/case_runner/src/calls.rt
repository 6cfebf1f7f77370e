//! Calls of a desk over any store. They promise no more than safety, so what makes them at a store of
//! its own proves nothing of what they do.
use crate::faults::{create_word, open_word};
use byte_io::Sink;
use case_desks::{Asker, is_given};
use cli_exit::Ended;
use desk_papers::show_results;
use desk_store::{Desk, HandedBack, OwnedRecord};
use desk_words::{Failure, MeetingId};
use meeting_core::Book;
use party_views::OwnView;
use sqlite::{Alter, Connection};
use std::alloc::{AllocError, Global};

/// Prints the results of a meeting.
pub fn print<S: Alter, W: Sink>(
    alloc: Global,
    desk: &mut Desk<S>,
    meeting: MeetingId,
    sink: &mut W,
) -> Ended {
    match desk.read_public(meeting) {
        Ok(found) => show_results(alloc, &found.record(), sink),
        Err(failure) => Ended::by_failure(failure),
    }
}

/// What a desk holds.
pub fn book<S: Alter>(desk: &mut Desk<S>) -> Result<Book, Failure> {
    desk.book()
}

/// What a desk reads of a meeting for everyone; none where that fails.
fn read_public<S: Alter>(desk: &mut Desk<S>, asker: &Asker) -> Option<OwnedRecord> {
    desk.read_public(asker.meeting).ok()
}

/// What a desk reads of a party's own things; none where that fails.
fn read_own<S: Alter>(desk: &mut Desk<S>, asker: &Asker) -> Option<OwnView> {
    desk.read_own(asker.party, asker.meeting, asker.moment).ok()
}

/// Whether a desk reads of a party in a meeting, and of that meeting, what a book gives.
pub fn reads_like<S: Alter>(
    alloc: Global,
    desk: &mut Desk<S>,
    asker: &Asker,
    book: &Book,
) -> Result<bool, AllocError> {
    let Some(found) = read_public(desk, asker) else {
        return Ok(false);
    };
    let Some(own) = read_own(desk, asker) else {
        return Ok(false);
    };
    is_given(alloc, asker, book, &own, &found.record())
}

/// Makes a desk of a database, or hands it back with the word of the fault.
pub fn create<S: Alter + Drop>(
    alloc: Global,
    conn: Connection<S>,
) -> Result<Desk<S>, (&'static str, Connection<S>)> {
    match Desk::create(alloc, conn) {
        Ok(desk) => Ok(desk),
        Err((fault, conn)) => Err((create_word(fault), conn)),
    }
}

/// Opens a database as a desk, or hands it back with the word of the fault.
pub fn open<S: Alter + Drop>(
    alloc: Global,
    conn: Connection<S>,
) -> Result<Desk<S>, (&'static str, HandedBack<S>)> {
    match Desk::open(alloc, conn) {
        Ok(desk) => Ok(desk),
        Err((fault, back)) => Err((open_word(fault), back)),
    }
}

/// Runs a statement on a database that no desk has, and tells whether it was done.
pub fn execute<S: Alter>(conn: &mut Connection<S>, sql: &str) -> bool {
    conn.execute(sql, &[]).is_ok()
}
