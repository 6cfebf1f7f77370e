//! Requests over HTTP, answered by an office in memory, without tables.
use crate::book::call;
use crate::office::moment;
use byte_io::{SliceSource, VecSink};
use desk_http::serve_one;
use meeting_core::Book;
use std::alloc::Global;
use std::test::Fail;

/// The key of the office.
const KEYS: &str = r#"2026-06-01T08:00:00 OFFICE - keys {"rows":[["OFFICE","oooooooooooooooo"]]}"#;

/// The body that calls a meeting.
const MEETING: &str = "{\"company\":\"private\",\"kind\":\"general\",\"given\":\"2026-06-01\",\
                       \"appointed\":\"2026-06-18T10:00:00\",\"record\":\"2026-06-16T18:00:00\",\
                       \"resolutions\":[[\"ordinary\",\"Accounts\"],[\"special\",\"New articles\"]]}";

const CALLED: &str = "HTTP/1.1 200 OK\r\nContent-Type: application/json\r\n\
                      Content-Length: 15\r\nConnection: close\r\n\r\n\
                      {\"ok\":\"called\"}";

pub(crate) const NO_KEY: &str = "HTTP/1.1 401 Unauthorized\r\nContent-Type: application/json\r\n\
                      Content-Length: 26\r\nConnection: close\r\n\r\n\
                      {\"code\":1,\"refused\":\"Key\"}";

const EXISTS: &str = "HTTP/1.1 409 Conflict\r\nContent-Type: application/json\r\n\
                      Content-Length: 29\r\nConnection: close\r\n\r\n\
                      {\"code\":9,\"refused\":\"Exists\"}";

/// An office in memory, with a key of its own.
fn new_book(alloc: Global) -> Result<Book, Fail> {
    let call = call(alloc, KEYS)?;
    let mut book = Book::new(alloc);
    book.step(call)?;
    Ok(book)
}

/// What is written where a meeting is called with a key.
fn call_with(alloc: Global, book: &mut Book, key: &str) -> Result<VecSink, Fail> {
    let now = moment("2026-06-01T09:00:00")?;
    let size = MEETING.len();
    let request = format!(in alloc;
        "POST /m/G1/call HTTP/1.1\r\nDesk-Key: {key}\r\n\
                                     Content-Length: {size}\r\n\r\n{MEETING}"
    )?;
    let mut source = SliceSource::new(request.as_bytes());
    let mut sink = VecSink::new(alloc);
    serve_one(alloc, book, now, &mut source, &mut sink)?;
    Ok(sink)
}

/// Whether this is written where a meeting is called with a key.
fn is_sent(alloc: Global, book: &mut Book, key: &str, reply: &str) -> Result<bool, Fail> {
    Ok(call_with(alloc, book, key)?.as_slice() == reply.as_bytes())
}

// A key that is nobody's changes nothing, and a meeting is called once.
#[test]
fn a_book_answers_over_http(rt: HostRuntime) -> Result<(), Fail> {
    let mut book = new_book(rt.alloc())?;
    assert!(rt; is_sent(rt.alloc(), &mut book, "nnnnnnnnnnnnnnnn", NO_KEY)?);
    assert!(rt; is_sent(rt.alloc(), &mut book, "oooooooooooooooo", CALLED)?);
    assert!(rt; is_sent(rt.alloc(), &mut book, "oooooooooooooooo", EXISTS)?);
    Ok(())
}
