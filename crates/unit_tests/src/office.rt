//! An office in memory, in which one meeting is called, and which is asked over connections.
use crate::book::call;
use byte_io::{ReadDevice, WriteDevice};
use desk_http::{NowError, serve_now};
use desk_words::{Moment, read_moment};
use http_listener::{LoopFault, serve_loop};
use meeting_core::Book;
use std::alloc::Global;
use std::net::TcpStream;
use std::test::Fail;
use tcp_close::Listener;
use wall_clock::Clock;

/// The keys of two parties, and the call of a meeting.
const LINES: &[&str] = &[
    r#"2026-06-01T08:00:00 OFFICE - keys {"rows":[["M1","mmmmmmmmmmmmmmmm"],["Z","zzzzzzzzzzzzzzzz"]]}"#,
    r#"2026-06-01T09:00:00 OFFICE G1 call {"company":"private","kind":"general","given":"2026-06-01","appointed":"2026-06-18T10:00:00","record":"2026-06-16T18:00:00","resolutions":[["ordinary","Accounts"],["special","New articles"]]}"#,
];

/// An office in memory.
#[derive(Drop)]
pub(crate) struct Office {
    alloc: Global,
    book: Book,
}

pub(crate) fn moment(text: &str) -> Result<Moment, Fail> {
    Ok(read_moment(text.as_bytes()).ok_or("a moment")?)
}

fn step_all(alloc: Global, book: &mut Book) -> Result<(), Fail> {
    for &line in LINES {
        book.step(call(alloc, line)?)?;
    }
    Ok(())
}

impl Office {
    /// An office whose lines were all answered.
    pub(crate) fn new(alloc: Global) -> Result<Office, Fail> {
        let mut book = Book::new(alloc);
        step_all(alloc, &mut book)?;
        Ok(Office { alloc, book })
    }

    /// Serves so many connections.
    pub(crate) fn serve_loop<L: Listener, C: Clock>(
        &mut self,
        listener: &mut L,
        clock: &mut C,
        count: u32,
    ) -> Result<(), LoopFault> {
        serve_loop(self.alloc, listener, &mut self.book, clock, count)
    }

    /// Serves the request of one connection.
    pub(crate) fn serve_now<C: Clock>(
        &mut self,
        stream: &TcpStream,
        clock: &mut C,
    ) -> Result<(), NowError> {
        let mut reader = ReadDevice::new(stream);
        let mut writer = WriteDevice::new(stream);
        serve_now(self.alloc, &mut self.book, clock, &mut reader, &mut writer)
    }
}
