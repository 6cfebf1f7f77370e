//! A database in memory, with a desk over it or without.
use crate::calls;
use crate::plain::PlainDesk;
use byte_io::{SliceSource, VecSink};
use case_desks::{Asker, MemoryDesk};
use case_steps::Handed;
use cli_exit::Ended;
use desk_store::HandedBack;
use desk_words::{Call, Caller, Failure, MeetingId, Moment, SecretKey};
use meeting_core::Book;
use sqlite::{Connection, MemStore};
use std::alloc::{AllocError, Global};
use std::mem;

/// Where the tables are.
#[derive(Drop)]
pub enum Held {
    /// In a database that no desk has.
    Connection(Connection<MemStore>),
    /// With a desk.
    Desk(PlainDesk<MemStore>),
    /// A refusal handed back their store alone.
    Nowhere,
}

/// A database in memory, with a desk over it or without. It alone names the store, so that what
/// uses it proves nothing of that store again.
pub struct Tables {
    alloc: Global,
    held: Held,
}

// It is written out, so that a caller does not prove again how each part is dropped.
impl Drop for Tables {
    fn drop(self) {
        let Tables { alloc: _, held: _ } = self;
    }
}

/// Makes a desk of a database, and tells how that ended.
fn created(alloc: Global, conn: Connection<MemStore>) -> (Held, &'static str) {
    if !conn.is_autocommit() {
        return (Held::Connection(conn), "a transaction");
    }
    match calls::create(alloc, conn) {
        Ok(desk) => (Held::Desk(PlainDesk { desk }), "created"),
        Err((word, conn)) => (Held::Connection(conn), word),
    }
}

/// Opens a database as a desk, and tells how that ended.
fn opened(alloc: Global, conn: Connection<MemStore>) -> (Held, &'static str) {
    if !conn.is_autocommit() {
        return (Held::Connection(conn), "a transaction");
    }
    match calls::open(alloc, conn) {
        Ok(desk) => (Held::Desk(PlainDesk { desk }), "opened"),
        Err((word, HandedBack::Connection(conn))) => (Held::Connection(conn), word),
        Err((word, HandedBack::Store(_))) => (Held::Nowhere, word),
    }
}

impl Tables {
    fn desk(&mut self) -> Option<&mut PlainDesk<MemStore>> {
        match &mut self.held {
            Held::Desk(desk) => Some(desk),
            _ => None,
        }
    }
}

impl MemoryDesk for Tables {
    fn new(alloc: Global) -> Result<Tables, AllocError> {
        let held = Held::Connection(Connection::open_in_memory(alloc)?);
        Ok(Tables { alloc, held })
    }

    fn create(&mut self) -> &'static str {
        let (held, word) = match mem::replace(&mut self.held, Held::Nowhere) {
            Held::Connection(conn) => created(self.alloc, conn),
            held => (held, "no database"),
        };
        self.held = held;
        word
    }

    fn open(&mut self) -> &'static str {
        let (held, word) = match mem::replace(&mut self.held, Held::Nowhere) {
            Held::Connection(conn) => opened(self.alloc, conn),
            held => (held, "no database"),
        };
        self.held = held;
        word
    }

    fn close(&mut self) -> &'static str {
        let (held, word) = match mem::replace(&mut self.held, Held::Nowhere) {
            Held::Desk(plain) => (Held::Connection(plain.into_desk().close()), "closed"),
            held => (held, "no desk"),
        };
        self.held = held;
        word
    }

    fn execute(&mut self, sql: &str) -> &'static str {
        match &mut self.held {
            Held::Connection(conn) => {
                if calls::execute(conn, sql) {
                    "done"
                } else {
                    "not done"
                }
            }
            _ => "no database",
        }
    }

    fn perform(&mut self, call: Call, is_shown: bool) -> Option<Result<Vec<u8>, Failure>> {
        let alloc = self.alloc;
        Some(case_desks::perform(alloc, self.desk()?, call, is_shown))
    }

    fn serve(&mut self, now: Moment, request: &[u8], sink: &mut VecSink) -> bool {
        let alloc = self.alloc;
        let mut source = SliceSource::new(request);
        match self.desk() {
            Some(desk) => case_desks::serve(alloc, desk, now, &mut source, sink).is_ok(),
            None => false,
        }
    }

    fn load(&mut self, handed: &Handed) -> Option<Ended> {
        let alloc = self.alloc;
        Some(case_desks::load(alloc, self.desk()?, handed))
    }

    fn results(&mut self, meeting: MeetingId, sink: &mut VecSink) -> Option<Ended> {
        let alloc = self.alloc;
        Some(calls::print(alloc, &mut self.desk()?.desk, meeting, sink))
    }

    fn caller_of(&mut self, key: &SecretKey) -> Option<Result<Option<Caller>, Failure>> {
        Some(case_desks::caller_of(self.desk()?, key))
    }

    fn book(&mut self) -> Option<Result<Book, Failure>> {
        Some(calls::book(&mut self.desk()?.desk))
    }

    fn reads_like(&mut self, asker: &Asker, book: &Book) -> Result<bool, AllocError> {
        let alloc = self.alloc;
        match self.desk() {
            Some(plain) => calls::reads_like(alloc, &mut plain.desk, asker, book),
            None => Ok(false),
        }
    }
}
