//! A desk over a database in memory behind a trait.
use crate::reads::Asker;
use byte_io::VecSink;
use case_steps::Handed;
use cli_exit::Ended;
use desk_words::{Call, Caller, Failure, MeetingId, Moment, SecretKey};
use meeting_core::Book;
use std::alloc::{AllocError, Global};

/// A database in memory, with a desk over it or without.
pub trait MemoryDesk: Drop {
    /// A database without tables, that no desk has. The error is want of memory.
    fn new(alloc: Global) -> Result<Self, AllocError>;

    /// Makes a desk of the database, and tells how that ended.
    fn create(&mut self) -> &'static str;

    /// Opens the database as a desk, and tells how that ended.
    fn open(&mut self) -> &'static str;

    /// Takes the database from the desk, and tells whether there was one.
    fn close(&mut self) -> &'static str;

    /// Runs a statement on a database that no desk has, and tells whether it was done.
    fn execute(&mut self, sql: &str) -> &'static str;

    /// What the desk answers to a call, where there is a desk. Where the reply is not to be shown,
    /// that fails for want of memory.
    fn perform(&mut self, call: Call, is_shown: bool) -> Option<Result<Vec<u8>, Failure>>;

    /// Serves a request over HTTP, where there is a desk, and tells whether that ended well.
    fn serve(&mut self, now: Moment, request: &[u8], sink: &mut VecSink) -> bool;

    /// How the command ends that loads a file, where there is a desk.
    fn load(&mut self, handed: &Handed) -> Option<Ended>;

    /// Prints the results of a meeting, where there is a desk, and gives how that command ends.
    fn results(&mut self, meeting: MeetingId, sink: &mut VecSink) -> Option<Ended>;

    /// The caller whose key it is, where there is a desk.
    fn caller_of(&mut self, key: &SecretKey) -> Option<Result<Option<Caller>, Failure>>;

    /// What the desk holds, where there is a desk.
    fn book(&mut self) -> Option<Result<Book, Failure>>;

    /// Whether the desk reads of a party's own things and of a meeting, each alone, what a book
    /// gives of them. It does not where there is no desk, or it fails.
    fn reads_like(&mut self, asker: &Asker, book: &Book) -> Result<bool, AllocError>;
}
