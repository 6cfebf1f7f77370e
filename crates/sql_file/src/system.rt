//! The files of the system.
ghost use Rattle.std.specs.Prelude.{◌≡◌, ◌⊎◌};
ghost use Rattle.sql_file.specs.OpenedFiles.{connect_error};
ghost use Rattle.sql_file.specs.declared.files.ConnectError.TheVariants.{Store};

use crate::files::{ConnectError, SystemFiles, TableFile};
use file_probe::{DeskFileError, FileState, find, make_file};
use http_server::Log;
use sql_open::laws::found_rows_rise;
use sqlite::{Connection, Error, ErrorCode, FileFrom, FileStore, Leftover, Start, Wary};
use std::fs;

/// What is supposed of a file and its log as they are opened: what they hold, which only clauses
/// read, and what a power cut leaves of a write. What is written over any `S: Begins` is proved of a
/// file that holds whatever it holds.
pub trait Begins: Start {
    /// A value, to open a file by.
    fn begins() -> Self;
}

impl Begins for Wary {
    fn begins() -> Wary {
        Wary
    }
}

/// The store of a desk's file. With `Wary` it waits for the disk at each commit, and supposes nothing
/// of what a power cut leaves of a write.
pub type DeskFile<S> = FileStore<FileFrom<S>>;

/// Why a file is not opened.
fn by_error(error: Error) -> ConnectError
    ensures { result ≡ connect_error error }
{
    match error {
        Error::SqliteFailure(ErrorCode::CannotOpen) => ConnectError::CannotOpen,
        Error::SqliteFailure(ErrorCode::NotADatabase) => ConnectError::NotADatabase,
        Error::SqliteFailure(ErrorCode::OutOfMemory) => ConnectError::Memory,
        _ => ConnectError::Store,
    }
}

/// Why a file is not opened, of which this is left. It is no database only where it was read.
fn by_refusal<S: Start>(error: Error, left: &Option<Leftover<FileFrom<S>>>) -> ConnectError
    ensures { (result ≡ connect_error error) ⊎ (result ≡ Store) }
{
    match (by_error(error), left) {
        (ConnectError::NotADatabase, None | Some(Leftover::Files(_))) => ConnectError::Store,
        (error, _) => error,
    }
}

impl<S: Begins> TableFile for FileStore<FileFrom<S>> {
    ghost use Rattle.sqlite_wal.specs.Files.{image_at};
    ghost use Rattle.sql_file.specs.SystemHeld.{ClosesIt, FindsFirst, IsReliable, IsUsedUp};
    ghost use Rattle.sql_file.specs.SystemHeld.{MayHold, RefusesIt};
    ghost use Rattle.sql_file.specs.SystemLaws as laws;

    ghost is_reliable = { λ files. IsReliable Self.Store files };

    ghost may_hold = { λ files _ db. MayHold Self.Store (image_at S.Start) files db };

    ghost finds = { λ old _ conn new. FindsFirst Self.Store (image_at S.Start) old conn new };

    ghost refuses = { λ old _ new. RefusesIt Self.Store old new };

    ghost makes = { λ old _ new. new ≡ old };

    ghost removes = { λ _ _ new. IsUsedUp Self.Store new };

    ghost gives_up = { λ old _ _ new. new ≡ old };

    ghost closes = { λ old _ store new. ClosesIt Self.Store old store new };

    fn probe(files: &SystemFiles<Self>, name: &str) -> Result<FileState, DeskFileError> {
        find(&files.system, name)
    }

    fn make_file(files: &mut SystemFiles<Self>, name: &str) -> Result<bool, DeskFileError> {
        make_file(&files.system, name)
    }

    fn remove_file(files: &mut SystemFiles<Self>, name: &str) {
        let _ = fs::remove_file(&files.system, name);
        files.use_up();
    }

    fn connect(
        files: &mut SystemFiles<Self>,
        name: &str,
    ) -> Result<Connection<Self>, ConnectError> {
        if files.is_used {
            return Err(ConnectError::Store);
        }
        found_rows_rise();
        match Connection::open_from(&files.system, name, false, S::begins()) {
            Ok(conn) => {
                files.use_up();
                Ok(conn)
            }
            Err((error, left)) => {
                if left.is_some() {
                    files.use_up();
                }
                Err(by_refusal(error, &left))
            }
        }
    }

    fn give_up(self, _files: &mut SystemFiles<Self>, _name: &str) {}

    fn close(self, files: &mut SystemFiles<Self>, _name: &str) {
        let mut store = self;
        let _ = store.checkpoint();
        files.is_used = true;
        files.let_go = files.let_go.and(&store, &());
        let _ = store.close();
    }

    ghost finds_held = { λ old new name conn finds clean.
        laws.finds_held Self.Store (image_at S.Start) old conn new finds clean };

    ghost refuses_held = { λ old new name db refuses reliable may.
        laws.refuses_held Self.Store (image_at S.Start) old new refuses reliable db may };

    ghost gives_up_held = { λ old between new name conn store finds same reliable.
        absurd (laws.gives_up_held Self.Store (image_at S.Start)
        old between new conn finds same reliable) };

    ghost closes_held = { λ old new name store closes reliable.
        laws.closes_held Self.Store (image_at S.Start) old new store closes reliable };
}
