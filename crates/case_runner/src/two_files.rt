//! What is asked of a desk that is kept in two files.
ghost use Rattle.std.specs.Prelude.{◌≡◌, false, IfOk, IsTrue};
ghost use Rattle.sql_open.specs.Rising.{RowsRise};
ghost use Rattle.sqlite.specs.Files.{file_state};
ghost use Rattle.sqlite.specs.State.{HasCleanDisk};

use crate::asking::ask;
use case_desks::{Asked, Outcome};
use sql_open::laws::found_rows_rise;
use sqlite::{Connection, FileStore, Files, Options};
use sqlite_disk::Disk;
use std::alloc::Global;

/// Small stores, so that files are quickly opened. A commit copies what the one before it left in
/// the log into the database first.
const OPTIONS: Options = Options {
    cache_pages: 64,
    spill_pages: 64,
    checkpoint_frames: 1,
    seed: 7,
};

/// Opens two files as a database, or hands them back.
fn connect<D: Disk + Drop>(
    alloc: Global,
    files: Files<D>,
) -> Result<Connection<FileStore<D>>, Files<D>>
    requires log { IsTrue (D.Disk.is_usable files.log) }
    requires db { IsTrue (D.Disk.is_usable files.db) }
    ensures ended { IfOk result (λ conn. conn.in_transaction ≡ false) }
    ensures rising { IfOk result (λ conn. HasCleanDisk (file_state conn)
        → RowsRise (file_state conn)) }
{
    found_rows_rise();
    match Connection::open_files(alloc, files, OPTIONS) {
        Ok(conn) => Ok(conn),
        Err((_, left)) => Err(left.into_files()),
    }
}

/// What is answered over two files, which are handed back.
pub fn ask_in<D: Disk + Drop>(alloc: Global, files: Files<D>, asked: &Asked) -> (Outcome, Files<D>)
    requires log { IsTrue (D.Disk.is_usable files.log) }
    requires db { IsTrue (D.Disk.is_usable files.db) }
{
    match connect(alloc, files) {
        Ok(conn) => {
            let (answer, store) = ask(alloc, conn, asked);
            (answer, store.close())
        }
        Err(files) => (Err("Store"), files),
    }
}
