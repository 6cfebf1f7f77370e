//! The tables of a desk in a file, made and opened.
ghost use Rattle.std.specs.Prelude.{◌≡◌, false, IfErr, IfOk, OnErr};
ghost use Rattle.file_probe.specs.DeskFileErrors.{IsUnmade, IsUnopened};
ghost use Rattle.sql_file.specs.ClosedFiles.{LetsGo};
ghost use Rattle.sql_file.specs.MadeFiles.{Creates, CreatesFile, LeavesNewDesk, MakesIn, MakesTables};
ghost use Rattle.sql_file.specs.MadeFiles.{create_error};
ghost use Rattle.sql_file.specs.OpenedFiles.{OpensFile, OpensTables, RefusesFile, RefusesTables};
ghost use Rattle.sql_file.specs.OpenedFiles.{making_error, open_error, opening_error};
ghost use Rattle.sql_open.specs.Opened.{KeepsOpenTables, SurvivesMaking};
ghost use Rattle.sql_open.specs.Rising.{RowsRise};
ghost use Rattle.sqlite.specs.Held.{state};
ghost use Rattle.sqlite.specs.State.{HasCleanDisk};

use crate::files::{ConnectError, SystemFiles, TableFile};
use file_probe::DeskFileError;
use sql_open::{CreateError, OpenFault};
use sqlite::{Alter, Connection};
use std::alloc::Global;

/// Why no desk is made in a file that is not opened.
fn by_making(error: ConnectError) -> DeskFileError
    ensures { result ≡ making_error error }
{
    match error {
        ConnectError::Memory => DeskFileError::Memory,
        _ => DeskFileError::Store,
    }
}

/// Why no desk is opened in a file that is not opened.
fn by_opening(error: ConnectError) -> DeskFileError
    ensures { result ≡ opening_error error }
{
    match error {
        ConnectError::NotADatabase => DeskFileError::NotADesk,
        ConnectError::Memory => DeskFileError::Memory,
        _ => DeskFileError::Store,
    }
}

/// Why no desk is made in a database.
fn by_create(fault: CreateError) -> DeskFileError
    ensures { result ≡ create_error fault }
{
    match fault {
        CreateError::NotEmpty => DeskFileError::NotEmpty,
        CreateError::Store => DeskFileError::Store,
        CreateError::Memory => DeskFileError::Memory,
    }
}

/// Why a database is not opened as a desk.
fn by_open(fault: OpenFault) -> DeskFileError
    ensures { result ≡ open_error fault }
{
    match fault {
        OpenFault::NotADesk => DeskFileError::NotADesk,
        OpenFault::NewerVersion => DeskFileError::NewerVersion,
        OpenFault::Store => DeskFileError::Store,
        OpenFault::Memory => DeskFileError::Memory,
    }
}

/// Closes the file of that name, of which this is the connection. What is not committed is lost.
pub fn close<S: TableFile>(files: &mut SystemFiles<S>, name: &str, conn: Connection<S>)
    ensures { LetsGo S.closes S.Store files.old name.now conn files.new }
{
    conn.into_store().close(files, name);
}

/// Gives up the file of that name, of which this is the connection. What is not committed is lost.
fn give_up<S: TableFile>(files: &mut SystemFiles<S>, name: &str, conn: Connection<S>)
    ensures { LetsGo S.gives_up S.Store files.old name.now conn files.new }
{
    conn.into_store().give_up(files, name);
}

/// Makes the tables of a new desk in a database. Where it does not, they are as they were. The
/// connection is handed back. Of a desk that is made a crash leaves the desk that holds nothing, and
/// nothing else; otherwise it leaves what it left before, or that.
#[tactic(auto, using(crate::proofs::MakingLemmas::unmade))]
fn init<S: Alter + Drop>(conn: Connection<S>) -> (Result<(), DeskFileError>, Connection<S>)
    ensures creates { Creates (state S.Store conn) (state S.Store result.1) result.0 }
    ensures preserved { OnErr result.0 (KeepsOpenTables S.Store conn result.1) }
    ensures leaves { LeavesNewDesk S.Store result.1 result.0 }
    ensures survives { SurvivesMaking S.Store conn result.1 }
{
    match sql_open::create(conn) {
        Ok(conn) => (Ok(()), conn),
        Err((fault, conn)) => (Err(by_create(fault)), conn),
    }
}

/// Makes the tables of a new desk in the file of that name, of which this is the connection, and
/// closes it.
fn make_in<S: TableFile>(
    files: &mut SystemFiles<S>,
    name: &str,
    conn: Connection<S>,
) -> Result<(), DeskFileError>
    ensures { MakesIn (LetsGo S.closes S.Store) S.Store files.old name.now conn result files.new }
{
    let (made, conn) = init(conn);
    close(files, name, conn);
    made
}

/// Makes the tables of a new desk in a file that there is, and closes it. A file that was made for it
/// is removed where the system refuses its name or that of its log.
fn create_in<S: TableFile>(
    files: &mut SystemFiles<S>,
    name: &str,
    is_new: bool,
) -> Result<(), DeskFileError>
    ensures { MakesTables S.finds S.refuses S.removes (LetsGo S.closes S.Store) S.Store
        files.old name.now result files.new }
{
    match S::connect(files, name) {
        Ok(conn) => make_in(files, name, conn),
        Err(error) => {
            if is_new && error == ConnectError::CannotOpen {
                S::remove_file(files, name);
            }
            Err(by_making(error))
        }
    }
}

/// Makes the tables of a new desk in a file, and closes it. The file is made where it is not there,
/// so that its owner alone can read it, and is not left there where the system refuses its name or
/// that of its log. The error is `NotEmpty` where the file holds a table, an index or a view, or
/// where a desk left its log beside this name and no file, or one that is empty or a single byte:
/// both are left as they are. It is `Store` or `Memory` where it fails.
pub fn create<S: TableFile>(files: &mut SystemFiles<S>, name: &str) -> Result<(), DeskFileError>
    ensures creates { CreatesFile S.finds S.refuses S.removes (LetsGo S.closes S.Store) S.makes
        S.Store files.old name.now result files.new }
    ensures error { IfErr result IsUnmade }
{
    match S::make_file(files, name) {
        Ok(is_new) => create_in::<S>(files, name, is_new),
        Err(error) => Err(error),
    }
}

/// Opens the tables of the desk in a file. Those of version 1 are moved to version 2. A file that
/// is refused is left as it is. One that is not there is not made, and is `Store`. One that is empty
/// or a single byte is `NotADesk`, and so is one whose rows are not as it declares them; beside the
/// log of a desk an empty one is `Store`, and the log is left as it is too.
pub fn open<S: TableFile>(
    alloc: Global,
    files: &mut SystemFiles<S>,
    name: &str,
) -> Result<Connection<S>, DeskFileError>
    ensures opened { IfOk result
        (λ conn. OpensFile S.finds S.Store files.old name.now conn files.new) }
    ensures none { IfOk result (λ conn. conn.in_transaction ≡ false) }
    ensures refused { IfErr result (λ why. RefusesFile S.finds S.refuses
        (LetsGo S.gives_up S.Store) S.Store files.old name.now why files.new) }
    ensures error { IfErr result IsUnopened }
{
    if let Some(error) = S::probe(files, name)?.opening_error() {
        return Err(error);
    }
    match S::connect(files, name) {
        Ok(conn) => opened(alloc, files, name, conn),
        Err(error) => Err(by_opening(error)),
    }
}

/// Opens the tables of the desk in the file of that name, which was just opened as a database. Where
/// they are refused the file is given up.
fn opened<S: TableFile>(
    alloc: Global,
    files: &mut SystemFiles<S>,
    name: &str,
    conn: Connection<S>,
) -> Result<Connection<S>, DeskFileError>
    requires none { conn.in_transaction ≡ false }
    requires rising { HasCleanDisk (state S.Store conn)
        → RowsRise (state S.Store conn) }
    ensures opened { IfOk result
        (λ opened. (files.new ≡ files.old) × OpensTables S.Store conn opened) }
    ensures none { IfOk result (λ opened. opened.in_transaction ≡ false) }
    ensures refused { IfErr result (λ why. RefusesTables (LetsGo S.gives_up S.Store) S.Store
        files.old name.now conn why files.new) }
    ensures error { IfErr result IsUnopened }
{
    match sql_open::open_risen(alloc, conn) {
        Ok(opened) => Ok(opened),
        Err((fault, refused)) => {
            give_up(files, name, refused);
            Err(by_open(fault))
        }
    }
}
