//! A desk in a file, made, opened and closed.
ghost use Rattle.std.specs.Prelude.{◌≡◌};
ghost use Rattle.cli_exit.specs.Endings.{ended_view};
ghost use Rattle.desk_file.specs.FileEnds.{ended_by_error};

use crate::printing::results;
use byte_io::Sink;
use cli_exit::{Ended, ExitError};
use desk_cache::CachingDesk;
use desk_words::MeetingId;
use file_probe::DeskFileError;
use host::OfficeFiles;
use office_file::OfficeFile;
use sql_file::{SystemFiles, TableFile};
use sqlite::Alter;
use std::alloc::Global;

/// The desk of one company in a file.
pub struct DiskDesk<S: Alter> {
    pub(crate) desk: CachingDesk<S>,
}

impl<S: Alter + Drop> Drop for DiskDesk<S> {
    fn drop(self) {
        let DiskDesk { desk: _ } = self;
    }
}

impl<S: Alter + Drop> DiskDesk<S> {
    /// The desk itself.
    fn into_desk(self) -> CachingDesk<S>
        ensures { result ≡ self.desk }
    {
        let DiskDesk { desk } = self;
        desk
    }
}

impl<S: Alter + Drop> OfficeFile for DiskDesk<S> {
    fn results<W: Sink>(&mut self, alloc: Global, meeting: MeetingId, writer: &mut W) -> Ended {
        results(alloc, &mut self.desk, meeting, writer)
    }
}

/// How the program ends where the file of a desk is not made or opened: with status 3 and the error.
fn by_error(error: DeskFileError) -> Ended
    ensures { ended_view result ≡ ended_by_error error }
{
    Ended::by(match error {
        DeskFileError::NotEmpty => ExitError::NotEmpty,
        DeskFileError::NotADesk => ExitError::NotADesk,
        DeskFileError::NewerVersion => ExitError::NewerVersion,
        DeskFileError::Store => ExitError::Store,
        DeskFileError::Memory => ExitError::Memory,
    })
}

/// The desks in the files of a system, whose tables have stores `S`.
#[derive(Drop)]
pub struct DiskFiles<S> {
    files: SystemFiles<S>,
}

impl<S> DiskFiles<S> {
    /// The desks in these files.
    pub fn new(files: SystemFiles<S>) -> DiskFiles<S>
        ensures { result.files ≡ files }
    {
        DiskFiles { files }
    }
}

// Tables of version 1 are moved to version 2 as they are opened.
impl<S: TableFile> OfficeFiles for DiskFiles<S> {
    ghost use Rattle.cli_exit.specs.Endings.{Ending};
    ghost use Rattle.desk_file.specs.FileEnds.{ended_by_error, made_if_zero, making_end};
    ghost use Rattle.file_probe.specs.DeskFileErrors.{IsUnopened};
    ghost use Rattle.file_probe.specs.declared.fault.DeskFileError.{DeskFileError};
    ghost use Rattle.std.proofs.Common.{ap, sym, ◌∙◌};
    ghost use Rattle.sql_file.specs.ClosedFiles.{LetsGo};
    ghost use Rattle.sql_file.specs.MadeFiles.{CreatesFile, Making};
    ghost use Rattle.sql_file.specs.OpenedFiles.{OpensFile, RefusesFile};
    ghost use Rattle.sql_open.specs.WholeDesk.{IsWholeDesk};
    ghost use Rattle.sqlite.specs.Tree.{Trees};
    ghost use Rattle.sql_file.proofs.FileLaws as laws;

    type File = DiskDesk<S>;

    ghost is_reliable = { λ disk. S.is_reliable disk.files };

    ghost Left = { Trees };

    ghost may_hold = { λ disk name db. S.may_hold disk.files name db };

    ghost opens_as = { IsWholeDesk };

    ghost opens = { λ old name desk new.
        OpensFile S.finds S.Store old.files name desk.desk new.files };

    ghost refuses = { λ old name end new. (why : DeskFileError) × (end ≡ ended_by_error why)
        × IsUnopened why × RefusesFile S.finds S.refuses (LetsGo S.gives_up S.Store) S.Store
        old.files name why new.files };

    ghost closes = { λ old name desk new. LetsGo S.closes S.Store old.files name desk.desk new.files };

    ghost creates = { λ old name end new. (result : Making) × (end ≡ making_end result)
        × CreatesFile S.finds S.refuses S.removes (LetsGo S.closes S.Store) S.makes S.Store
        old.files name result new.files };

    fn create(&mut self, name: &str) -> Ended {
        match sql_file::create::<S>(&mut self.files, name) {
            Ok(()) => Ended::with_word("created"),
            Err(error) => by_error(error),
        }
    }

    fn open(&mut self, alloc: Global, name: &str) -> Result<DiskDesk<S>, Ended> {
        match sql_file::open(alloc, &mut self.files, name) {
            Ok(conn) => Ok(DiskDesk {
                desk: CachingDesk::of_opened(alloc, conn),
            }),
            Err(error) => Err(by_error(error)),
        }
    }

    fn close(&mut self, name: &str, file: DiskDesk<S>)
        ensures { LetsGo S.closes S.Store self.old.files name.now file.desk self.new.files }
    {
        sql_file::close(&mut self.files, name, file.into_desk().close());
    }

    ghost opens_stored = { λ old new name desk office.
        laws.opens_stored S.may_hold S.is_reliable S.Store.own S.finds S.finds_held
        old.files new.files name desk.desk office };

    ghost refuses_held = { λ old new name end db refuses.
        laws.refuses_held S.may_hold S.is_reliable S.Store.own S.finds S.finds_held
        S.refuses S.refuses_held S.gives_up S.gives_up_held
        old.files new.files name refuses.0 db refuses.3 };

    ghost closes_held = { λ old new name desk db closes reliable may. (
      db,
      (laws.let_go_held S.Store.own S.may_hold S.is_reliable S.closes S.closes_held
          old.files new.files name desk.desk closes reliable).1 db may,
      (λ office whole. whole),
    ) };

    ghost closes_reliable = { λ old new name desk closes reliable.
        (laws.let_go_held S.Store.own S.may_hold S.is_reliable S.closes S.closes_held
        old.files new.files name desk.desk closes reliable).0 };

    ghost creates_held = { λ old new name end db creates reliable zero.
        laws.creates_held S.may_hold S.is_reliable S.Store.own S.closes S.closes_held
        S.finds S.refuses S.removes S.makes old.files new.files name creates.0 db creates.2 reliable
        (made_if_zero creates.0 (sym (ap (λ (e : Ending). e.status) creates.1) ∙ zero)) };
}
