//! What the tables hold, read within a transaction.
ghost use Rattle.std.specs.Prelude.{◌≡◌};
ghost use Rattle.desk_words.specs.declared.office.OfficeLists.{OfficeLists};
ghost use Rattle.desk_store.specs.StoreFailures.{failure_of_read};
ghost use Rattle.desk_deciding.specs.Deciding.{HoldsOfTables};
ghost use Rattle.desk_store.specs.TableReads.{IsCallerWith, IsPublic};

use desk_words::{Caller, Failure, KeyRow, MeetingId, SecretKey};
use sql_desk_tables::keys;
use sql_load::{LoadError, OwnedRecord, read_public};
use sql_rows::records;
use sqlite::{Alter, Transaction};
use std::alloc::Global;

/// How a call fails where its tables are not read or not written.
pub(crate) fn failure_of(fault: LoadError) -> Failure
    ensures { result ≡ failure_of_read fault }
{
    match fault {
        LoadError::NoOffice | LoadError::Store => Failure::Store,
        LoadError::Memory => Failure::Memory,
    }
}

/// The caller whose key this is; none exactly where no key equals it.
pub(crate) fn read_caller<S: Alter>(
    tx: &mut Transaction<'_, S>,
    alloc: Global,
    key: &SecretKey,
) -> Result<Option<Caller>, LoadError>
    ensures same_reference { tx.new.conn.ghost_name ≡ tx.old.conn.ghost_name }
    ensures holds { HoldsOfTables S.Store tx.old.conn.now tx.new.conn.now result
        (IsCallerWith key.now) }
{
    let rows = keys::find(tx, key)?;
    let found: Vec<KeyRow> = records(alloc, &rows)?;
    Ok(found.first().map(|row| row.caller))
}

/// The public record of a meeting; where there is none of that name, the closed days alone.
pub(crate) fn read_record<S: Alter>(
    tx: &mut Transaction<'_, S>,
    alloc: Global,
    meeting: MeetingId,
) -> Result<OwnedRecord, LoadError>
    ensures same_reference { tx.new.conn.ghost_name ≡ tx.old.conn.ghost_name }
    ensures holds { HoldsOfTables S.Store tx.old.conn.now tx.new.conn.now result (IsPublic meeting) }
{
    read_public(tx, alloc, meeting)
}

/// What is read of the tables, within a transaction.
pub(crate) trait Reading {
    type Found: Drop;

    /// This is found of an office.
    ghost finds: { Self → OfficeLists → Self.Found → Type 0 };

    /// Reads it. Nothing is changed.
    fn read<S: Alter>(
        &self,
        tx: &mut Transaction<'_, S>,
        alloc: Global,
    ) -> Result<Self::Found, LoadError>
        ensures same_reference { tx.new.conn.ghost_name ≡ tx.old.conn.ghost_name }
        ensures holds { HoldsOfTables S.Store tx.old.conn.now tx.new.conn.now result
            (finds self.now) };
}

/// The caller with a key.
#[derive(Clone, Copy)]
pub(crate) struct CallerOf {
    pub(crate) key: SecretKey,
}

impl Reading for CallerOf {
    ghost use Rattle.desk_store.specs.TableReads.{IsCallerWith};

    type Found = Option<Caller>;

    ghost finds = { λ it. IsCallerWith it.key };

    fn read<S: Alter>(
        &self,
        tx: &mut Transaction<'_, S>,
        alloc: Global,
    ) -> Result<Option<Caller>, LoadError> {
        read_caller(tx, alloc, &self.key)
    }
}

/// The public record of a meeting.
#[derive(Clone, Copy)]
pub(crate) struct PublicOf {
    pub(crate) meeting: MeetingId,
}

impl Reading for PublicOf {
    ghost use Rattle.desk_store.specs.TableReads.{IsPublic};

    type Found = OwnedRecord;

    ghost finds = { λ it. IsPublic it.meeting };

    fn read<S: Alter>(
        &self,
        tx: &mut Transaction<'_, S>,
        alloc: Global,
    ) -> Result<OwnedRecord, LoadError> {
        read_record(tx, alloc, self.meeting)
    }
}
