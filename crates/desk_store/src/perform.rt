//! A call, made and kept.
ghost use Rattle.std.specs.Prelude.{◌≡◌, false, IfOk, IsTrue, None, Ok, OnOk};
ghost use Rattle.std.specs.Fn.{FnOnceReturnsAt};
ghost use Rattle.any_office.specs.StoredOffice.{made_by};
ghost use Rattle.sql_open.specs.Crashes.{LeavesItself};
ghost use Rattle.sql_open.specs.Opened.{OnDone};
ghost use Rattle.sql_open.specs.WholeDesk.{LeavesWhole};
ghost use Rattle.sql_schema.specs.Statements.{DeclaresNothing, WasOpen};
ghost use Rattle.desk_store.specs.Joins.{AreAfter, IsAsItWas, LeavesDesk};
ghost use Rattle.desk_store.specs.Cached.{AreRecordsOf, valid_after};
ghost use Rattle.desk_store.specs.TableReads.{HoldsOfDesk, HoldsOfDeskInTransaction, WritesIfAny};
ghost use Rattle.sql_model.specs.Standing.{Stands};
ghost use Rattle.meeting_core.specs.Step.{decided, stepped};
ghost use Rattle.sqlite.specs.Effect.{IsDatabase};
ghost use Rattle.sqlite.specs.Held.{state};
ghost use Rattle.sqlite.specs.State.{IsUnchanged, KeepsCommit, Survives};

use crate::cached::{StillValid, valid_after};
use crate::desk::Desk;
use crate::reading::failure_of;
use desk_deciding::{CachedRecord, decide};
use desk_words::{Answer, Call, Change, Failure, Reply};
use meeting_core::laws::decided_changes_can_be_made;
use sql_load::LoadError;
use sql_write::write;
use sqlite::{Alter, Error, Transaction};
use std::alloc::{AllocError, Global};

/// Writes what an answer changes, which may be nothing.
fn write_if_any<S: Alter>(
    tx: &mut Transaction<'_, S>,
    alloc: Global,
    answer: &Answer<Change>,
) -> Result<(), Error>
    ensures same_reference { tx.new.conn.ghost_name ≡ tx.old.conn.ghost_name }
    ensures writes { WritesIfAny S.Store tx.old.conn.now tx.new.conn.now result answer.now.change }
{
    match &answer.change {
        None => Ok(()),
        Some(change) => write(alloc, tx, change),
    }
}

/// Writes what an answer changes, and asks what is shown of its reply.
fn write_and_show<S: Alter, T: Drop, F: FnOnce(&Reply) -> Result<T, AllocError>>(
    tx: &mut Transaction<'_, S>,
    alloc: Global,
    answer: &Answer<Change>,
    show: F,
) -> Result<T, LoadError>
    requires callable { F.IsAlwaysCallable show }
    ensures same_reference { tx.new.conn.ghost_name ≡ tx.old.conn.ghost_name }
    ensures writes { WritesIfAny S.Store tx.old.conn.now tx.new.conn.now result answer.now.change }
    ensures shown { IfOk result (λ t. FnOnceReturnsAt F.FnOnce show answer.now.reply (Ok t)) }
{
    write_if_any(tx, alloc, answer)?;
    Ok(show(&answer.reply)?)
}

/// Decides a call, writes what it changes, and asks what is shown of the reply. Beside that it answers
/// what of a cache is valid then.
fn step<S: Alter, T: Drop, F: FnOnce(&Reply) -> Result<T, AllocError>>(
    tx: &mut Transaction<'_, S>,
    alloc: Global,
    call: &Call,
    cached: &[CachedRecord],
    show: F,
) -> Result<(T, StillValid), LoadError>
    requires callable { F.IsAlwaysCallable show }
    requires cached { AreRecordsOf S.Store tx.old.conn.now cached.now }
    ensures same_reference { tx.new.conn.ghost_name ≡ tx.old.conn.ghost_name }
    ensures shown { HoldsOfDeskInTransaction S.Store tx.old.conn.now tx.new.conn.now (λ office. IfOk result
        (λ t. FnOnceReturnsAt F.FnOnce show (decided office call.now).reply (Ok t.0)
        × Stands (state S.Store tx.new.conn.now) (stepped office call.now)
        × IsDatabase (state S.Store tx.new.conn.now).now
        × (t.1 ≡ valid_after (decided office call.now).change))) }
    ensures inside { HoldsOfDeskInTransaction S.Store tx.old.conn.now tx.new.conn.now
        (λ _. OnOk result (IsTrue (state S.Store tx.new.conn.now).in_transaction)) }
    ensures declares { HoldsOfDeskInTransaction S.Store tx.old.conn.now tx.new.conn.now
        (λ _. OnOk result (DeclaresNothing (state S.Store tx.old.conn.now)
        (state S.Store tx.new.conn.now))) }
    ensures preserved { HoldsOfDesk S.Store tx.old.conn.now tx.new.conn.now
        (λ _. KeepsCommit (state S.Store tx.old.conn.now) (state S.Store tx.new.conn.now)) }
    ensures was_open { WasOpen (state S.Store tx.old.conn.now) (state S.Store tx.new.conn.now) }
    ensures still { HoldsOfDesk S.Store tx.old.conn.now tx.new.conn.now (λ office.
        (decided office call.now).change ≡ None → OnOk result
        (IsUnchanged (state S.Store tx.old.conn.now) (state S.Store tx.new.conn.now))) }
    ensures crash { Survives (state S.Store tx.old.conn.now) (state S.Store tx.new.conn.now)
        (λ _. ⊥) }
{
    let answer = decide(tx, alloc, call, cached)?;
    decided_changes_can_be_made();
    let valid = valid_after(&answer.change);
    let shown = write_and_show(tx, alloc, &answer, show)?;
    Ok((shown, valid))
}

impl<S: Alter> Desk<S> {
    /// Makes one call, as `perform` does, where public records are cached, and answers besides what
    /// of a cache is valid then.
    pub fn perform_with_records<T: Drop, F: FnOnce(&Reply) -> Result<T, AllocError>>(
        &mut self,
        call: &Call,
        cached: &[CachedRecord],
        show: F,
    ) -> Result<(T, StillValid), Failure>
        requires callable { F.IsAlwaysCallable show }
        requires cached { AreRecordsOf S.Store self.old cached.now }
        ensures done { HoldsOfDesk S.Store self.old self.new (λ office. IfOk result
            (λ t. FnOnceReturnsAt F.FnOnce show (decided office call.now).reply (Ok t.0)
            × Stands (state S.Store self.new) (stepped office call.now)
            × (t.1 ≡ valid_after (decided office call.now).change))) }
        ensures declares { HoldsOfDesk S.Store self.old self.new (λ _. OnOk result
            (DeclaresNothing (state S.Store self.old) (state S.Store self.new))) }
        ensures leaves { LeavesDesk S.Store (made_by result call.now) self.old self.new }
        ensures ended { self.new.in_transaction ≡ false }
        ensures stays_open { OnDone S.Store self.new result
            (IsTrue (state S.Store self.new).is_open) }
        ensures settled { OnDone S.Store self.new result (LeavesItself (state S.Store self.new)) }
        ensures whole { HoldsOfDesk S.Store self.old self.new (λ office. OnOk result
            (LeavesWhole (state S.Store self.new) (stepped office call.now))) }
        ensures still { HoldsOfDesk S.Store self.old self.new (λ office.
            (decided office call.now).change ≡ None → OnOk result
            (IsAsItWas (state S.Store self.old) (state S.Store self.new))) }
        ensures crash { Survives (state S.Store self.old) (state S.Store self.new)
            (AreAfter (state S.Store self.old) call.now) }
    {
        self.ask_open()?;
        let _ = self.conn.is_autocommit();
        let mut tx = self.conn.transaction();
        let done = step(&mut tx, self.alloc, call, cached, show).map_err(failure_of)?;
        tx.commit().map_err(|error| failure_of(error.into()))?;
        Ok(done)
    }

    /// Makes one call, in one transaction with one commit: the tables are then the office after the
    /// step, and no table, index or view is made, changed or dropped. `show` is asked once for what is
    /// answered of the reply, before the commit. After a failure, that of `show` included, the tables
    /// are as they were; a call that changes nothing writes nothing. After an answer a crash leaves
    /// the tables that are read, whole, and nothing else. After a failure it leaves what it left
    /// before, or whole the office after the step. A store that is shut commits nothing.
    pub fn perform<T: Drop, F: FnOnce(&Reply) -> Result<T, AllocError>>(
        &mut self,
        call: Call,
        show: F,
    ) -> Result<T, Failure>
        requires callable { F.IsAlwaysCallable show }
        ensures done { HoldsOfDesk S.Store self.old self.new (λ office. IfOk result
            (λ t. FnOnceReturnsAt F.FnOnce show (decided office call).reply (Ok t)
            × Stands (state S.Store self.new) (stepped office call))) }
        ensures declares { HoldsOfDesk S.Store self.old self.new (λ _. OnOk result
            (DeclaresNothing (state S.Store self.old) (state S.Store self.new))) }
        ensures leaves { LeavesDesk S.Store (made_by result call) self.old self.new }
        ensures ended { self.new.in_transaction ≡ false }
        ensures stays_open { OnDone S.Store self.new result
            (IsTrue (state S.Store self.new).is_open) }
        ensures settled { OnDone S.Store self.new result (LeavesItself (state S.Store self.new)) }
        ensures whole { HoldsOfDesk S.Store self.old self.new (λ office. OnOk result
            (LeavesWhole (state S.Store self.new) (stepped office call))) }
        ensures still { HoldsOfDesk S.Store self.old self.new (λ office.
            (decided office call).change ≡ None → OnOk result
            (IsAsItWas (state S.Store self.old) (state S.Store self.new))) }
        ensures crash { Survives (state S.Store self.old) (state S.Store self.new)
            (AreAfter (state S.Store self.old) call) }
    {
        let (shown, _) = self.perform_with_records(&call, &[], show)?;
        Ok(shown)
    }
}
