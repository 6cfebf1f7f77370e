//! The desk of version 1, which is opened as it is moved.
ghost use Rattle.std.specs.Prelude.{◌≡◌, ◌≢◌, false, Err, IsTrue, OnErr, OnOk};
ghost use Rattle.sql_open.specs.Migration.{IsFirst};
ghost use Rattle.sql_open.specs.Crashes.{LeavesItself};
ghost use Rattle.sql_open.specs.Known.{AreOpened, IsMadeAs};
ghost use Rattle.sql_open.specs.OpeningByMigration.{HoldsMoved, IsMove, MayMove, MovesWhole};
ghost use Rattle.sql_open.specs.Opened.{OnDone, StandsFor};
ghost use Rattle.sql_open.specs.Opening.{IsNoDeskOf};
ghost use Rattle.sql_open.specs.Rising.{RowsRise};
ghost use Rattle.sql_open.specs.declared.fault.OpenFault.TheVariants.{NotADesk, NewerVersion};
ghost use Rattle.sql_open.specs.declared.version.KnownVersion.TheVariants as known;
ghost use Rattle.sql_model.specs.Standing.{HasNoOfficeBy, IsVersionOf, one};
ghost use Rattle.sql_desk_tables.specs.ColumnChecks.{HasColumnsOf};
ghost use Rattle.sqlite.specs.Held.{state};
ghost use Rattle.sqlite.specs.State.{HasCleanDisk, Survives};

use crate::creation::rests;
use crate::fault::OpenFault;
use crate::first::judge_declared;
use crate::migration::move_tables;
use crate::opening::{judge_columns, judge_tables};
use crate::version::KnownVersion;
use sqlite::{Alter, Connection, Transaction};
use std::alloc::Global;

/// Moves the tables of version 1, and judges whether they hold an office. Nothing is committed.
#[tactic(auto, using(crate::proofs::FaultLemmas::of_the_store))]
fn move_and_judge<S: Alter>(tx: &mut Transaction<'_, S>, alloc: Global) -> Result<(), OpenFault>
    ensures same_reference { tx.new.conn.ghost_name ≡ tx.old.conn.ghost_name }
    ensures moves { IsMove S.Store tx.old.conn.now tx.new.conn.now result }
{
    move_tables(tx)?;
    judge_tables(tx, alloc)
}

/// Moves the tables of version 1 in one transaction, which is committed only where what they hold is
/// an office.
fn move_desk<S: Alter>(conn: &mut Connection<S>, alloc: Global) -> Result<(), OpenFault>
    requires { conn.old.in_transaction ≡ false }
    ensures ended { conn.new.in_transaction ≡ false }
    ensures moved { HasCleanDisk (state S.Store conn.new) → IsFirst (state S.Store conn.old)
        → OnOk result (HoldsMoved (state S.Store conn.old) (state S.Store conn.new)) }
    ensures is_open { OnDone S.Store conn.new result (IsTrue (state S.Store conn.old).is_open
        × IsTrue (state S.Store conn.new).is_open) }
    ensures preserved { HasCleanDisk (state S.Store conn.new) → IsTrue (state S.Store conn.new).is_open
        → OnErr result (IsTrue (state S.Store conn.old).is_open
        × ((state S.Store conn.new).now.trees ≡ (state S.Store conn.old).now.trees)) }
    ensures none { HasCleanDisk (state S.Store conn.new) → IsFirst (state S.Store conn.old)
        → result ≡ Err NotADesk → HasNoOfficeBy one (state S.Store conn.old) }
    ensures other { result ≢ Err NewerVersion }
    ensures crash { Survives (state S.Store conn.old) (state S.Store conn.new)
        (MovesWhole (state S.Store conn.old)) }
{
    let _ = conn.is_autocommit();
    let mut tx = conn.transaction();
    match move_and_judge(&mut tx, alloc) {
        Ok(()) => {
            let done = tx.commit();
            let _ = conn.is_autocommit();
            done?;
            Ok(())
        }
        Err(fault) => {
            tx.rollback();
            let _ = conn.is_autocommit();
            Err(fault)
        }
    }
}

/// Moves tables of version 1 that hold an office, where each column that is read of that version
/// stands, and the database has just the tables and indexes that its program made. Otherwise nothing
/// is written. The store is open then.
pub(crate) fn open_moved<S: Alter>(conn: &mut Connection<S>, alloc: Global) -> Result<(), OpenFault>
    requires none { conn.old.in_transaction ≡ false }
    requires rising { HasCleanDisk (state S.Store conn.old) → IsTrue (state S.Store conn.old).is_open
        → RowsRise (state S.Store conn.old) }
    ensures ended { conn.new.in_transaction ≡ false }
    ensures stands { HasCleanDisk (state S.Store conn.new)
        → IsVersionOf one (state S.Store conn.old)
        → OnOk result (StandsFor (state S.Store conn.old) (state S.Store conn.new) known.One) }
    ensures opened { OnDone S.Store conn.new result (IsTrue (state S.Store conn.old).is_open
        × HasColumnsOf one.asked (state S.Store conn.old).now.schema
        × (IsMadeAs known.One (state S.Store conn.old).now.schema
        × (IsVersionOf one (state S.Store conn.old)
        → AreOpened known.One (state S.Store conn.old) (state S.Store conn.new)))) }
    ensures is_open { OnDone S.Store conn.new result (IsTrue (state S.Store conn.new).is_open) }
    ensures settled { OnDone S.Store conn.new result (LeavesItself (state S.Store conn.new)) }
    ensures preserved { HasCleanDisk (state S.Store conn.new) → IsTrue (state S.Store conn.new).is_open
        → OnErr result (IsTrue (state S.Store conn.old).is_open
        × ((state S.Store conn.new).now.trees ≡ (state S.Store conn.old).now.trees)) }
    ensures cause { HasCleanDisk (state S.Store conn.new) → result ≡ Err NotADesk
        → IsTrue (state S.Store conn.old).is_open × (IsVersionOf one (state S.Store conn.old)
        → IsNoDeskOf known.One (state S.Store conn.old)) }
    ensures other { result ≢ Err NewerVersion }
    ensures crash { Survives (state S.Store conn.old) (state S.Store conn.new)
        (MayMove (state S.Store conn.old)) }
{
    let _ = conn.schema();
    judge_columns(conn, KnownVersion::One)?;
    judge_declared(conn, alloc)?;
    let _ = conn.schema();
    move_desk(conn, alloc)?;
    rests(conn);
    Ok(())
}
