//! The tables of a desk that was kept.
ghost use Rattle.std.specs.Prelude.{◌≡◌, ◌≢◌, false, Err, IfErr, IfOk, IsTrue, OnErr, OnOk};
ghost use Rattle.sql_open.specs.Crashes.{LeavesAtMostMoved, LeavesItself, LeavesNoMore};
ghost use Rattle.sql_open.specs.Known.{AreOpened, IsMadeAs, edition_of};
ghost use Rattle.sql_open.specs.Opened.{IsSettled, IsWhyUnopened, KeepsOpenRows, KeepsTables};
ghost use Rattle.sql_open.specs.Opened.{OnDone, StandsFor, StandsWhole, StaysOpen};
ghost use Rattle.sql_open.specs.Opened.{SurvivesMoving, WereKnown};
ghost use Rattle.sql_open.specs.Opening.{FindsOffice, HandsBack, IsInNone, IsNoDeskOf, IsVerdict};
ghost use Rattle.sql_open.specs.Opening.{IsWhyShut, ReportsReopening};
ghost use Rattle.sql_open.specs.Rising.{RowsRise};
ghost use Rattle.sql_open.specs.WholeDesk.{AsksOpen, OpensWhole};
ghost use Rattle.sql_model.specs.Standing.{HasNoOffice, IsVersionOf, two};
ghost use Rattle.sql_open.specs.declared.fault.OpenFault.TheVariants.{NotADesk, NewerVersion};
ghost use Rattle.sql_open.specs.declared.fault.OpenFault.TheVariants as opening;
ghost use Rattle.sql_open.specs.declared.opening.HandedBack.TheVariants as back;
ghost use Rattle.sql_open.specs.declared.version.KnownVersion.TheVariants as known;
ghost use Rattle.sql_schema.specs.Statements.{IsDesk, WasOpen};
ghost use Rattle.sql_desk_tables.specs.ColumnChecks.{HasColumnsOf};
ghost use Rattle.sqlite.specs.Held.{state};
ghost use Rattle.sqlite.specs.State.{Fails, HasCleanDisk, Survives};
ghost use Rattle.sqlite_trees.specs.View.{IsClean};

use crate::fault::OpenFault;
use crate::judging::judge_office;
use crate::moving::open_moved;
use crate::version::{KnownVersion, judge_version};
use sql_desk_tables::columns;
use sqlite::{Alter, Connection, Error, ErrorCode, Transaction};
use std::alloc::Global;

/// What a desk that is not opened hands back.
#[derive(Drop)]
pub enum HandedBack<S: Alter> {
    /// The connection, in no transaction.
    Connection(Connection<S>),
    /// The store of the connection, which could not be read again.
    Store(S),
}

/// Opens the store of the connection once more. Only what is known of a store as it is opened says
/// that the numbers of the rows of each table rise. The fault of a store that is shut is `Store`.
#[tactic(auto, using(crate::proofs::FaultLemmas::of_the_store))]
fn reopened<S: Alter + Drop>(
    alloc: Global,
    conn: Connection<S>,
) -> Result<Connection<S>, (OpenFault, S)>
    requires { conn.in_transaction ≡ false }
    ensures ended { IfOk result (λ c. c.in_transaction ≡ false) }
    ensures opened { IfOk result (λ c. StaysOpen S.Store c) }
    ensures same { IfOk result (λ c. KeepsTables S.Store conn c) }
    ensures rising { IfOk result (λ c. HasCleanDisk (state S.Store c)
        → RowsRise (state S.Store c)) }
    ensures fault { IfErr result (λ e. (e.0 ≢ NotADesk) × (e.0 ≢ NewerVersion)) }
    ensures cause { IfErr result (λ e. IsWhyShut S.Store conn e.0 e.1) }
    ensures preserved { IfErr result (λ e. IsClean (S.Store.view e.1)
        → IsTrue (S.Store.view e.1).is_open
        → (S.Store.view e.1).trees ≡ (state S.Store conn).now.trees) }
    ensures found { IfOk result (λ c. LeavesNoMore S.Store (state S.Store conn)
        (back.Connection c)) }
    ensures crash { IfErr result (λ e. LeavesNoMore S.Store (state S.Store conn)
        (back.Store e.1)) }
{
    let _ = conn.is_autocommit();
    let _ = conn.schema();
    let store = conn.into_store();
    if store.is_broken() {
        let error = Error::SqliteFailure(ErrorCode::Closed);
        return Err((OpenFault::from(error), store));
    }
    match Connection::over(alloc, store) {
        Ok(conn) => Ok(conn),
        Err((error, store)) => Err((OpenFault::from(error), store)),
    }
}

/// Judges whether the tables hold an office. The fault is `NotADesk` only where they hold none.
pub(crate) fn judge_tables<S: Alter>(
    tx: &mut Transaction<'_, S>,
    alloc: Global,
) -> Result<(), OpenFault>
    ensures same_reference { tx.new.conn.ghost_name ≡ tx.old.conn.ghost_name }
    ensures judged { IsVerdict S.Store tx.old.conn.now tx.new.conn.now result }
{
    judge_office(tx, alloc)?;
    Ok(())
}

/// Judges whether the tables hold an office, in one transaction, which is rolled back. The fault is
/// never `NewerVersion`.
fn examine<S: Alter>(conn: &mut Connection<S>, alloc: Global) -> Result<(), OpenFault>
    requires { conn.old.in_transaction ≡ false }
    ensures ended { conn.new.in_transaction ≡ false }
    ensures crash { Survives (state S.Store conn.old) (state S.Store conn.new) (λ _. ⊥) }
    ensures was_open { WasOpen (state S.Store conn.old) (state S.Store conn.new) }
    ensures preserved { HasCleanDisk (state S.Store conn.new) → IsTrue (state S.Store conn.old).is_open
        → IsTrue (state S.Store conn.new).is_open
        → (state S.Store conn.new).now.trees ≡ (state S.Store conn.old).now.trees }
    ensures holds { FindsOffice S.Store conn.old conn.new result }
    ensures none { HasCleanDisk (state S.Store conn.new) → IsDesk (state S.Store conn.old)
        → result ≡ Err NotADesk → HasNoOffice (state S.Store conn.old) }
    ensures other { result ≢ Err NewerVersion }
{
    let _ = conn.is_autocommit();
    let mut tx = conn.transaction();
    let judged = judge_tables(&mut tx, alloc);
    tx.rollback();
    let _ = conn.is_autocommit();
    judged
}

/// Judges whether each column that is read of a version stands. The fault is `NotADesk` only where
/// one does not.
pub(crate) fn judge_columns<S: Alter>(
    conn: &mut Connection<S>,
    version: KnownVersion,
) -> Result<(), OpenFault>
    requires { conn.old.in_transaction ≡ false }
    ensures ended { conn.new.in_transaction ≡ false }
    ensures crash { Survives (state S.Store conn.old) (state S.Store conn.new) (λ _. ⊥) }
    ensures same { HasCleanDisk (state S.Store conn.new) → IsTrue (state S.Store conn.new).is_open
        → IsTrue (state S.Store conn.old).is_open
        × ((state S.Store conn.new).now ≡ (state S.Store conn.old).now) }
    ensures columns { OnDone S.Store conn.new result (IsTrue (state S.Store conn.new).is_open
        × HasColumnsOf (edition_of version).asked (state S.Store conn.old).now.schema) }
    ensures missing { HasCleanDisk (state S.Store conn.new) → result ≡ Err NotADesk
        → IsTrue (state S.Store conn.old).is_open
        × ¬ HasColumnsOf (edition_of version).asked (state S.Store conn.old).now.schema }
    ensures other { result ≢ Err NewerVersion }
{
    match version {
        KnownVersion::One => columns::ask_columns_one(conn)?,
        KnownVersion::Two => columns::ask_columns(conn)?,
    }
    Ok(())
}

/// Asks whether the store is open, by a statement that is compiled and not run. Nothing is changed.
/// Where the store is open, a crash then leaves the tables as they are read. The error is that of a
/// store that is shut, or that failed in this call; want of memory is one of its causes.
pub fn ask_open<S: Alter>(conn: &mut Connection<S>) -> Result<(), Error>
    requires { conn.old.in_transaction ≡ false }
    ensures ended { conn.new.in_transaction ≡ false }
    ensures asked { AsksOpen S.Store conn.old conn.new result }
    ensures settled { OnDone S.Store conn.new result (LeavesItself (state S.Store conn.new)) }
    ensures cause { HasCleanDisk (state S.Store conn.new)
        → IfErr result (Fails (state S.Store conn.old) (state S.Store conn.new) ⊥) }
{
    let _ = conn.is_autocommit();
    conn.prepare("BEGIN")?;
    let _ = conn.is_autocommit();
    let _ = conn.schema();
    Ok(())
}

/// Opens tables of version 2 as they are, where each column that is read stands and they hold an
/// office. The store is open still.
fn open_as_is<S: Alter>(conn: &mut Connection<S>, alloc: Global) -> Result<(), OpenFault>
    requires none { conn.old.in_transaction ≡ false }
    requires rising { HasCleanDisk (state S.Store conn.old) → IsTrue (state S.Store conn.old).is_open
        → RowsRise (state S.Store conn.old) }
    ensures ended { conn.new.in_transaction ≡ false }
    ensures stands { HasCleanDisk (state S.Store conn.new)
        → IsMadeAs known.Two (state S.Store conn.old).now.schema
        → IsVersionOf two (state S.Store conn.old)
        → OnOk result (StandsFor (state S.Store conn.old) (state S.Store conn.new) known.Two) }
    ensures opened { OnDone S.Store conn.new result (IsTrue (state S.Store conn.old).is_open
        × HasColumnsOf two.asked (state S.Store conn.old).now.schema
        × AreOpened known.Two (state S.Store conn.old) (state S.Store conn.new)) }
    ensures is_open { OnDone S.Store conn.new result (IsTrue (state S.Store conn.new).is_open) }
    ensures settled { OnDone S.Store conn.new result (LeavesItself (state S.Store conn.new)) }
    ensures preserved { HasCleanDisk (state S.Store conn.new) → IsTrue (state S.Store conn.new).is_open
        → OnErr result (IsTrue (state S.Store conn.old).is_open
        × ((state S.Store conn.new).now.trees ≡ (state S.Store conn.old).now.trees)) }
    ensures cause { HasCleanDisk (state S.Store conn.new) → result ≡ Err NotADesk
        → IsTrue (state S.Store conn.old).is_open × IsNoDeskOf known.Two (state S.Store conn.old) }
    ensures other { result ≢ Err NewerVersion }
    ensures crash { Survives (state S.Store conn.old) (state S.Store conn.new) (λ _. ⊥) }
{
    let _ = conn.schema();
    judge_columns(conn, KnownVersion::Two)?;
    examine(conn, alloc)?;
    ask_open(conn)?;
    let _ = conn.schema();
    Ok(())
}

/// Opens tables of a version that is known, where each column that is read of it stands and they hold
/// an office. Those of version 2 are as they were, and those of version 1 are moved. The store is
/// open still. The version is asked before the other tables are read.
fn open_stored<S: Alter>(conn: &mut Connection<S>, alloc: Global) -> Result<(), OpenFault>
    requires none { conn.old.in_transaction ≡ false }
    requires rising { HasCleanDisk (state S.Store conn.old) → RowsRise (state S.Store conn.old) }
    ensures ended { conn.new.in_transaction ≡ false }
    ensures stands { OnOk result (StandsWhole S.Store conn.old conn.new) }
    ensures whole { OnOk result (OpensWhole S.Store conn.old conn.new) }
    ensures known { OnOk result (WereKnown S.Store conn.old conn.new) }
    ensures is_open { OnOk result (StaysOpen S.Store conn.new) }
    ensures settled { OnOk result (IsSettled S.Store conn.new) }
    ensures cause { IfErr result (λ fault.
        IsWhyUnopened S.Store conn.old fault (back.Connection conn.new)) }
    ensures preserved { OnErr result (KeepsOpenRows S.Store conn.old conn.new) }
    ensures crash { SurvivesMoving S.Store conn.old conn.new }
{
    let _ = conn.schema();
    match judge_version(conn, alloc)? {
        KnownVersion::One => open_moved(conn, alloc),
        KnownVersion::Two => open_as_is(conn, alloc),
    }
}

/// Opens the tables of the desk that the database holds. The lists of its meetings are read and judged
/// one after the other, so that it takes the memory of the fullest.
///
/// Tables of version 2 are opened as they are, and nothing is written: they stand first and are
/// declared as `create` declares them; other tables, indexes and views may stand beside them.
/// Tables of version 1 are moved to version 2 in one transaction, which is committed only where
/// they hold an office. They are moved only where they and their indexes are as the program of
/// version 1 made them, and no other table, index or view stands beside them. Otherwise the fault
/// is `Store`, and nothing is written. Whatever tables the database holds, it is opened only where each
/// column that is read of their version stands.
///
/// The version is asked before the other tables are read. The fault is `NewerVersion` only where
/// the database understands the text that reads the version, and it shows version 3 or a later one.
/// Of tables that note their version, as those of both versions do, it is `NotADesk` only where
/// they note none, or version 1 or 2 and a column that is read of it is missing or what they hold
/// is no office. Tables that are whole in either version are refused as `Store` or `Memory` alone.
///
/// A refusal hands back the connection, or the store where that could not be read again, its tables
/// as they were. A connection in a transaction is refused as `Store` and handed back as it was. A
/// limit of steps that was set on the connection is not kept. Of a desk that is opened a crash
/// leaves the tables that are read, whole, and nothing else. After a refusal it leaves nothing that
/// it did not leave before, or, of tables of version 1 alone that hold an office, those tables
/// moved, whole of that office.
pub fn open<S: Alter + Drop>(
    alloc: Global,
    conn: Connection<S>,
) -> Result<Connection<S>, (OpenFault, HandedBack<S>)>
    ensures stands { IfOk result (λ opened. StandsWhole S.Store conn opened) }
    ensures whole { IfOk result (λ opened. OpensWhole S.Store conn opened) }
    ensures known { IfOk result (λ opened. WereKnown S.Store conn opened) }
    ensures is_open { IfOk result (λ opened. StaysOpen S.Store opened) }
    ensures none { IfOk result (λ opened. opened.in_transaction ≡ false) }
    ensures cause { IfErr result (λ e. IsWhyUnopened S.Store conn e.0 e.1) }
    ensures preserved { IfErr result (λ e. HandsBack S.Store (state S.Store conn).now.trees e.1) }
    ensures ended { IfErr result (λ e. conn.in_transaction ≡ false → IsInNone e.1) }
    ensures reopening { IfErr result (λ e. ReportsReopening S.Store conn e.0 e.1) }
    ensures settled { IfOk result (λ opened. IsSettled S.Store opened) }
    ensures crash { IfErr result (λ e. LeavesAtMostMoved S.Store (state S.Store conn) e.1) }
    ensures inside { IsTrue conn.in_transaction
        → result ≡ Err (opening.Store, back.Connection conn) }
{
    if !conn.is_autocommit() {
        return Err((OpenFault::Store, HandedBack::Connection(conn)));
    }
    let mut conn = match reopened(alloc, conn) {
        Ok(conn) => conn,
        Err((fault, store)) => return Err((fault, HandedBack::Store(store))),
    };
    match open_stored(&mut conn, alloc) {
        Ok(()) => Ok(conn),
        Err(fault) => Err((fault, HandedBack::Connection(conn))),
    }
}

/// Opens the tables of the desk that a database holds, as `open` does, where the numbers of the
/// rows of each table are known to rise, as they are of a file that was just opened: so they are
/// not read once more for that. A refusal hands back the connection, its tables as they were. A
/// limit of steps that was set on the connection is kept. A crash leaves what `open` says.
pub fn open_risen<S: Alter + Drop>(
    alloc: Global,
    conn: Connection<S>,
) -> Result<Connection<S>, (OpenFault, Connection<S>)>
    requires none { conn.in_transaction ≡ false }
    requires rising { HasCleanDisk (state S.Store conn) → RowsRise (state S.Store conn) }
    ensures stands { IfOk result (λ opened. StandsWhole S.Store conn opened) }
    ensures whole { IfOk result (λ opened. OpensWhole S.Store conn opened) }
    ensures known { IfOk result (λ opened. WereKnown S.Store conn opened) }
    ensures is_open { IfOk result (λ opened. StaysOpen S.Store opened) }
    ensures ended { IfOk result (λ opened. opened.in_transaction ≡ false) }
    ensures cause { IfErr result (λ e. IsWhyUnopened S.Store conn e.0 (back.Connection e.1)) }
    ensures preserved { IfErr result (λ e. KeepsOpenRows S.Store conn e.1) }
    ensures back { IfErr result (λ e. e.1.in_transaction ≡ false) }
    ensures settled { IfOk result (λ opened. IsSettled S.Store opened) }
    ensures survives { IfOk result (λ opened. SurvivesMoving S.Store conn opened) }
    ensures crash { IfErr result (λ e. SurvivesMoving S.Store conn e.1) }
{
    let mut conn = conn;
    match open_stored(&mut conn, alloc) {
        Ok(()) => Ok(conn),
        Err(fault) => Err((fault, conn)),
    }
}
