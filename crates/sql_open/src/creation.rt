//! The tables of a new desk.
ghost use Rattle.std.specs.Prelude.{◌≡◌, ◌≢◌, ◌⊎◌, false, IfErr, IfOk, IsErrAnd, IsTrue};
ghost use Rattle.std.specs.Prelude.{OnErr, OnOk};
ghost use Rattle.sql_model.specs.Standing.{Stands};
ghost use Rattle.sql_open.specs.Crashes.{LeavesItself};
ghost use Rattle.sql_open.specs.Opened.{HoldsNothing, IsSettled, KeepsOpenTables};
ghost use Rattle.sql_open.specs.Opened.{OnDone, StaysOpen, SurvivesMaking};
ghost use Rattle.sql_open.specs.declared.fault.CreateError.TheVariants.{NotEmpty};
ghost use Rattle.sql_open.specs.declared.fault.CreateError.TheVariants as creating;
ghost use Rattle.sql_schema.specs.Tables.{desk_schema, no_schema};
ghost use Rattle.desk_words.specs.Changes.{empty_office};
ghost use Rattle.sqlite.specs.Held.{state};
ghost use Rattle.sqlite.specs.State.{HasCleanDisk, IsLive};

use crate::fault::CreateError;
use crate::making::make_empty_desk;
use sqlite::{Alter, Connection, Error};

/// Whether the database has no table, no index and no view.
fn has_nothing<S: Alter>(conn: &Connection<S>) -> bool
    ensures nothing { IsTrue result → (state S.Store conn.now).now.schema ≡ no_schema }
    ensures something { result ≡ false → (state S.Store conn.now).now.schema ≢ no_schema }
{
    let schema = conn.schema();
    schema.tables.len() == 0 && schema.indexes.len() == 0 && schema.views.len() == 0
}

/// Nothing is done: of an open store whose connection is in no transaction a crash leaves the
/// tables that are read, and nothing else.
pub(crate) fn rests<S: Alter>(conn: &Connection<S>)
    requires { conn.now.in_transaction ≡ false }
    ensures settled { IsTrue (state S.Store conn.now).is_open
        → LeavesItself (state S.Store conn.now) }
    ensures live { IsLive (state S.Store conn.now) }
{
    let _ = conn.is_autocommit();
    let _ = conn.schema();
}

/// Makes the tables of a desk that holds nothing, in one transaction.
fn make_desk<S: Alter>(conn: &mut Connection<S>) -> Result<(), Error>
    requires { conn.old.in_transaction ≡ false }
    ensures ended { conn.new.in_transaction ≡ false }
    ensures made { HasCleanDisk (state S.Store conn.new)
        → (state S.Store conn.old).now.schema ≡ no_schema
        → OnOk result (Stands (state S.Store conn.new) empty_office
        × ((state S.Store conn.new).now.schema ≡ desk_schema)) }
    ensures same { HasCleanDisk (state S.Store conn.new) → IsTrue (state S.Store conn.new).is_open
        → (state S.Store conn.old).now.schema ≡ no_schema
        → OnErr result ((state S.Store conn.new).now ≡ (state S.Store conn.old).now) }
    ensures is_open { OnDone S.Store conn.new result (IsTrue (state S.Store conn.new).is_open) }
    ensures crash { SurvivesMaking S.Store conn.old conn.new }
{
    let _ = conn.is_autocommit();
    let mut tx = conn.transaction();
    make_empty_desk(&mut tx)?;
    tx.commit()
}

/// Makes the tables of a desk that holds nothing and their indexes, and no others, in one
/// transaction. The store is then open. The fault is `NotEmpty` exactly where the database has a
/// table, an index or a view. A refusal hands the connection back, its tables as they were. A
/// connection in a transaction is refused, as `NotEmpty` or `Store`, and is handed back as it was.
/// Of a desk that is made a crash leaves the tables that are read, and nothing else; after a refusal
/// it leaves what it left before, or the tables that are made, whole.
#[tactic(auto, using(crate::proofs::FaultLemmas::never_not_empty))]
pub fn create<S: Alter + Drop>(
    conn: Connection<S>,
) -> Result<Connection<S>, (CreateError, Connection<S>)>
    ensures made { IfOk result (λ made. HoldsNothing S.Store made) }
    ensures empty { IfOk result (λ _. (state S.Store conn).now.schema ≡ no_schema) }
    ensures none { IfOk result (λ made. made.in_transaction ≡ false) }
    ensures is_open { IfOk result (λ made. StaysOpen S.Store made) }
    ensures not_empty { IfErr result (λ e. e.0 ≡ NotEmpty
        → (state S.Store conn).now.schema ≢ no_schema) }
    ensures cause { IfErr result (λ e. e.0 ≢ NotEmpty
        → (state S.Store conn).now.schema ≡ no_schema) }
    ensures same { IfErr result (λ e. KeepsOpenTables S.Store conn e.1) }
    ensures ended { IfErr result (λ e. conn.in_transaction ≡ false
        → e.1.in_transaction ≡ false) }
    ensures untouched { IfErr result (λ e. e.0 ≡ NotEmpty → e.1 ≡ conn) }
    ensures settled { IfOk result (λ made. IsSettled S.Store made) }
    ensures crash { IfOk result (λ made. SurvivesMaking S.Store conn made) }
    ensures unmade { IfErr result (λ e. SurvivesMaking S.Store conn e.1) }
    ensures inside { IsTrue conn.in_transaction → IsErrAnd result (λ e.
        ((e.0 ≡ NotEmpty) ⊎ (e.0 ≡ creating.Store)) × (e.1 ≡ conn)) }
{
    if !has_nothing(&conn) {
        return Err((CreateError::NotEmpty, conn));
    }
    if !conn.is_autocommit() {
        return Err((CreateError::Store, conn));
    }
    let mut conn = conn;
    match make_desk(&mut conn) {
        Ok(()) => {
            rests(&conn);
            Ok(conn)
        }
        Err(error) => Err((CreateError::from(error), conn)),
    }
}
