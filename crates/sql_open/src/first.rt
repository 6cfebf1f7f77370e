//! The tables and indexes of version 1, as its program made them.
ghost use Rattle.std.specs.Prelude.{◌≡◌, ◌⊎◌, false, IfErr, IfOk, OnOk};
ghost use Rattle.sql_open.specs.Known.{IsMadeAs};
ghost use Rattle.sql_open.specs.declared.fault.OpenFault.TheVariants.{Store, Memory};
ghost use Rattle.sql_open.specs.declared.version.KnownVersion.TheVariants as known;
ghost use Rattle.sql_schema.specs.Tables.{no_schema, schema_one};
ghost use Rattle.sqlite.specs.Held.{state};
ghost use Rattle.sqlite.specs.State.{HasCleanDisk};
ghost use Rattle.sqlite.specs.Steps.{over_memory};

use crate::fault::OpenFault;
use crate::making::make_first;
use schema_compare::is_same_schema;
use sqlite::{Alter, Connection, Error, MemStore};
use std::alloc::Global;

/// Makes the tables and indexes of version 1 in a database that has none.
fn make_first_in<S: Alter>(conn: &mut Connection<S>) -> Result<(), Error>
    requires { conn.old.in_transaction ≡ false }
    ensures { HasCleanDisk (state S.Store conn.new)
        → (state S.Store conn.old).now.schema ≡ no_schema
        → OnOk result ((state S.Store conn.new).now.schema ≡ schema_one) }
{
    let mut tx = conn.transaction();
    make_first(&mut tx)?;
    tx.commit()
}

/// A database in memory that has the tables and indexes of version 1, and no others.
fn first_in_memory(alloc: Global) -> Result<Connection<MemStore>, Error>
    ensures { IfOk result (λ conn. (state over_memory conn).now.schema ≡ schema_one) }
{
    let mut conn = Connection::open_in_memory(alloc)?;
    make_first_in(&mut conn)?;
    Ok(conn)
}

/// Judges whether the tables and indexes of a database are those of version 1, as its program made
/// them, and whether there are no others. The fault is `Store` where they are not. Nothing is read
/// or written.
#[tactic(auto, using(crate::proofs::FaultLemmas::of_the_store))]
pub(crate) fn judge_declared<S: Alter>(conn: &Connection<S>, alloc: Global) -> Result<(), OpenFault>
    ensures made { OnOk result (IsMadeAs known.One (state S.Store conn.now).now.schema) }
    ensures fault { IfErr result (λ fault. (fault ≡ Store) ⊎ (fault ≡ Memory)) }
{
    let first = first_in_memory(alloc)?;
    if is_same_schema(conn.schema(), first.schema()) {
        Ok(())
    } else {
        Err(OpenFault::Store)
    }
}
