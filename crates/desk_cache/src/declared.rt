//! Whether the tables of a database are declared as those of a new desk.
ghost use Rattle.std.specs.Prelude.{◌≡◌, IfSome, IsTrue};
ghost use Rattle.sql_schema.specs.Tables.{desk_schema};
ghost use Rattle.sqlite.specs.Held.{state};
ghost use Rattle.sqlite.specs.Steps.{over_memory};

use schema_compare::is_same_schema;
use sqlite::{Alter, Connection, MemStore};
use std::alloc::Global;

/// A database in memory with the tables and indexes of a new desk, and no others.
fn new_in_memory(alloc: Global) -> Option<Connection<MemStore>>
    ensures { IfSome result (λ conn. (state over_memory conn).now.schema ≡ desk_schema) }
{
    let Ok(conn) = Connection::open_in_memory(alloc) else {
        return None;
    };
    match sql_open::create(conn) {
        Ok(conn) => Some(conn),
        Err(_) => None,
    }
}

/// Whether the tables and indexes of a database are declared as those that a new desk has, and there
/// are no others. Where memory is refused it is not said. Nothing is read or written.
pub(crate) fn is_as_made<S: Alter>(alloc: Global, conn: &Connection<S>) -> bool
    ensures { IsTrue result → (state S.Store conn.now).now.schema ≡ desk_schema }
{
    match new_in_memory(alloc) {
        Some(made) => is_same_schema(conn.schema(), made.schema()),
        None => false,
    }
}
