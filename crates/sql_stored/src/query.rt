//! Queries of the rows of a table: each is one fixed statement, by a key.
ghost use Rattle.std.specs.Prelude.{◌≡◌, ℕ, List, IfOk};
ghost use Rattle.sql_schema.specs.Statements.{ChangesNothing, CommitsNothing, FindsRecords, IsRead};
ghost use Rattle.sql_stored.specs.Keys.{FindsBy, keyed_text};

use crate::keys::RowKey;
use crate::table::ListedTable;
use sqlite::{Alter, Error, Row, Transaction};

/// A query of the rows of a table that hold a key.
pub trait Query {
    type Table: ListedTable;

    type Key: RowKey;

    // The places of what holds the key among the columns that are shown, from 0.
    ghost places: { List ℕ };

    // The key that a record has.
    ghost key_of: { Self.Table.Record → Self.Key };

    /// Shows the rows that hold what is passed, in the order of their numbers.
    fn finding() -> &'static str
        ensures { result.now ≡ keyed_text Self.Table.declared places };

    // It finds by the key of a record.
    ghost finds: { FindsBy Self.Table.table Self.Table.declared Self.Key.tests Self.Key.held places
        key_of };
}

/// The rows that a query finds, in the order of their numbers. A number that no column holds is an
/// error, as `whole` says.
pub fn find<Q: Query, S: Alter>(tx: &mut Transaction<'_, S>, key: Q::Key) -> Result<Vec<Row>, Error>
    ensures same_reference { tx.new.conn.ghost_name ≡ tx.old.conn.ghost_name }
    ensures rows { IsRead S.Store tx.old.conn.now tx.new.conn.now
        → IfOk result
        (λ rows. FindsRecords S.Store tx.old.conn.now tx.new.conn.now Q.Table.table
        (λ it. Q.Key.same (Q.key_of it) key) rows.items) }
    ensures changes { ChangesNothing S.Store tx.old.conn.now tx.new.conn.now }
    ensures commits { CommitsNothing S.Store tx.old.conn.now tx.new.conn.now }
{
    key.ask(tx, Q::finding())
}
