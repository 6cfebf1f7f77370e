//! A table: the texts of its statements, and what they do.
ghost use Rattle.std.specs.Prelude.{◌≡◌, ℕ, List, IfOk};
ghost use Rattle.sqlite.specs.Schema.{Schema};
ghost use Rattle.sqlite.specs.Table.{Table};
ghost use Rattle.sqlite.specs.Change.{created};
ghost use Rattle.sqlite.specs.Values.{bound};
ghost use Rattle.sql_lemmas.proofs.Counting.{CountsTable, counting_text};
ghost use Rattle.sql_lemmas.proofs.Listing.{ListsTable};
ghost use Rattle.sql_lemmas.proofs.Making.{MakesTable};
ghost use Rattle.sql_lemmas.specs.CountedRows.{CountsRows};
ghost use Rattle.sql_schema.specs.SqlTexts.{adding_text, listing_text};
ghost use Rattle.sql_schema.specs.Statements.{Adds, ChangesNothing, CommitsNothing, Does, Empties, IsRead, Makes, ReadsTable, TableOf, layout_two};
ghost use Rattle.sql_stored.specs.Stored.{AddsRows, EmptiesTable, IsRowOf, IsStored, Stands, adds_of, counts_of, emptying_text, lists_of};

use sql_rows::FromRow;
use sqlite::{Alter, Error, Row, Transaction};
use sqlite_value::value::ValueRef;

/// A table of the desk, of which each row is a record.
pub trait ListedTable {
    type Record;

    // How it is declared, and what its rows mean.
    ghost declared: { Table };

    ghost table: { TableOf Self.Record };

    /// Shows all rows, in the order of their numbers.
    fn listing() -> &'static str
        ensures { result.now ≡ listing_text declared };

    // The text does so.
    ghost lists: { ListsTable layout_two table declared };
}

/// A table whose rows a text counts.
pub trait CountedTable: ListedTable {
    /// Shows how many rows there are.
    fn counting() -> &'static str
        ensures { result.now ≡ counting_text Self.declared };

    // The text does so.
    ghost counts: { CountsTable Self.table Self.declared };
}

/// A table whose rows mean what they read as.
pub trait ReadTable: ListedTable
where
    Self::Record: FromRow,
{
    ghost reads_as: { Self.table.means ≡ Self.Record.FromRow.means };
}

/// A table that a text makes.
pub trait MadeTable: ListedTable {
    // What is declared before it is made, and the text.
    ghost before: { Schema };

    ghost making: { List ℕ };

    /// Makes it.
    fn making() -> &'static str
        ensures { result.now ≡ making };

    // The text does so.
    ghost makes: { MakesTable before making Self.declared };
}

/// A table to which a text adds a row.
pub trait FilledTable: ListedTable {
    /// Adds a row of what is passed.
    fn adding() -> &'static str
        ensures { result.now ≡ adding_text Self.declared };

    // The text does so.
    ghost adds: { AddsRows Self.table Self.declared };
}

/// A table whose rows a text takes out.
pub trait EmptiedTable: ListedTable {
    /// Takes out every row.
    fn emptying() -> &'static str
        ensures { result.now ≡ emptying_text Self.declared };

    // The text does so.
    ghost empties: { EmptiesTable Self.table Self.declared };
}

/// The texts of the statements on a table: that makes it, that shows all rows, that counts them, and
/// that adds one.
#[derive(Clone, Copy)]
pub struct TableTexts {
    pub making: &'static str,
    pub listing: &'static str,
    pub counting: &'static str,
    pub adding: &'static str,
}

/// A table that is made, shown and added to.
pub trait StoredTable {
    type Record;

    // How it is declared, what its rows mean, and what is declared before it is made.
    ghost stands: { Stands Self.Record };

    /// The texts of its statements.
    fn texts() -> TableTexts
        ensures making { result.making.now ≡ stands.making }
        ensures listing { result.listing.now ≡ listing_text stands.declared }
        ensures counting { result.counting.now ≡ counting_text stands.declared }
        ensures adding { result.adding.now ≡ adding_text stands.declared };

    // The texts do what they say.
    ghost stored: { IsStored stands };
}

impl<T: StoredTable> ListedTable for T {
    type Record = T::Record;

    ghost declared = { T.stands.declared };

    ghost table = { T.stands.table };

    fn listing() -> &'static str {
        T::texts().listing
    }

    ghost lists = { lists_of T.stored };
}

impl<T: StoredTable> CountedTable for T {
    fn counting() -> &'static str {
        T::texts().counting
    }

    ghost counts = { counts_of T.stored };
}

impl<T: StoredTable> MadeTable for T {
    ghost before = { T.stands.before };

    ghost making = { T.stands.making };

    fn making() -> &'static str {
        T::texts().making
    }

    ghost makes = { T.stored.makes };
}

impl<T: StoredTable> FilledTable for T {
    fn adding() -> &'static str {
        T::texts().adding
    }

    ghost adds = { adds_of T.stored };
}

/// Makes a table, after what is declared before it.
pub fn make<T: MadeTable, S: Alter>(tx: &mut Transaction<'_, S>) -> Result<usize, Error>
    ensures same_reference { tx.new.conn.ghost_name ≡ tx.old.conn.ghost_name }
    ensures made { Makes S.Store tx.old.conn.now tx.new.conn.now result T.before
        (created T.before T.declared) }
    ensures commits { CommitsNothing S.Store tx.old.conn.now tx.new.conn.now }
{
    tx.execute(T::making(), &[])
}

/// Adds a row of these values: the record that such a row is.
pub fn add_row<T: FilledTable, S: Alter>(
    tx: &mut Transaction<'_, S>,
    values: &[ValueRef<'_>],
) -> Result<usize, Error>
    ensures same_reference { tx.new.conn.ghost_name ≡ tx.old.conn.ghost_name }
    ensures added { (added : T.Record) → IsRowOf T.table T.declared added (bound values.now)
        → Does S.Store tx.old.conn.now tx.new.conn.now result (Adds T.table added) }
    ensures commits { CommitsNothing S.Store tx.old.conn.now tx.new.conn.now }
{
    tx.execute(T::adding(), values)
}

/// The rows of a table, in the order of their numbers.
pub fn all<T: ListedTable, S: Alter>(tx: &mut Transaction<'_, S>) -> Result<Vec<Row>, Error>
    ensures same_reference { tx.new.conn.ghost_name ≡ tx.old.conn.ghost_name }
    ensures rows { IsRead S.Store tx.old.conn.now tx.new.conn.now
        → IfOk result
        (λ rows. ReadsTable S.Store tx.old.conn.now tx.new.conn.now T.table rows.items) }
    ensures changes { ChangesNothing S.Store tx.old.conn.now tx.new.conn.now }
{
    tx.query_all(T::listing(), &[])
}

/// The row of how many rows a table has. None of them is shown.
pub fn row_count<T: CountedTable, S: Alter>(tx: &mut Transaction<'_, S>) -> Result<Vec<Row>, Error>
    ensures same_reference { tx.new.conn.ghost_name ≡ tx.old.conn.ghost_name }
    ensures rows { IsRead S.Store tx.old.conn.now tx.new.conn.now
        → IfOk result
        (λ rows. CountsRows S.Store tx.old.conn.now tx.new.conn.now T.table rows.items) }
    ensures changes { ChangesNothing S.Store tx.old.conn.now tx.new.conn.now }
{
    tx.query_all(T::counting(), &[])
}

/// Takes out every row of a table.
pub fn empty<T: EmptiedTable, S: Alter>(tx: &mut Transaction<'_, S>) -> Result<usize, Error>
    ensures same_reference { tx.new.conn.ghost_name ≡ tx.old.conn.ghost_name }
    ensures emptied { Does S.Store tx.old.conn.now tx.new.conn.now result (Empties T.table) }
    ensures commits { CommitsNothing S.Store tx.old.conn.now tx.new.conn.now }
{
    tx.execute(T::emptying(), &[])
}
