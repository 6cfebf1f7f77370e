//! The table `desk`: the version of the tables.
ghost use Rattle.std.specs.Prelude.{◌≡◌, IfOk};
ghost use Rattle.sql_schema.specs.Contents.{desk};
ghost use Rattle.sql_schema.specs.Statements.{AddsFirst, CommitsNothing, Does, Makes, ReadsTable};
ghost use Rattle.sql_schema.specs.Statements.{Sets, WasOpen};
ghost use Rattle.sql_schema.specs.Tables.{no_schema, up_to_desk};
ghost use Rattle.sql_desk_tables.specs.Versions.{AreNoted, FirstTableNotes, NotesVersion};
ghost use Rattle.sql_desk_tables.specs.Versions.{ShowsVersions};
ghost use Rattle.sqlite.specs.Held.{state};
ghost use Rattle.sqlite.specs.State.{HasCleanDisk, KeepsCommit, Survives};

use sqlite::{Alter, Error, Row, Transaction};

/// Makes the table, the first of all.
pub fn make<S: Alter>(tx: &mut Transaction<'_, S>) -> Result<usize, Error>
    ensures same_reference { tx.new.conn.ghost_name ≡ tx.old.conn.ghost_name }
    ensures made { Makes S.Store tx.old.conn.now tx.new.conn.now result no_schema up_to_desk }
    ensures commits { CommitsNothing S.Store tx.old.conn.now tx.new.conn.now }
{
    tx.execute(
        "CREATE TABLE desk (one INTEGER NOT NULL PRIMARY KEY, version INTEGER NOT NULL) STRICT",
        &[],
    )
}

/// Notes that the tables are of version 2.
pub fn add<S: Alter>(tx: &mut Transaction<'_, S>) -> Result<usize, Error>
    ensures same_reference { tx.new.conn.ghost_name ≡ tx.old.conn.ghost_name }
    ensures added { Does S.Store tx.old.conn.now tx.new.conn.now result
        (AddsFirst desk (record { number = 2 })) }
    ensures commits { CommitsNothing S.Store tx.old.conn.now tx.new.conn.now }
{
    tx.execute("INSERT INTO desk (one, version) VALUES (1, 2)", &[])
}

/// Notes that the tables, which noted another version, are of version 2.
pub fn raise<S: Alter>(tx: &mut Transaction<'_, S>) -> Result<usize, Error>
    ensures same_reference { tx.new.conn.ghost_name ≡ tx.old.conn.ghost_name }
    ensures set { Does S.Store tx.old.conn.now tx.new.conn.now result
        (Sets desk (λ _. record { number = 2 })) }
    ensures commits { CommitsNothing S.Store tx.old.conn.now tx.new.conn.now }
{
    tx.execute("UPDATE desk SET version = 2", &[])
}

/// The rows, of which there is one, of tables of any version. Whatever the tables are, the rows are
/// those that the text which reads the version shows.
pub fn all<S: Alter>(tx: &mut Transaction<'_, S>) -> Result<Vec<Row>, Error>
    ensures same_reference { tx.new.conn.ghost_name ≡ tx.old.conn.ghost_name }
    ensures rows { HasCleanDisk (state S.Store tx.new.conn.now)
        → AreNoted (state S.Store tx.old.conn.now) → IfOk result (λ rows.
        ReadsTable S.Store tx.old.conn.now tx.new.conn.now desk rows.items) }
    ensures shown { HasCleanDisk (state S.Store tx.new.conn.now) → IfOk result (λ rows.
        ShowsVersions S.Store (state S.Store tx.old.conn.now).now rows.items) }
    ensures preserved { HasCleanDisk (state S.Store tx.new.conn.now)
        → NotesVersion (state S.Store tx.old.conn.now).now.schema
        → KeepsCommit (state S.Store tx.old.conn.now) (state S.Store tx.new.conn.now) }
    ensures was_open { WasOpen (state S.Store tx.old.conn.now) (state S.Store tx.new.conn.now) }
    ensures crash { Survives (state S.Store tx.old.conn.now) (state S.Store tx.new.conn.now)
        (λ _. ⊥) }
{
    tx.query_all("SELECT one, version FROM desk ORDER BY one", &[])
}

/// Tables of which `desk` is the first note their version, whatever tables, indexes and views stand
/// beside it.
pub fn first_table_notes()
    ensures { FirstTableNotes }
{}
