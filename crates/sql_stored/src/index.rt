//! An index: the text that makes it.
ghost use Rattle.std.specs.Prelude.{◌≡◌};
ghost use Rattle.sqlite.specs.Change.{indexed};
ghost use Rattle.sqlite.specs.Schema.{Schema};
ghost use Rattle.sqlite.specs.Table.{Table};
ghost use Rattle.sqlite_schema.specs.declared.schema.Index.{Index};
ghost use Rattle.sql_lemmas.proofs.Making.{MakesIndex};
ghost use Rattle.sql_schema.specs.SqlTexts.{indexing_text};
ghost use Rattle.sql_schema.specs.Statements.{CommitsNothing, Makes};

use sqlite::{Alter, Error, Transaction};

/// An index on a table of the desk.
pub trait StoredIndex {
    // What is declared before it is made, its table there, and what it is.
    ghost before: { Schema };

    ghost on: { Table };

    ghost index: { Index };

    /// Makes it.
    fn making() -> &'static str
        ensures { result.now ≡ indexing_text on index };

    // The text does so.
    ghost makes: { MakesIndex before on index };
}

/// Makes an index, after what is declared before it.
pub fn make_index<I: StoredIndex, S: Alter>(tx: &mut Transaction<'_, S>) -> Result<usize, Error>
    ensures same_reference { tx.new.conn.ghost_name ≡ tx.old.conn.ghost_name }
    ensures made { Makes S.Store tx.old.conn.now tx.new.conn.now result I.before
        (indexed I.before I.on I.index) }
    ensures commits { CommitsNothing S.Store tx.old.conn.now tx.new.conn.now }
{
    tx.execute(I::making(), &[])
}
