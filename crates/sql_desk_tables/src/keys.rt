//! The table `keys`: the keys of the callers.
ghost use Rattle.std.specs.Prelude.{[], ◌≡◌, IfOk, refl};
ghost use Rattle.vocabulary.specs.Names.{same_name};
ghost use Rattle.sql_schema.specs.Contents.{keys};
ghost use Rattle.sql_schema.specs.Statements.{Adds, ChangesNothing, CommitsNothing, Does, FindsRecords, IsRead};
ghost use Rattle.sql_schema.specs.Tables.{keys_table, up_to_desk};
ghost use Rattle.sql_schema.specs.SqlTexts.{making_text};
ghost use Rattle.sql_desk_tables.specs.DeskTables.{first_columns, keys_emptied};
ghost use Rattle.sqlite.specs.Listing.{understood};
ghost use Rattle.sqlite_schema.specs.Names.{same_name as same_column};
ghost use Rattle.sqlite_tied.specs.Compute.{everything};
ghost use Rattle.sql_lemmas.proofs.Frames.{wide_one};
ghost use Rattle.sql_stored.specs.Stored.{HasTexts};

use desk_words::{KeyRow, SecretKey};
use sql_rows::{caller_text, key_text};
use sql_stored::{EmptiedTable, ReadTable, StoredTable, TableTexts, add_row, table_texts};
use sqlite::{Alter, Error, Row, Transaction, params};

/// The name and the columns of the table, for a text of this form.
macro_rules! keys_text {
    ($form:ident $(, $more:literal)*) => {
        $form!("keys", "party, secret", "rowid" $(, $more)*)
    };
}

/// The keys of the callers.
pub struct Keys;

impl StoredTable for Keys {
    type Record = KeyRow;

    ghost stands = { record {
      declared = keys_table;
      table = keys;
      before = up_to_desk;
      making = making_text first_columns [] keys_table;
    } };

    fn texts() -> TableTexts {
        keys_text!(
            table_texts,
            "?1, ?2",
            "CREATE TABLE keys (party TEXT NOT NULL PRIMARY KEY, secret TEXT NOT NULL UNIQUE) STRICT"
        )
    }

    ghost stored = { unfold understood everything same_column in record {
      makes = record { is = refl; alone = refl; plain = (refl, refl); defined = refl; full = refl };
      texts = wide_one (HasTexts keys keys_table) (λ others apart indexes views. record {
        lists = record { is = refl; plain = (refl, refl); unlisted = refl };
        counts = record { is = refl; plain = (refl, refl); unlisted = refl };
        adds = record { place = 1; is = refl; plain = (refl, refl); there = refl; numbered = refl };
      });
      listed = (refl, refl);
    } };
}

impl ReadTable for Keys {
    ghost reads_as = { refl };
}

impl EmptiedTable for Keys {
    fn emptying() -> &'static str {
        "DELETE FROM keys"
    }

    ghost empties = { keys_emptied };
}

/// Adds a caller's key.
pub fn add<S: Alter>(tx: &mut Transaction<'_, S>, key: &KeyRow) -> Result<usize, Error>
    ensures same_reference { tx.new.conn.ghost_name ≡ tx.old.conn.ghost_name }
    ensures added { Does S.Store tx.old.conn.now tx.new.conn.now result (Adds keys (key.now)) }
    ensures commits { CommitsNothing S.Store tx.old.conn.now tx.new.conn.now }
{
    add_row::<Keys, S>(tx, params![caller_text(&key.caller), key_text(&key.secret)])
}

/// The rows whose key this is, whole.
pub fn find<S: Alter>(tx: &mut Transaction<'_, S>, secret: &SecretKey) -> Result<Vec<Row>, Error>
    ensures same_reference { tx.new.conn.ghost_name ≡ tx.old.conn.ghost_name }
    ensures rows { IsRead S.Store tx.old.conn.now tx.new.conn.now
        → IfOk result
        (λ rows. FindsRecords S.Store tx.old.conn.now tx.new.conn.now keys
        (λ row. same_name row.secret secret.now) rows.items) }
    ensures changes { ChangesNothing S.Store tx.old.conn.now tx.new.conn.now }
{
    tx.query_all(
        "SELECT party, secret FROM keys WHERE secret = ?1 ORDER BY rowid",
        params![key_text(secret)],
    )
}
