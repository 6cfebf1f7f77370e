//! The table `closed`: the closed days (section 1173).
ghost use Rattle.std.specs.Prelude.{[], ◌≡◌, nat_lt, refl};
ghost use Rattle.sql_schema.specs.Contents.{closed};
ghost use Rattle.sql_schema.specs.Statements.{AddsAfter, CommitsNothing, Does};
ghost use Rattle.sql_schema.specs.Tables.{closed_table, up_to_keys};
ghost use Rattle.sql_schema.specs.SqlTexts.{making_text};
ghost use Rattle.sql_desk_tables.specs.DeskTables.{closed_emptied, closed_listed, closed_made, day_column};

use desk_words::Day;
use sql_rows::day_number;
use sql_stored::{EmptiedTable, ListedTable, MadeTable, ReadTable};
use sqlite::{Alter, Error, Transaction, params};

/// The closed days (section 1173).
pub struct ClosedDays;

impl ListedTable for ClosedDays {
    type Record = Day;

    ghost declared = { closed_table };

    ghost table = { closed };

    fn listing() -> &'static str {
        "SELECT day FROM closed ORDER BY day"
    }

    ghost lists = { closed_listed };
}

impl ReadTable for ClosedDays {
    ghost reads_as = { refl };
}

impl MadeTable for ClosedDays {
    ghost before = { up_to_keys };

    ghost making = { making_text day_column [] closed_table };

    fn making() -> &'static str {
        "CREATE TABLE closed (day INTEGER NOT NULL PRIMARY KEY) STRICT"
    }

    ghost makes = { closed_made };
}

impl EmptiedTable for ClosedDays {
    fn emptying() -> &'static str {
        "DELETE FROM closed"
    }

    ghost empties = { closed_emptied };
}

/// Adds a closed day, after earlier ones.
pub fn add<S: Alter>(tx: &mut Transaction<'_, S>, day: Day) -> Result<usize, Error>
    ensures same_reference { tx.new.conn.ghost_name ≡ tx.old.conn.ghost_name }
    ensures added { Does S.Store tx.old.conn.now tx.new.conn.now result
        (AddsAfter (λ earlier. nat_lt earlier day) closed day) }
    ensures commits { CommitsNothing S.Store tx.old.conn.now tx.new.conn.now }
{
    tx.execute(
        "INSERT INTO closed (day) VALUES (?1)",
        params![day_number(day)],
    )
}
