//! Whether the columns that are read stand.
ghost use Rattle.std.specs.Prelude.{◌≡◌, ◌∷◌, [], false, map};
ghost use Rattle.sql_schema.specs.SqlTexts.{asking_text};
ghost use Rattle.sql_schema.specs.Statements.{HasTables, layout_one, layout_two};
ghost use Rattle.sql_schema.specs.Tables.{asked_one, asked_two};
ghost use Rattle.sqlite.specs.Schema.{Schema};
ghost use Rattle.sql_desk_tables.specs.ColumnChecks.{AsksFor, HasColumns, HasColumnsOf};
ghost use Rattle.sql_desk_tables.specs.Versions.{version_text};
ghost use Rattle.sql_desk_tables.specs.declared.columns.ColumnError.TheVariants.{Refused};

use sqlite::{Alter, Connection, Error};

/// Why columns are not known to stand.
#[derive(Clone, Copy, PartialEq, Eq)]
pub enum ColumnError {
    /// A column that is read does not stand.
    Missing,
    /// The store refused to say, want of memory among its causes.
    Refused(Error),
}

impl From<Error> for ColumnError {
    ghost from_gives = { λ error fault. fault ≡ Refused error };

    fn from(error: Error) -> ColumnError {
        ColumnError::Refused(error)
    }
}

/// Whether the database understands a statement, which is not run.
fn ask<S: Alter>(conn: &mut Connection<S>, sql: &str) -> Result<(), ColumnError>
    requires { conn.old.in_transaction ≡ false }
    ensures ended { conn.new.in_transaction ≡ false }
    ensures asked { AsksFor S.Store conn.old conn.new (sql.now ∷ []) result }
{
    let _ = conn.is_autocommit();
    let prepared = conn.prepare(sql);
    if let Err(Error::SqlInputError(_)) = &prepared {
        return Err(ColumnError::Missing);
    }
    prepared?;
    Ok(())
}

/// Whether the columns that note the version stand. No statement is run.
pub fn ask_version<S: Alter>(conn: &mut Connection<S>) -> Result<(), ColumnError>
    requires { conn.old.in_transaction ≡ false }
    ensures ended { conn.new.in_transaction ≡ false }
    ensures asked { AsksFor S.Store conn.old conn.new (version_text ∷ []) result }
{
    ask(conn, "SELECT one, version FROM desk ORDER BY one")
}

/// Whether the database understands each of these statements, of which none is run.
fn ask_each<S: Alter>(
    conn: &mut Connection<S>,
    first: &str,
    more: &[&str],
) -> Result<(), ColumnError>
    requires { conn.old.in_transaction ≡ false }
    ensures ended { conn.new.in_transaction ≡ false }
    ensures asked { AsksFor S.Store conn.old conn.new (first.now ∷ map (λ text. text.now) more.now)
        result }
{
    ask(conn, first)?;
    for sql in more {
        ask(conn, sql)?;
    }
    Ok(())
}

/// Whether each column that is read of tables of version 1 stands. No statement is run.
pub fn ask_columns_one<S: Alter>(conn: &mut Connection<S>) -> Result<(), ColumnError>
    requires { conn.old.in_transaction ≡ false }
    ensures ended { conn.new.in_transaction ≡ false }
    ensures asked { AsksFor S.Store conn.old conn.new (map asking_text asked_one) result }
{
    ask_each(
        conn,
        "SELECT one, version FROM desk",
        &[
            "SELECT party, secret FROM keys",
            "SELECT day FROM closed",
            "SELECT seq, meeting, company, kind, given, appointed, record, loaded, opened FROM meetings",
            "SELECT meeting, number, kind, body FROM resolutions",
            "SELECT meeting, member, kind, name, shares, paid FROM register",
            "SELECT seq, meeting, member, number, proxy, first, last, instructions, moment FROM appointments",
            "SELECT seq, meeting, member, number, moment FROM endings",
            "SELECT seq, meeting, corporation, person, moment FROM authorities",
            "SELECT seq, meeting, party, moment FROM presences",
            "SELECT seq, meeting, resolution, party, moment FROM demands",
            "SELECT meeting, resolution, ordered, take, chair, started, closed, votes_for, votes_against, withheld, eligible FROM polls",
            "SELECT seq, meeting, resolution, voter, capacity, member, first, last, way, moment FROM casts",
        ],
    )
}

/// Whether each column that is read stands. No statement is run.
pub fn ask_columns<S: Alter>(conn: &mut Connection<S>) -> Result<(), ColumnError>
    requires { conn.old.in_transaction ≡ false }
    ensures ended { conn.new.in_transaction ≡ false }
    ensures asked { AsksFor S.Store conn.old conn.new (map asking_text asked_two) result }
{
    ask_columns_one(conn)?;
    ask_each(
        conn,
        "SELECT meeting, number, appointed, opened FROM sessions",
        &[
            "SELECT seq, meeting, session, party, moment FROM presences2",
            "SELECT seq, meeting, session, resolution, party, moment FROM demands2",
            "SELECT meeting, session, resolution, ordered, take, chair, started, closed, votes_for, votes_against, withheld, eligible FROM polls2",
        ],
    )
}

/// Over the tables of a desk each column that is read stands, whatever other tables, indexes and
/// views stand beside them.
pub fn desk_has_columns()
    ensures { (declared : Schema) → HasTables layout_two declared → HasColumns declared }
{}

/// Over the tables of version 1 each column that is read of them stands, whatever other tables,
/// indexes and views stand beside them.
pub fn desk_one_has_columns()
    ensures { (declared : Schema) → HasTables layout_one declared → HasColumnsOf asked_one declared }
{}
