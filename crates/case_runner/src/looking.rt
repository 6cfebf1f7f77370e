//! What shows of the office in two files: the rows of all tables, and what its book replies.
use crate::calls;
use case_desks::{Outcome, failure_word, replies_of, word};
use desk_store::{Desk, HandedBack};
use sqlite::types::ValueRef;
use sqlite::{Alter, Connection, Row};
use std::alloc::{AllocError, Global};

/// The statements that read each table whole, those of either version.
const TABLES: [&str; 17] = [
    "SELECT * FROM desk",
    "SELECT * FROM keys",
    "SELECT * FROM closed",
    "SELECT * FROM meetings",
    "SELECT * FROM resolutions",
    "SELECT * FROM register",
    "SELECT * FROM appointments",
    "SELECT * FROM endings",
    "SELECT * FROM authorities",
    "SELECT * FROM presences",
    "SELECT * FROM demands",
    "SELECT * FROM polls",
    "SELECT * FROM casts",
    "SELECT * FROM sessions",
    "SELECT * FROM presences2",
    "SELECT * FROM demands2",
    "SELECT * FROM polls2",
];

/// Adds a value to what shows.
fn add_value(alloc: Global, value: ValueRef, shown: &mut Vec<u8>) -> Result<(), AllocError> {
    match value {
        ValueRef::Text(text) => shown.extend_from_slice(text)?,
        ValueRef::Int(number) => {
            shown.extend_from_slice(format!(in alloc; "{number}")?.as_bytes())?
        }
        ValueRef::Null => shown.extend_from_slice(b"none")?,
        _ => shown.extend_from_slice(b"no value of a desk")?,
    }
    Ok(())
}

/// Adds the values of a row to what shows, with this byte before each that is not the first.
fn add_row(alloc: Global, row: &Row, parting: u8, shown: &mut Vec<u8>) -> Result<(), AllocError> {
    for at in 0..row.column_count() {
        if let Ok(value) = row.get_ref(at) {
            if !shown.is_empty() {
                shown.push(parting)?;
            }
            add_value(alloc, value, shown)?;
        }
    }
    Ok(())
}

fn add_rows(
    alloc: Global,
    rows: &[Row],
    parting: u8,
    shown: &mut Vec<u8>,
) -> Result<(), AllocError> {
    for row in rows {
        add_row(alloc, row, parting, shown)?;
    }
    Ok(())
}

/// All rows that a statement reads; none where it fails.
fn rows_of<S: Alter>(conn: &mut Connection<S>, sql: &str) -> Option<Vec<Row>> {
    conn.query_all(sql, &[]).ok()
}

/// Adds the rows that a statement reads, or that it reads none where a table is not there. No text
/// of a desk has a line feed.
fn add_table<S: Alter>(
    alloc: Global,
    conn: &mut Connection<S>,
    sql: &str,
    shown: &mut Vec<u8>,
) -> Result<(), AllocError> {
    match rows_of(conn, sql) {
        Some(rows) => add_rows(alloc, &rows, b'\n', shown)?,
        None => shown.extend_from_slice(b"no table")?,
    }
    Ok(shown.push(b'\n')?)
}

/// The rows of all tables, of a database that no desk has.
fn all_rows<S: Alter>(alloc: Global, conn: &mut Connection<S>) -> Result<Vec<u8>, AllocError> {
    let mut shown = Vec::new(alloc);
    for sql in TABLES {
        add_table(alloc, conn, sql, &mut shown)?;
    }
    Ok(shown)
}

fn values_of(alloc: Global, rows: &[Row]) -> Result<Vec<u8>, AllocError> {
    let mut shown = Vec::new(alloc);
    add_rows(alloc, rows, b' ', &mut shown)?;
    Ok(shown)
}

/// The values of the rows that a statement reads, with a space between two, and the store of the
/// database.
pub fn read<S: Alter + Drop>(alloc: Global, mut conn: Connection<S>, sql: &str) -> (Outcome, S) {
    let answer = match rows_of(&mut conn, sql) {
        Some(rows) => values_of(alloc, &rows).map_err(|_| "Memory"),
        None => Err("not read"),
    };
    (answer, conn.into_store())
}

/// What the book of a desk replies to each of some calls.
fn ask_book<S: Alter>(alloc: Global, desk: &mut Desk<S>, lines: &[&str]) -> Outcome {
    match calls::book(desk) {
        Ok(book) => replies_of(alloc, &book, lines).map_err(|_| "Memory"),
        Err(failure) => Err(failure_word(failure)),
    }
}

/// The store of what is handed back.
fn store_of<S: Alter + Drop>(back: HandedBack<S>) -> S {
    match back {
        HandedBack::Connection(conn) => conn.into_store(),
        HandedBack::Store(store) => store,
    }
}

/// What is answered where a database is opened as a desk, and its store.
pub fn open_any<S: Alter + Drop>(alloc: Global, conn: Connection<S>) -> (Outcome, S) {
    match calls::open(alloc, conn) {
        Ok(desk) => (word(alloc, "opened"), desk.close().into_store()),
        Err((word, back)) => (Err(word), store_of(back)),
    }
}

/// What the book replies of the desk in a database, or the word of the fault by which it is none,
/// and the store.
fn replies<S: Alter + Drop>(alloc: Global, conn: Connection<S>, lines: &[&str]) -> (Outcome, S) {
    match calls::open(alloc, conn) {
        Ok(mut desk) => {
            let shown = ask_book(alloc, &mut desk, lines);
            (shown, desk.close().into_store())
        }
        Err((text, back)) => (word(alloc, text), store_of(back)),
    }
}

/// What showed, and behind it an answer that is no fault.
fn joined(mut shown: Vec<u8>, answer: Outcome) -> Outcome {
    let more = answer?;
    match shown.extend_from_slice(&more) {
        Ok(()) => Ok(shown),
        Err(_) => Err("Memory"),
    }
}

/// What shows of a database, and its store: the rows of all tables as they are before it is
/// opened, and what its book then replies to each of some calls, or why it is not opened.
pub fn look<S: Alter + Drop>(
    alloc: Global,
    mut conn: Connection<S>,
    lines: &[&str],
) -> (Outcome, S) {
    match all_rows(alloc, &mut conn) {
        Ok(rows) => {
            let (answer, store) = replies(alloc, conn, lines);
            (joined(rows, answer), store)
        }
        Err(_) => (Err("Memory"), conn.into_store()),
    }
}
