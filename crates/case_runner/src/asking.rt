//! What is asked over a database, and what is answered.
ghost use Rattle.std.specs.Prelude.{◌≡◌, false};
ghost use Rattle.sql_open.specs.Rising.{RowsRise};
ghost use Rattle.sqlite.specs.Held.{state};
ghost use Rattle.sqlite.specs.State.{HasCleanDisk};

use crate::calls;
use crate::faults::open_word;
use crate::looking::{look, open_any, read};
use case_desks::{Asked, Outcome, ask_office, word};
use desk_cache::CachingDesk;
use sqlite::{Alter, Connection};
use std::alloc::Global;

/// What is answered where a database is to be made a desk, and its store.
fn create<S: Alter + Drop>(alloc: Global, conn: Connection<S>) -> (Outcome, S) {
    match calls::create(alloc, conn) {
        Ok(desk) => (word(alloc, "created"), desk.close().into_store()),
        Err((word, conn)) => (Err(word), conn.into_store()),
    }
}

/// What is answered where a statement is run on a database, and its store.
fn execute<S: Alter + Drop>(alloc: Global, mut conn: Connection<S>, sql: &str) -> (Outcome, S) {
    let answer = if calls::execute(&mut conn, sql) {
        word(alloc, "done")
    } else {
        Err("not done")
    };
    (answer, conn.into_store())
}

/// What is answered where a database is to be opened as a desk, and its store. It is opened as the
/// program opens a file.
fn open<S: Alter + Drop>(alloc: Global, conn: Connection<S>, asked: &Asked) -> (Outcome, S)
    requires none { conn.in_transaction ≡ false }
    requires rising { HasCleanDisk (state S.Store conn) → RowsRise (state S.Store conn) }
{
    match sql_open::open_risen(alloc, conn) {
        Ok(opened) => {
            let mut desk = CachingDesk::of_opened(alloc, opened);
            let answer = ask_office(alloc, &mut desk, asked);
            (answer, desk.close().into_store())
        }
        Err((fault, conn)) => (Err(open_word(fault)), conn.into_store()),
    }
}

/// What is answered over a database, and its store.
pub fn ask<S: Alter + Drop>(alloc: Global, conn: Connection<S>, asked: &Asked) -> (Outcome, S)
    requires none { conn.in_transaction ≡ false }
    requires rising { HasCleanDisk (state S.Store conn) → RowsRise (state S.Store conn) }
{
    match asked {
        Asked::Create => create(alloc, conn),
        Asked::Statement(sql) => execute(alloc, conn, sql),
        Asked::Rows(sql) => read(alloc, conn, sql),
        Asked::Open => open_any(alloc, conn),
        Asked::Book(lines) => look(alloc, conn, lines),
        Asked::OpenFile | Asked::Call(_) | Asked::Request(_) => open(alloc, conn, asked),
    }
}
