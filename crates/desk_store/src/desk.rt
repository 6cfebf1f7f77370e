//! The desk of a company over its tables.
ghost use Rattle.std.specs.Prelude.{◌≡◌, false};
ghost use Rattle.sql_open.specs.WholeDesk.{AsksOpen};

use crate::reading::failure_of;
use desk_words::Failure;
use sql_open::ask_open;
use sqlite::{Alter, Connection};
use std::alloc::Global;
use std::marker::Model;

/// The desk of one company over a database. Contracts see it as its connection, which is in no
/// transaction.
pub struct Desk<S: Alter> {
    pub(crate) conn: Connection<S>,
    pub(crate) alloc: Global,
}

impl<S: Alter + Drop> Drop for Desk<S> {
    fn drop(self) {
        let Desk { conn: _, alloc: _ } = self;
    }
}

impl<S: Alter> Model for Desk<S> {
    ghost use Rattle.std.specs.Prelude.{◌≡◌, false};
    ghost use Rattle.sqlite.specs.Held.{Held, held_code};

    ghost Value = { Held S };

    ghost coded = { held_code S.code };

    ghost view = { λ d. d.conn };

    ghost invariant = { λ d. d.conn.in_transaction ≡ false };
}

impl<S: Alter> Desk<S> {
    /// The desk over the tables that a connection shows, as `sql_open` opened them. They are not
    /// read once more.
    pub fn of_opened(alloc: Global, conn: Connection<S>) -> Desk<S>
        requires { conn.in_transaction ≡ false }
        ensures { result ≡ conn }
    {
        Desk { conn, alloc }
    }

    /// Asks whether the store is open. Nothing is changed. A store that is shut commits nothing, so
    /// each call asks this before its transaction begins.
    pub(crate) fn ask_open(&mut self) -> Result<(), Failure>
        ensures asked { AsksOpen S.Store self.old self.new result }
        ensures ended { self.new.in_transaction ≡ false }
    {
        let _ = self.conn.is_autocommit();
        ask_open(&mut self.conn).map_err(|error| failure_of(error.into()))
    }

    /// Hands the connection back. It takes no memory.
    pub fn close(self) -> Connection<S>
        ensures same { result ≡ self }
        ensures ended { result.in_transaction ≡ false }
    {
        let Desk { conn, alloc: _ } = self;
        conn
    }
}
