//! A desk over its tables as an office that keeps nothing: each call reads what its answer needs.
ghost use Rattle.std.specs.Prelude.{◌≡◌};

use any_office::Office;
use desk_store::Desk;
use desk_words::{Call, Caller, Failure, Reply, SecretKey};
use sqlite::Alter;
use std::alloc::AllocError;

/// A desk over its tables, asked as an office.
pub struct PlainDesk<S: Alter> {
    pub(crate) desk: Desk<S>,
}

impl<S: Alter + Drop> Drop for PlainDesk<S> {
    fn drop(self) {
        let PlainDesk { desk: _ } = self;
    }
}

impl<S: Alter + Drop> PlainDesk<S> {
    /// The desk itself.
    pub(crate) fn into_desk(self) -> Desk<S>
        ensures { result ≡ self.desk }
    {
        let PlainDesk { desk } = self;
        desk
    }
}

impl<S: Alter> Office for PlainDesk<S> {
    ghost use Rattle.std.specs.Prelude.{IsTrue};
    ghost use Rattle.sql_model.specs.Standing.{Stands};
    ghost use Rattle.sql_open.specs.WholeDesk.{IsWholeDesk};
    ghost use Rattle.sqlite.specs.Held.{state};
    ghost use Rattle.sqlite.specs.State.{HasCleanDisk};
    ghost use Rattle.sqlite.specs.Tree.{Trees};

    ghost stands = { λ plain office. Stands (state S.Store plain.desk) office };

    ghost is_reliable = { λ plain. HasCleanDisk (state S.Store plain.desk) };

    ghost is_open = { λ plain. IsTrue (state S.Store plain.desk).is_open };

    ghost faults = { λ plain. (state S.Store plain.desk).faults };

    ghost Left = { Trees };

    ghost may_leave = { λ plain db. (state S.Store plain.desk).may_leave db };

    ghost opens_as = { IsWholeDesk };

    ghost may_fail = { λ _. Unit {0} };

    fn caller_of(&mut self, key: &SecretKey) -> Result<Option<Caller>, Failure> {
        self.desk.caller_of(key)
    }

    fn perform<T: Drop, F: FnOnce(&Reply) -> Result<T, AllocError>>(
        &mut self,
        call: Call,
        show: F,
    ) -> Result<T, Failure> {
        self.desk.perform(call, show)
    }
}
