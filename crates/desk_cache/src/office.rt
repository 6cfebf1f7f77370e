//! The desk that serves is an office.
use crate::caching::CachingDesk;
use any_office::Office;
use desk_words::{Call, Caller, Failure, Reply, SecretKey};
use sqlite::Alter;
use std::alloc::AllocError;

// It is reliable while the disk returns what was written, and open while its store is. A crash leaves
// tables, which are opened as the office that they are whole.
impl<S: Alter> Office for CachingDesk<S> {
    ghost use Rattle.std.specs.Prelude.{IsTrue};
    ghost use Rattle.sql_model.specs.Standing.{Stands};
    ghost use Rattle.sql_open.specs.WholeDesk.{IsWholeDesk};
    ghost use Rattle.sqlite.specs.Held.{state};
    ghost use Rattle.sqlite.specs.State.{HasCleanDisk};
    ghost use Rattle.sqlite.specs.Tree.{Trees};

    ghost stands = { λ desk office. Stands (state S.Store desk) office };

    ghost is_reliable = { λ desk. HasCleanDisk (state S.Store desk) };

    ghost is_open = { λ desk. IsTrue (state S.Store desk).is_open };

    ghost faults = { λ desk. (state S.Store desk).faults };

    ghost Left = { Trees };

    ghost may_leave = { λ desk db. (state S.Store desk).may_leave db };

    ghost opens_as = { IsWholeDesk };

    ghost may_fail = { λ _. Unit {0} };

    fn caller_of(&mut self, key: &SecretKey) -> Result<Option<Caller>, Failure> {
        CachingDesk::caller_of(self, key)
    }

    fn perform<T: Drop, F: FnOnce(&Reply) -> Result<T, AllocError>>(
        &mut self,
        call: Call,
        show: F,
    ) -> Result<T, Failure> {
        CachingDesk::perform(self, call, show)
    }
}
