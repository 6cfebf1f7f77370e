//! A desk in a file is an office.
use crate::disk::DiskDesk;
use any_office::Office;
use desk_words::{Call, Caller, Failure, Reply, SecretKey};
use sqlite::Alter;
use std::alloc::AllocError;

// What is said of it is said of its tables, as the connection to the file shows them.
impl<S: Alter> Office for DiskDesk<S> {
    ghost use Rattle.std.specs.Prelude.{IsTrue};
    ghost use Rattle.sql_model.specs.Standing.{Stands};
    ghost use Rattle.sql_open.specs.WholeDesk.{IsWholeDesk};
    ghost use Rattle.sqlite.specs.Held.{state};
    ghost use Rattle.sqlite.specs.State.{HasCleanDisk};
    ghost use Rattle.sqlite.specs.Tree.{Trees};

    ghost stands = { λ disk office. Stands (state S.Store disk.desk) office };

    ghost is_reliable = { λ disk. HasCleanDisk (state S.Store disk.desk) };

    ghost is_open = { λ disk. IsTrue (state S.Store disk.desk).is_open };

    ghost faults = { λ disk. (state S.Store disk.desk).faults };

    ghost Left = { Trees };

    ghost may_leave = { λ disk db. (state S.Store disk.desk).may_leave db };

    ghost opens_as = { IsWholeDesk };

    ghost may_fail = { λ _. Unit {0} };

    fn caller_of(&mut self, key: &SecretKey) -> Result<Option<Caller>, Failure> {
        Office::caller_of(&mut self.desk, key)
    }

    fn perform<T: Drop, F: FnOnce(&Reply) -> Result<T, AllocError>>(
        &mut self,
        call: Call,
        show: F,
    ) -> Result<T, Failure> {
        Office::perform(&mut self.desk, call, show)
    }
}
