//! What the tables say, without a change. Of a desk that is read a crash leaves what it left
//! before, also where its store is shut, and after an answer the tables that are read, whole, and
//! nothing else.
ghost use Rattle.std.specs.Prelude.{◌≡◌, false, IfOk, IsTrue, None, OnOk};
ghost use Rattle.sql_open.specs.Crashes.{LeavesItself};
ghost use Rattle.sql_open.specs.Opened.{OnDone};
ghost use Rattle.sql_open.specs.WholeDesk.{LeavesWhole};
ghost use Rattle.desk_store.specs.Joins.{IsAsItWas, IsDeskIfOpen, LeavesDesk};
ghost use Rattle.party_views.specs.Views.{public_of};
ghost use Rattle.desk_store.specs.TableReads.{HoldsOfDesk};
ghost use Rattle.meeting_core.specs.KeyHolders.{caller_with};
ghost use Rattle.sqlite.specs.Held.{state};
ghost use Rattle.sqlite.specs.State.{Survives};

use crate::desk::Desk;
use crate::reading::{CallerOf, PublicOf, Reading, failure_of};
use desk_words::{Caller, Failure, MeetingId, SecretKey};
use sql_load::OwnedRecord;
use sqlite::Alter;

impl<S: Alter> Desk<S> {
    /// Reads the tables, in one transaction.
    pub(crate) fn read<R: Reading>(&mut self, what: &R) -> Result<R::Found, Failure>
        ensures found { HoldsOfDesk S.Store self.old self.new
            (λ office. IfOk result (R.finds what.now office)) }
        ensures leaves { LeavesDesk S.Store None self.old self.new }
        ensures ended { self.new.in_transaction ≡ false }
        ensures stays_open { OnDone S.Store self.new result
            (IsTrue (state S.Store self.new).is_open) }
        ensures settled { OnDone S.Store self.new result (LeavesItself (state S.Store self.new)) }
        ensures whole { HoldsOfDesk S.Store self.old self.new
            (λ office. OnOk result (LeavesWhole (state S.Store self.new) office)) }
        ensures still { HoldsOfDesk S.Store self.old self.new (λ _. OnOk result
            (IsAsItWas (state S.Store self.old) (state S.Store self.new))) }
        ensures crash { IsDeskIfOpen (state S.Store self.old)
            → Survives (state S.Store self.old) (state S.Store self.new) (λ _. ⊥) }
    {
        self.ask_open()?;
        let _ = self.conn.is_autocommit();
        let mut tx = self.conn.transaction();
        let found = what.read(&mut tx, self.alloc).map_err(failure_of)?;
        tx.commit().map_err(|error| failure_of(error.into()))?;
        Ok(found)
    }

    /// The caller whose key this is; none exactly where no key equals it.
    pub fn caller_of(&mut self, key: &SecretKey) -> Result<Option<Caller>, Failure>
        ensures found { HoldsOfDesk S.Store self.old self.new
            (λ office. IfOk result (λ caller. caller ≡ caller_with office.keys key.now)) }
        ensures leaves { LeavesDesk S.Store None self.old self.new }
        ensures ended { self.new.in_transaction ≡ false }
        ensures stays_open { OnDone S.Store self.new result
            (IsTrue (state S.Store self.new).is_open) }
        ensures settled { OnDone S.Store self.new result (LeavesItself (state S.Store self.new)) }
        ensures whole { HoldsOfDesk S.Store self.old self.new
            (λ office. OnOk result (LeavesWhole (state S.Store self.new) office)) }
        ensures still { HoldsOfDesk S.Store self.old self.new (λ _. OnOk result
            (IsAsItWas (state S.Store self.old) (state S.Store self.new))) }
        ensures crash { IsDeskIfOpen (state S.Store self.old)
            → Survives (state S.Store self.old) (state S.Store self.new) (λ _. ⊥) }
    {
        self.read(&CallerOf { key: *key })
    }

    /// The public record of a meeting; where there is none of that name, the closed days alone. No
    /// other meeting is read.
    pub fn read_public(&mut self, meeting: MeetingId) -> Result<OwnedRecord, Failure>
        ensures held { HoldsOfDesk S.Store self.old self.new
            (λ office. IfOk result (λ found. found ≡ public_of office meeting)) }
        ensures leaves { LeavesDesk S.Store None self.old self.new }
        ensures ended { self.new.in_transaction ≡ false }
        ensures stays_open { OnDone S.Store self.new result
            (IsTrue (state S.Store self.new).is_open) }
        ensures settled { OnDone S.Store self.new result (LeavesItself (state S.Store self.new)) }
        ensures whole { HoldsOfDesk S.Store self.old self.new
            (λ office. OnOk result (LeavesWhole (state S.Store self.new) office)) }
        ensures still { HoldsOfDesk S.Store self.old self.new (λ _. OnOk result
            (IsAsItWas (state S.Store self.old) (state S.Store self.new))) }
        ensures crash { IsDeskIfOpen (state S.Store self.old)
            → Survives (state S.Store self.old) (state S.Store self.new) (λ _. ⊥) }
    {
        self.read(&PublicOf { meeting })
    }
}
