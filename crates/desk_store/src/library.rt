//! Calls of the library that the program does not make: a desk is made and opened over a connection
//! of the caller's, and the whole book and a party's own things are read.
ghost use Rattle.std.specs.Prelude.{◌≡◌, ◌≢◌, ◌⊎◌, false, Err, IfErr, IfOk, IsErrAnd, IsTrue, None, OnOk};
ghost use Rattle.sql_open.specs.Crashes.{LeavesAtMostMoved, LeavesItself};
ghost use Rattle.sql_open.specs.Opened.{HoldsNothing, IsSettled, IsWhyUnopened};
ghost use Rattle.sql_open.specs.Opened.{KeepsOpenTables, OnDone, StandsWhole, StaysOpen};
ghost use Rattle.sql_open.specs.Opened.{SurvivesMaking, WereKnown};
ghost use Rattle.sql_open.specs.Opening.{HandsBack, IsInNone};
ghost use Rattle.sql_open.specs.WholeDesk.{LeavesWhole, OpensWhole};
ghost use Rattle.sql_open.specs.declared.fault.CreateError.TheVariants.{NotEmpty};
ghost use Rattle.sql_open.specs.declared.fault.CreateError.TheVariants as creating;
ghost use Rattle.sql_open.specs.declared.fault.OpenFault.TheVariants as opening;
ghost use Rattle.sql_open.specs.declared.opening.HandedBack.TheVariants as back;
ghost use Rattle.sql_schema.specs.Tables.{no_schema};
ghost use Rattle.sqlite.specs.Held.{state};
ghost use Rattle.sqlite.specs.State.{Survives};
ghost use Rattle.desk_store.specs.Joins.{IsDeskIfOpen, LeavesDesk};
ghost use Rattle.desk_deciding.specs.Deciding.{HoldsOfTables};
ghost use Rattle.desk_store.specs.TableReads.{HoldsOfDesk, IsBookOf, IsOwnView};
ghost use Rattle.party_views.specs.Views.{own_of};

use crate::desk::Desk;
use crate::reading::Reading;
use desk_deciding::fault_of_book;
use desk_words::{Failure, MeetingId, Moment, Party};
use meeting_core::Book;
use party_views::OwnView;
use sql_load::LoadError;
use sql_load_needed::read_own;
use sql_open::{CreateError, HandedBack, OpenFault, read_office};
use sqlite::{Alter, Connection, Transaction};
use std::alloc::Global;

impl<S: Alter + Drop> Desk<S> {
    /// Makes the tables of a desk that holds nothing and their indexes, and no others, in one
    /// transaction. The store is then open.
    /// The fault is `NotEmpty` exactly where the database has a table, an index or a view. A refusal
    /// hands the connection back, its tables as they were. A connection in a transaction is refused,
    /// as `NotEmpty` or `Store`, and is handed back as it was. Of a desk that is made a crash leaves
    /// the tables that are read, whole, and nothing else. After a refusal it leaves what it left
    /// before, or the tables that are made, whole.
    pub fn create(
        alloc: Global,
        conn: Connection<S>,
    ) -> Result<Desk<S>, (CreateError, Connection<S>)>
        ensures made { IfOk result (λ desk. HoldsNothing S.Store desk) }
        ensures is_open { IfOk result (λ desk. StaysOpen S.Store desk) }
        ensures empty { IfOk result (λ _. (state S.Store conn).now.schema ≡ no_schema) }
        ensures not_empty { IfErr result (λ e. e.0 ≡ NotEmpty
            → (state S.Store conn).now.schema ≢ no_schema) }
        ensures cause { IfErr result (λ e. e.0 ≢ NotEmpty
            → (state S.Store conn).now.schema ≡ no_schema) }
        ensures same { IfErr result (λ e. KeepsOpenTables S.Store conn e.1) }
        ensures ended { IfErr result (λ e. conn.in_transaction ≡ false
            → e.1.in_transaction ≡ false) }
        ensures untouched { IfErr result (λ e. e.0 ≡ NotEmpty → e.1 ≡ conn) }
        ensures settled { IfOk result (λ desk. IsSettled S.Store desk) }
        ensures crash { IfOk result (λ desk. SurvivesMaking S.Store conn desk) }
        ensures unmade { IfErr result (λ e. SurvivesMaking S.Store conn e.1) }
        ensures inside { IsTrue conn.in_transaction → IsErrAnd result (λ e.
            ((e.0 ≡ NotEmpty) ⊎ (e.0 ≡ creating.Store)) × (e.1 ≡ conn)) }
    {
        match sql_open::create(conn) {
            Ok(conn) => Ok(Desk { conn, alloc }),
            Err(refused) => Err(refused),
        }
    }

    /// Opens the desk that the database holds. Tables of version 2 are opened as they are, and
    /// nothing is written, where those that `create` makes stand first and are declared as it
    /// declares them. Other tables, indexes and views may stand beside them, as after `ANALYZE`, and
    /// the indexes of the desk may be missing. Tables of version 1 are moved to version 2 in one
    /// transaction with one commit, where they and their indexes are as the program of version 1 made
    /// them, and no others stand beside them; they are then the same office, each meeting with one
    /// session. Whatever tables the database holds, it is opened only where each column that is read
    /// of their version stands. So a desk also opens after another program added a column; of such a
    /// desk no clause says more.
    ///
    /// The version is asked before the other tables are read. The fault is `NewerVersion` only where
    /// the database understands the text that reads the version, and it shows version 3 or a later
    /// one. Of tables that note their version, as those of both versions do, it is `NotADesk` only
    /// where they note none, or version 1 or 2 and a column that is read of it is missing or what
    /// they hold is no office. Tables that are whole in either version are refused as `Store` or
    /// `Memory` alone.
    ///
    /// A refusal hands back the connection, or the store where that could not be read again, its
    /// tables as they were. A connection in a transaction is refused as `Store` and handed back as
    /// it was. A limit of steps that was set on the connection is not kept. Of a desk that is opened
    /// a crash leaves the tables that are read, whole, and nothing else. After a refusal it leaves
    /// nothing that it did not leave before, or, of tables of version 1 alone, those tables moved,
    /// whole of the same office.
    pub fn open(alloc: Global, conn: Connection<S>) -> Result<Desk<S>, (OpenFault, HandedBack<S>)>
        ensures stands { IfOk result (λ desk. StandsWhole S.Store conn desk) }
        ensures whole { IfOk result (λ desk. OpensWhole S.Store conn desk) }
        ensures known { IfOk result (λ desk. WereKnown S.Store conn desk) }
        ensures is_open { IfOk result (λ desk. StaysOpen S.Store desk) }
        ensures cause { IfErr result (λ e. IsWhyUnopened S.Store conn e.0 e.1) }
        ensures preserved { IfErr result (λ e. HandsBack S.Store (state S.Store conn).now.trees e.1) }
        ensures ended { IfErr result (λ e. conn.in_transaction ≡ false → IsInNone e.1) }
        ensures settled { IfOk result (λ desk. IsSettled S.Store desk) }
        ensures crash { IfErr result (λ e. LeavesAtMostMoved S.Store (state S.Store conn) e.1) }
        ensures inside { IsTrue conn.in_transaction
            → result ≡ Err (opening.Store, back.Connection conn) }
    {
        match sql_open::open(alloc, conn) {
            Ok(conn) => Ok(Desk { conn, alloc }),
            Err(refused) => Err(refused),
        }
    }
}

/// The office that the tables hold, in memory.
fn read_book<S: Alter>(tx: &mut Transaction<'_, S>, alloc: Global) -> Result<Book, LoadError>
    ensures same_reference { tx.new.conn.ghost_name ≡ tx.old.conn.ghost_name }
    ensures holds { HoldsOfTables S.Store tx.old.conn.now tx.new.conn.now result IsBookOf }
{
    let lists = read_office(tx, alloc)?;
    Book::of_lists(alloc, lists).map_err(|fault| fault_of_book(fault))
}

/// The own things of a party in a meeting at a moment.
fn read_things<S: Alter>(
    tx: &mut Transaction<'_, S>,
    alloc: Global,
    party: Party,
    meeting: MeetingId,
    now: Moment,
) -> Result<OwnView, LoadError>
    ensures same_reference { tx.new.conn.ghost_name ≡ tx.old.conn.ghost_name }
    ensures holds { HoldsOfTables S.Store tx.old.conn.now tx.new.conn.now result
        (IsOwnView party meeting now) }
{
    read_own(tx, alloc, party, meeting, now)
}

/// The office that the tables hold, in memory.
#[derive(Clone, Copy)]
struct WholeOffice;

impl Reading for WholeOffice {
    ghost use Rattle.desk_store.specs.TableReads.{IsBookOf};

    type Found = Book;

    ghost finds = { λ _. IsBookOf };

    fn read<S: Alter>(
        &self,
        tx: &mut Transaction<'_, S>,
        alloc: Global,
    ) -> Result<Book, LoadError> {
        read_book(tx, alloc)
    }
}

/// The own things of a party in a meeting at a moment.
#[derive(Clone, Copy)]
struct ThingsOf {
    party: Party,
    meeting: MeetingId,
    now: Moment,
}

impl Reading for ThingsOf {
    ghost use Rattle.desk_store.specs.TableReads.{IsOwnView};

    type Found = OwnView;

    ghost finds = { λ it. IsOwnView it.party it.meeting it.now };

    fn read<S: Alter>(
        &self,
        tx: &mut Transaction<'_, S>,
        alloc: Global,
    ) -> Result<OwnView, LoadError> {
        read_things(tx, alloc, self.party, self.meeting, self.now)
    }
}

impl<S: Alter> Desk<S> {
    /// The office that the tables hold, in memory.
    pub fn book(&mut self) -> Result<Book, Failure>
        ensures held { HoldsOfDesk S.Store self.old self.new
            (λ office. IfOk result (λ book. book ≡ office)) }
        ensures leaves { LeavesDesk S.Store None self.old self.new }
        ensures ended { self.new.in_transaction ≡ false }
        ensures stays_open { OnDone S.Store self.new result
            (IsTrue (state S.Store self.new).is_open) }
        ensures settled { OnDone S.Store self.new result (LeavesItself (state S.Store self.new)) }
        ensures whole { HoldsOfDesk S.Store self.old self.new
            (λ office. OnOk result (LeavesWhole (state S.Store self.new) office)) }
        ensures crash { IsDeskIfOpen (state S.Store self.old)
            → Survives (state S.Store self.old) (state S.Store self.new) (λ _. ⊥) }
    {
        self.read(&WholeOffice)
    }

    /// The own things of a party in a meeting at a moment; where there is none of that name, its
    /// own name alone. Of what others gave, no more is read than what names the party, and the
    /// appointments of those who named it.
    pub fn read_own(
        &mut self,
        party: Party,
        meeting: MeetingId,
        now: Moment,
    ) -> Result<OwnView, Failure>
        ensures held { HoldsOfDesk S.Store self.old self.new
            (λ office. IfOk result (λ own. own ≡ own_of office party meeting now)) }
        ensures leaves { LeavesDesk S.Store None self.old self.new }
        ensures ended { self.new.in_transaction ≡ false }
        ensures stays_open { OnDone S.Store self.new result
            (IsTrue (state S.Store self.new).is_open) }
        ensures settled { OnDone S.Store self.new result (LeavesItself (state S.Store self.new)) }
        ensures whole { HoldsOfDesk S.Store self.old self.new
            (λ office. OnOk result (LeavesWhole (state S.Store self.new) office)) }
        ensures crash { IsDeskIfOpen (state S.Store self.old)
            → Survives (state S.Store self.old) (state S.Store self.new) (λ _. ⊥) }
    {
        self.read(&ThingsOf {
            party,
            meeting,
            now,
        })
    }
}
