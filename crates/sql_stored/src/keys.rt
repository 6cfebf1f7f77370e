//! By what rows are found: by a meeting, and by what else a row names in it.
ghost use Rattle.std.specs.Prelude.{◌≡◌, ◌==◌, ◌&&◌, ℕ, List, Bool, map};
ghost use Rattle.sqlite.specs.Order.{Row as Values, column};
ghost use Rattle.sqlite.specs.Term.{Term};
ghost use Rattle.sql_lemmas.proofs.Deleting.{passes};
ghost use Rattle.sql_stored.specs.Keys.{HoldMeeting, HoldNumber, HoldNumbered, HoldParties, HoldParty, IsAsked, NamesMeeting, NamesNumber, NamesNumbered, NamesParties, NamesParty, both_tests, first_test, three_tests};
ghost use Rattle.vocabulary.specs.Names.{same_name};
ghost use Rattle.sql_stored.specs.KeyLemmas.{of_meeting, of_number, of_numbered, of_parties, of_party};

use desk_words::{MeetingId, Party};
use sql_rows::{meeting_text, party_text, whole};
use sqlite::{Alter, Error, Row, Transaction, params};

/// By what rows are found.
pub trait RowKey {
    // The tests of those of a table's columns, as they are shown, that stand at these places.
    ghost tests: { List ℕ → List ℕ → List Term };

    // With these parameters a statement names it.
    ghost given: { Self → Values → Type 0 };

    // What is shown of a row holds it at these places.
    ghost held: { Values → List ℕ → Self → Type 0 };

    ghost same: { Self → Self → Bool };

    /// Asks with what names it. It may be refused before, where a number is too big.
    fn ask<S: Alter>(self, tx: &mut Transaction<'_, S>, sql: &str) -> Result<Vec<Row>, Error>
        ensures same_reference { tx.new.conn.ghost_name ≡ tx.old.conn.ghost_name }
        ensures asked { IsAsked S.Store tx.old.conn.now tx.new.conn.now (λ v. v.items) sql.now
            result (given self) };

    // So a row passes exactly where what it holds is the same.
    ghost decides: { (columns places : List ℕ) (key of : Self) (params row : Values)
        → given key params → held (map (column row) columns) places of
        → passes (tests columns places) params row ≡ same of key };
}

impl RowKey for MeetingId {
    ghost tests = { first_test };

    ghost given = { NamesMeeting };

    ghost held = { HoldMeeting };

    ghost same = { same_name };

    fn ask<S: Alter>(self, tx: &mut Transaction<'_, S>, sql: &str) -> Result<Vec<Row>, Error> {
        tx.query_all(sql, params![meeting_text(&self)])
    }

    ghost decides = { λ columns places key of params row given held.
        of_meeting columns places row params key of given held };
}

impl RowKey for (MeetingId, Party) {
    ghost tests = { both_tests };

    ghost given = { λ key params. NamesParty key.0 key.1 params };

    ghost held = { HoldParty };

    ghost same = { λ of key. same_name of.0 key.0 && same_name of.1 key.1 };

    fn ask<S: Alter>(self, tx: &mut Transaction<'_, S>, sql: &str) -> Result<Vec<Row>, Error> {
        let (meeting, party) = self;
        tx.query_all(sql, params![meeting_text(&meeting), party_text(&party)])
    }

    ghost decides = { λ columns places key of params row given held.
        of_party columns places row params key.0 key.1 of.0 of.1 given held };
}

impl RowKey for (MeetingId, u64) {
    ghost tests = { both_tests };

    ghost given = { λ key params. NamesNumber key.0 key.1 params };

    ghost held = { HoldNumber };

    ghost same = { λ of key. same_name of.0 key.0 && of.1 == key.1 };

    fn ask<S: Alter>(self, tx: &mut Transaction<'_, S>, sql: &str) -> Result<Vec<Row>, Error> {
        let (meeting, number) = self;
        let number = whole(number)?;
        tx.query_all(sql, params![meeting_text(&meeting), number])
    }

    ghost decides = { λ columns places key of params row given held.
        of_number columns places row params key.0 of.0 key.1 of.1 given held };
}

impl RowKey for (MeetingId, Party, Party) {
    ghost tests = { three_tests };

    ghost given = { λ key params. NamesParties key.0 key.1 key.2 params };

    ghost held = { HoldParties };

    ghost same = { λ of key. same_name of.0 key.0
        && (same_name of.1 key.1 && same_name of.2 key.2) };

    fn ask<S: Alter>(self, tx: &mut Transaction<'_, S>, sql: &str) -> Result<Vec<Row>, Error> {
        let (meeting, party, other) = self;
        tx.query_all(
            sql,
            params![
                meeting_text(&meeting),
                party_text(&party),
                party_text(&other)
            ],
        )
    }

    ghost decides = { λ columns places key of params row given held.
        of_parties columns places row params key.0 key.1 key.2 of.0 of.1 of.2 given held };
}

impl RowKey for (MeetingId, Party, u64) {
    ghost tests = { three_tests };

    ghost given = { λ key params. NamesNumbered key.0 key.1 key.2 params };

    ghost held = { HoldNumbered };

    ghost same = { λ of key. same_name of.0 key.0
        && (same_name of.1 key.1 && of.2 == key.2) };

    fn ask<S: Alter>(self, tx: &mut Transaction<'_, S>, sql: &str) -> Result<Vec<Row>, Error> {
        let (meeting, party, number) = self;
        let number = whole(number)?;
        tx.query_all(
            sql,
            params![meeting_text(&meeting), party_text(&party), number],
        )
    }

    ghost decides = { λ columns places key of params row given held.
        of_numbered columns places row params key.0 key.1 of.0 of.1 key.2 of.2 given held };
}
