//! Those of a party's rows in a meeting that the answer to its request reads, read from the tables.
ghost use Rattle.std.specs.Prelude.{◌≡◌};
ghost use Rattle.std.proofs.Common.{◌∙◌};
ghost use Rattle.party_views.specs.RowsRead.{own_rows_part, own_rows_read};
ghost use Rattle.party_views.specs.PartyRows.{own_rows_in};
ghost use Rattle.party_views.specs.Views.{meeting_at};
ghost use Rattle.sqlite.specs.Held.{state};
ghost use Rattle.sqlite.specs.State.{HasCleanDisk};
ghost use Rattle.sql_load_needed.specs.LookUpSteps.{KeepsStoredTables, LeavesTables, ShowsMeeting};
ghost use Rattle.sql_load.specs.TableLookUps.{HoldsOfStoredOffice, IsLookUpFailure};
ghost use Rattle.sql_load_needed.specs.LookUpLaws as laws;

use crate::look_ups::{
    casts_of, claims_by, count_cast_on, count_given_by, demands_of, ended_by, given_by, given_to,
    naming, persons_of, presences_of, row_of, shares_of, trusting, trusting_for,
};
use desk_words::{
    Appointment, Authority, CastMark, DemandMark, Ending, Listing, MeetingId, Party, PartyRequest,
    RegisterRow,
};
use party_views::{OwnRows, Reads, reads_of};
use proxy_rules::Claim;
use row_source::{GivenTo, RowSource, read_own_rows as read_from};
use sql_load::LoadError;
use sqlite::{Alter, Transaction};
use std::alloc::Global;

/// A transaction over the tables, in which the records of a meeting are looked up.
#[derive(Drop)]
struct InTables<'t, 'c, S: Alter> {
    alloc: Global,
    tx: &'t mut Transaction<'c, S>,
    meeting: MeetingId,
}

impl<S: Alter> RowSource for InTables<'_, '_, S> {
    type Error = LoadError;

    ghost trusted = { λ it. HasCleanDisk (state S.Store it.tx.now.conn.now) };

    ghost shows = { λ it found. ShowsMeeting S.Store it.tx.now.conn.now it.meeting found };

    ghost keeps = { λ a b. (b.tx.ghost_name ≡ a.tx.ghost_name)
        × (b.tx.now.conn.ghost_name ≡ a.tx.now.conn.ghost_name) × (b.meeting ≡ a.meeting)
        × KeepsStoredTables S.Store a.tx.now.conn.now b.tx.now.conn.now };

    ghost leaves = { λ a b. (b.tx.ghost_name ≡ a.tx.ghost_name)
        × (b.tx.now.conn.ghost_name ≡ a.tx.now.conn.ghost_name) × (b.meeting ≡ a.meeting)
        × LeavesTables S.Store a.tx.now.conn.now b.tx.now.conn.now };

    ghost may_fail = { IsLookUpFailure };

    fn row_of(&mut self, member: Party) -> Result<Option<RegisterRow>, LoadError> {
        row_of(self.tx, self.alloc, self.meeting, member)
    }

    fn shares_of(&mut self, member: Party) -> Result<u64, LoadError> {
        shares_of(self.tx, self.alloc, self.meeting, member)
    }

    fn given_by(&mut self, member: Party) -> Result<Listing<Appointment>, LoadError> {
        given_by(self.tx, self.alloc, self.meeting, member)
    }

    fn claims_by(&mut self, member: Party) -> Result<Listing<Claim>, LoadError> {
        claims_by(self.tx, self.alloc, self.meeting, member)
    }

    fn count_given_by(&mut self, member: Party) -> Result<u64, LoadError> {
        count_given_by(self.tx, self.alloc, self.meeting, member)
    }

    fn naming(&mut self, party: Party) -> Result<Listing<Appointment>, LoadError> {
        naming(self.tx, self.alloc, self.meeting, party)
    }

    fn given_to(&mut self, member: Party, party: Party) -> Result<GivenTo, LoadError> {
        given_to(self.tx, self.alloc, self.meeting, member, party)
    }

    fn ended_by(&mut self, member: Party) -> Result<Listing<Ending>, LoadError> {
        ended_by(self.tx, self.alloc, self.meeting, member)
    }

    fn persons_of(&mut self, party: Party) -> Result<Listing<Authority>, LoadError> {
        persons_of(self.tx, self.alloc, self.meeting, party)
    }

    fn trusting(&mut self, party: Party) -> Result<Listing<Authority>, LoadError> {
        trusting(self.tx, self.alloc, self.meeting, party)
    }

    fn trusting_for(
        &mut self,
        corporation: Party,
        party: Party,
    ) -> Result<Listing<Authority>, LoadError> {
        trusting_for(self.tx, self.alloc, self.meeting, corporation, party)
    }

    fn presences_of(&mut self, party: Party) -> Result<Listing<u64>, LoadError> {
        presences_of(self.tx, self.alloc, self.meeting, party)
    }

    fn demands_of(&mut self, party: Party) -> Result<Listing<DemandMark>, LoadError> {
        demands_of(self.tx, self.alloc, self.meeting, party)
    }

    fn casts_of(&mut self, party: Party) -> Result<Listing<CastMark>, LoadError> {
        casts_of(self.tx, self.alloc, self.meeting, party)
    }

    fn count_cast_on(&mut self, party: Party, resolution: u64) -> Result<usize, LoadError> {
        count_cast_on(self.tx, self.alloc, self.meeting, party, resolution)
    }

    ghost still_shows = { λ a b keep trust found shown. laws.still_shows S.Store.own
        a.tx.now.conn.now b.tx.now.conn.now a.meeting b.meeting keep.2 keep.3 trust found shown };

    ghost was_trusted = { λ a b left trust. left.3.was_clean trust };

    ghost keeps_then = { λ a b c one two. (
      two.0 ∙ one.0,
      two.1 ∙ one.1,
      two.2 ∙ one.2,
      laws.keeps_then S.Store.own a.tx.now.conn.now b.tx.now.conn.now c.tx.now.conn.now
          one.3 two.3,
    ) };

    ghost leaves_then = { λ a b c one two. (
      two.0 ∙ one.0,
      two.1 ∙ one.1,
      two.2 ∙ one.2,
      laws.leaves_then S.Store.own a.tx.now.conn.now b.tx.now.conn.now c.tx.now.conn.now
          one.3 two.3,
    ) };

    ghost memory_may_fail = { laws.memory_may_fail };
}

/// Those of the rows of a party in a meeting; where there is none of that name, none.
fn rows_read<S: Alter>(
    tx: &mut Transaction<'_, S>,
    alloc: Global,
    meeting: MeetingId,
    party: Party,
    what: &Reads,
) -> Result<OwnRows, LoadError>
    ensures same_reference { tx.new.conn.ghost_name ≡ tx.old.conn.ghost_name }
    ensures holds { HoldsOfStoredOffice S.Store tx.old.conn.now tx.new.conn.now result
        (λ office rows. rows
        ≡ own_rows_part what.now (own_rows_in (meeting_at office meeting) party)) }
{
    read_from(&mut InTables { alloc, tx, meeting }, alloc, party, what)
}

/// The rows of a party in a meeting; where there is none of that name, none. Of the tables it reads
/// what names both, and of the members who named the party and of the corporations that authorised
/// it their own.
pub fn read_own_rows<S: Alter>(
    tx: &mut Transaction<'_, S>,
    alloc: Global,
    meeting: MeetingId,
    party: Party,
) -> Result<OwnRows, LoadError>
    ensures same_reference { tx.new.conn.ghost_name ≡ tx.old.conn.ghost_name }
    ensures holds { HoldsOfStoredOffice S.Store tx.old.conn.now tx.new.conn.now result
        (λ office rows. rows ≡ own_rows_in (meeting_at office meeting) party) }
{
    rows_read(tx, alloc, meeting, party, &Reads::Everything)
}

/// Those of a party's rows in a meeting that the answer to its request reads, and nothing in place
/// of the others; where there is no meeting of that name, none. What the party gave, whom it
/// authorised and in which sessions it is present are read alone where no more is asked, and a vote
/// reads of others the member alone for whom it is cast.
pub fn read_own_rows_for<S: Alter>(
    tx: &mut Transaction<'_, S>,
    alloc: Global,
    meeting: MeetingId,
    party: Party,
    asked: &PartyRequest,
) -> Result<OwnRows, LoadError>
    ensures same_reference { tx.new.conn.ghost_name ≡ tx.old.conn.ghost_name }
    ensures holds { HoldsOfStoredOffice S.Store tx.old.conn.now tx.new.conn.now result
        (λ office rows. rows
        ≡ own_rows_read asked.now (own_rows_in (meeting_at office meeting) party)) }
{
    rows_read(tx, alloc, meeting, party, &reads_of(asked))
}
