//! Look-ups in the lists of a meeting.
ghost use Rattle.std.specs.Prelude.{◌≡◌, ⊤, IfOk, Some, true};
ghost use Rattle.std.proofs.Common.{rules};
ghost use Rattle.desk_words.specs.Ordered.{ascends_by};
ghost use Rattle.desk_words.specs.Registers.{member_before};
ghost use Rattle.party_views.specs.RowsRead.{own_rows_read};
ghost use Rattle.party_views.specs.PartyRows.{own_rows};

use crate::members::{claims_by, count_given_by, given_to, naming};
use crate::party_records::{
    casts_of, count_cast_on, demands_of, ended_by, persons_of, presences_of, row_of, shares_of,
    trusting, trusting_for,
};
use desk_words::{
    Appointment, Authority, CastMark, DemandMark, Ending, Listing, MeetingLists, Party,
    PartyRequest, RegisterRow,
};
use party_views::{OwnRows, Reads, reads_of};
use proxy_rules::{Claim, given_by};
use row_source::{GivenTo, RowSource};
use std::alloc::{AllocError, Global};

/// The lists of a meeting, whose register stands in the order of members.
#[derive(Drop)]
struct InLists<'a> {
    alloc: Global,
    lists: &'a MeetingLists,
    ghost in_order: { ascends_by member_before lists.now.register ≡ true },
}

impl RowSource for InLists<'_> {
    type Error = AllocError;

    ghost trusted = { λ _. ⊤ };

    ghost shows = { λ it found. found ≡ Some it.lists.now };

    ghost keeps = { λ a b. b ≡ a };

    ghost leaves = { λ a b. b ≡ a };

    ghost may_fail = { λ _. ⊤ };

    fn row_of(&mut self, member: Party) -> Result<Option<RegisterRow>, AllocError> {
        row_of(self.lists.register.as_slice(), member)
    }

    fn shares_of(&mut self, member: Party) -> Result<u64, AllocError> {
        Ok(shares_of(self.lists.register.as_slice(), member))
    }

    fn given_by(&mut self, member: Party) -> Result<Listing<Appointment>, AllocError> {
        given_by(self.alloc, &self.lists.appointments, member)
    }

    fn claims_by(&mut self, member: Party) -> Result<Listing<Claim>, AllocError> {
        let found = claims_by(self.alloc, &self.lists.appointments, member)?;
        Ok(Listing::from_vec(found))
    }

    fn count_given_by(&mut self, member: Party) -> Result<u64, AllocError> {
        Ok(count_given_by(&self.lists.appointments, member))
    }

    fn naming(&mut self, party: Party) -> Result<Listing<Appointment>, AllocError> {
        naming(self.alloc, &self.lists.appointments, party)
    }

    fn given_to(&mut self, member: Party, party: Party) -> Result<GivenTo, AllocError> {
        given_to(self.alloc, &self.lists.appointments, member, party)
    }

    fn ended_by(&mut self, member: Party) -> Result<Listing<Ending>, AllocError> {
        let found = ended_by(self.alloc, &self.lists.endings, member)?;
        Ok(Listing::from_vec(found))
    }

    fn persons_of(&mut self, party: Party) -> Result<Listing<Authority>, AllocError> {
        let found = persons_of(self.alloc, &self.lists.authorities, party)?;
        Ok(Listing::from_vec(found))
    }

    fn trusting(&mut self, party: Party) -> Result<Listing<Authority>, AllocError> {
        let found = trusting(self.alloc, &self.lists.authorities, party)?;
        Ok(Listing::from_vec(found))
    }

    fn trusting_for(
        &mut self,
        corporation: Party,
        party: Party,
    ) -> Result<Listing<Authority>, AllocError> {
        let found = trusting_for(self.alloc, &self.lists.authorities, corporation, party)?;
        Ok(Listing::from_vec(found))
    }

    fn presences_of(&mut self, party: Party) -> Result<Listing<u64>, AllocError> {
        let found = presences_of(self.alloc, &self.lists.presences, party)?;
        Ok(Listing::from_vec(found))
    }

    fn demands_of(&mut self, party: Party) -> Result<Listing<DemandMark>, AllocError> {
        let found = demands_of(self.alloc, &self.lists.demands, party)?;
        Ok(Listing::from_vec(found))
    }

    fn casts_of(&mut self, party: Party) -> Result<Listing<CastMark>, AllocError> {
        let found = casts_of(self.alloc, &self.lists.casts, party)?;
        Ok(Listing::from_vec(found))
    }

    fn count_cast_on(&mut self, party: Party, resolution: u64) -> Result<usize, AllocError> {
        Ok(count_cast_on(&self.lists.casts, party, resolution))
    }

    ghost still_shows = { Prim.search rules };

    ghost was_trusted = { Prim.search rules };

    ghost keeps_then = { Prim.search rules };

    ghost leaves_then = { Prim.search rules };

    ghost memory_may_fail = { Prim.search rules };
}

/// The rows of a party in a meeting. Of what others gave, it looks up the appointments that name
/// the party, and of the members who gave these their shares, appointments and endings; no other
/// record is gone over. The error is want of memory.
pub fn read_own_rows(
    alloc: Global,
    lists: &MeetingLists,
    party: Party,
) -> Result<OwnRows, AllocError>
    requires { ascends_by member_before lists.now.register ≡ true }
    ensures { IfOk result (λ rows. rows ≡ own_rows lists.now party) }
{
    row_source::read_own_rows(
        &mut InLists { alloc, lists },
        alloc,
        party,
        &Reads::Everything,
    )
}

/// The rows of a party in a meeting that its request reads. The other rows are not looked up, and
/// their lists are empty. The error is want of memory.
pub fn read_own_rows_for(
    alloc: Global,
    lists: &MeetingLists,
    party: Party,
    asked: &PartyRequest,
) -> Result<OwnRows, AllocError>
    requires { ascends_by member_before lists.now.register ≡ true }
    ensures { IfOk result (λ rows. rows ≡ own_rows_read asked.now (own_rows lists.now party)) }
{
    row_source::read_own_rows(
        &mut InLists { alloc, lists },
        alloc,
        party,
        &reads_of(asked),
    )
}
