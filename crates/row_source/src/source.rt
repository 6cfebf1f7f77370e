//! Look-ups of a meeting's records.
ghost use Rattle.std.specs.Prelude.{◌≡◌, Option, alloc_error, filter, length, map};
ghost use Rattle.party_views.specs.OwnCasts.{cast_count};
ghost use Rattle.party_views.specs.PartyRows.{presences_of};
ghost use Rattle.desk_words.specs.declared.office.MeetingLists.{MeetingLists};
ghost use Rattle.proxy_rules.specs.Holdings.{claim_of, is_ended_of, is_given_by};
ghost use Rattle.proxy_rules.specs.Parties.{is_authority_of, is_demanded_by};
ghost use Rattle.proxy_rules.specs.Shares.{row_of, shares_by};
ghost use Rattle.row_source.specs.LookUps.{appointments_in, authorities_in, casts_by, demands_in};
ghost use Rattle.row_source.specs.LookUps.{endings_in, given_to_in, naming_in, presences_in, register_in};
ghost use Rattle.row_source.specs.LookUps.{trusting_for_in, trusting_in};
ghost use Rattle.row_source.specs.TrueLookUps.{IsTrueLookUp};

use desk_words::{
    Appointment, Authority, CastMark, DemandMark, Ending, Listing, Party, RegisterRow,
};
use proxy_rules::Claim;
use std::alloc::AllocError;

/// Of the appointments that a member gave those that name a party, and what of all of them decides
/// which shares they govern.
#[derive(Drop)]
pub struct GivenTo {
    pub received: Listing<Appointment>,
    pub claims: Listing<Claim>,
}

/// What looks a meeting's records up by the names that are on them. Each list is in order of
/// receipt; where there is no meeting nothing is found.
pub trait RowSource {
    type Error: From<AllocError>;

    /// Its answers so far may be trusted.
    ghost trusted: { Self → Type 0 };

    /// It holds the lists of this meeting, or there is none.
    ghost shows: { Self → Option MeetingLists → Type 0 };

    /// What an answered look-up leaves of it.
    ghost keeps: { Self → Self → Type 0 };

    /// What any look-up leaves of it.
    ghost leaves: { Self → Self → Type 0 };

    /// A look-up may fail so where its answers may be trusted.
    ghost may_fail: { Self.Error → Type 0 };

    /// A member's row in the register (section 113), if it has one.
    fn row_of(&mut self, member: Party) -> Result<Option<RegisterRow>, Self::Error>
        ensures { IsTrueLookUp trusted shows keeps leaves may_fail self.old self.new result
            (λ found row. row ≡ row_of (register_in found) member) };

    /// How many shares a member has. Treasury shares are none (section 726), and neither has one
    /// without a row.
    fn shares_of(&mut self, member: Party) -> Result<u64, Self::Error>
        ensures { IsTrueLookUp trusted shows keeps leaves may_fail self.old self.new result
            (λ found shares. shares ≡ shares_by (register_in found) member) };

    /// The appointments that a member gave (section 324).
    fn given_by(&mut self, member: Party) -> Result<Listing<Appointment>, Self::Error>
        ensures { IsTrueLookUp trusted shows keeps leaves may_fail self.old self.new result
            (λ found given. given ≡ filter (is_given_by member) (appointments_in found)) };

    /// What of them decides which shares they govern.
    fn claims_by(&mut self, member: Party) -> Result<Listing<Claim>, Self::Error>
        ensures { IsTrueLookUp trusted shows keeps leaves may_fail self.old self.new result
            (λ found claims. claims
            ≡ map claim_of (filter (is_given_by member) (appointments_in found))) };

    /// How many appointments a member gave.
    fn count_given_by(&mut self, member: Party) -> Result<u64, Self::Error>
        ensures { IsTrueLookUp trusted shows keeps leaves may_fail self.old self.new result
            (λ found count. count ≡ length (filter (is_given_by member) (appointments_in found))) };

    /// The appointments that name a party as their proxy (section 324).
    fn naming(&mut self, party: Party) -> Result<Listing<Appointment>, Self::Error>
        ensures { IsTrueLookUp trusted shows keeps leaves may_fail self.old self.new result
            (λ found received. received ≡ naming_in found party) };

    /// Those of them that a member gave, and what of all that it gave decides which shares they
    /// govern.
    fn given_to(&mut self, member: Party, party: Party) -> Result<GivenTo, Self::Error>
        ensures { IsTrueLookUp trusted shows keeps leaves may_fail self.old self.new result
            (λ found given. given ≡ given_to_in found member party) };

    /// A member's endings of its appointments (section 330).
    fn ended_by(&mut self, member: Party) -> Result<Listing<Ending>, Self::Error>
        ensures { IsTrueLookUp trusted shows keeps leaves may_fail self.old self.new result
            (λ found ended. ended ≡ filter (is_ended_of member) (endings_in found)) };

    /// The authorities that a party gave (section 323).
    fn persons_of(&mut self, party: Party) -> Result<Listing<Authority>, Self::Error>
        ensures { IsTrueLookUp trusted shows keeps leaves may_fail self.old self.new result
            (λ found persons. persons ≡ filter (is_authority_of party) (authorities_in found)) };

    /// The authorities that were given to a party (section 323).
    fn trusting(&mut self, party: Party) -> Result<Listing<Authority>, Self::Error>
        ensures { IsTrueLookUp trusted shows keeps leaves may_fail self.old self.new result
            (λ found given. given ≡ trusting_in found party) };

    /// Those of them that a corporation gave.
    fn trusting_for(
        &mut self,
        corporation: Party,
        party: Party,
    ) -> Result<Listing<Authority>, Self::Error>
        ensures { IsTrueLookUp trusted shows keeps leaves may_fail self.old self.new result
            (λ found given. given ≡ trusting_for_in found corporation party) };

    /// The sessions in which a party is marked present, by their numbers from 1 (section 318).
    fn presences_of(&mut self, party: Party) -> Result<Listing<u64>, Self::Error>
        ensures { IsTrueLookUp trusted shows keeps leaves may_fail self.old self.new result
            (λ found sessions. sessions ≡ presences_of party (presences_in found)) };

    /// The polls that a party demanded (sections 321 and 329).
    fn demands_of(&mut self, party: Party) -> Result<Listing<DemandMark>, Self::Error>
        ensures { IsTrueLookUp trusted shows keeps leaves may_fail self.old self.new result
            (λ found demands. demands ≡ filter (is_demanded_by party) (demands_in found)) };

    /// The votes that a party cast (sections 284 and 322).
    fn casts_of(&mut self, party: Party) -> Result<Listing<CastMark>, Self::Error>
        ensures { IsTrueLookUp trusted shows keeps leaves may_fail self.old self.new result
            (λ found casts. casts ≡ casts_by found party) };

    /// How many of them are on a resolution.
    fn count_cast_on(&mut self, party: Party, resolution: u64) -> Result<usize, Self::Error>
        ensures { IsTrueLookUp trusted shows keeps leaves may_fail self.old self.new result
            (λ found count. count ≡ cast_count (casts_by found party) resolution) };

    ghost still_shows: { (a b : Self) → keeps a b → trusted b
        → (found : Option MeetingLists) → shows a found → shows b found };

    ghost was_trusted: { (a b : Self) → leaves a b → trusted b → trusted a };

    ghost keeps_then: { (a b c : Self) → keeps a b → keeps b c → keeps a c };

    ghost leaves_then: { (a b c : Self) → keeps a b → leaves b c → leaves a c };

    ghost memory_may_fail: { (error : Self.Error) → Self.Error.from_gives alloc_error error
        → may_fail error };
}
