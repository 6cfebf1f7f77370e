//! The rows of a meeting from which a party's own things are made.
ghost use Rattle.std.specs.Prelude.{◌≡◌};
ghost use Rattle.party_views.specs.OwnCasts.{all_casts, cast_count, count_on};

use desk_words::{
    Appointment, Authority, CastMark, DemandMark, Ending, Listing, Party, RegisterRow,
};
use proxy_rules::Claims;
use std::alloc::Global;

/// A member who named a party as its proxy, with its shares, the claims of its appointments, and its
/// endings.
#[derive(Drop)]
pub struct MemberRows {
    pub member: Party,
    pub holding: Claims,
}

/// An authority to act for a corporation, with the corporation's row in the register, if it has
/// one.
#[derive(Drop)]
pub struct AuthorityRows {
    pub authority: Authority,
    pub row: Option<RegisterRow>,
}

/// How many of these votes are on a resolution.
fn cast_count(casts: &[CastMark], resolution: u64) -> usize
    ensures { result ≡ cast_count casts.now resolution }
{
    casts.iter().filter(|c| c.resolution == resolution).count()
}

/// The votes that a party cast.
#[derive(Drop)]
pub enum OwnCasts {
    /// All of them, in order of receipt.
    All(Listing<CastMark>),
    /// How many of them are on one resolution.
    Counted { resolution: u64, count: usize },
}

impl OwnCasts {
    /// How many of them are on a resolution, as far as they are known.
    pub fn count_on(&self, resolution: u64) -> usize
        ensures { result ≡ count_on self.now resolution }
    {
        match self {
            OwnCasts::All(casts) => cast_count(casts.as_slice(), resolution),
            OwnCasts::Counted {
                resolution: on,
                count,
            } => { if *on == resolution { *count } else { 0 } }
        }
    }

    /// All of them, as far as they are known.
    pub fn into_all(self, alloc: Global) -> Listing<CastMark>
        ensures { result ≡ all_casts self }
    {
        match self {
            OwnCasts::All(casts) => casts,
            OwnCasts::Counted { .. } => Listing::new(alloc),
        }
    }
}

/// The rows of a meeting from which a party's own things are made. Lists of records are in order of
/// receipt.
#[derive(Drop)]
pub struct OwnRows {
    pub party: Party,
    /// Its row in the register (section 113).
    pub row: Option<RegisterRow>,
    /// The appointments that it gave (section 324).
    pub given: Listing<Appointment>,
    /// How many they are.
    pub given_count: u64,
    /// Its endings of them (section 330).
    pub ended: Listing<Ending>,
    /// The authorities that it gave (section 323).
    pub persons: Listing<Authority>,
    /// The appointments that name it as their proxy (section 324).
    pub received: Listing<Appointment>,
    /// The members who gave these, each once, in the order in which they first named it.
    pub members: Listing<MemberRows>,
    /// The authorities that were given to it (section 323).
    pub authorised: Listing<AuthorityRows>,
    /// The sessions in which it is marked present, by their numbers from 1 (section 318).
    pub presences: Listing<u64>,
    /// The polls that it demanded (sections 321 and 329).
    pub demands: Listing<DemandMark>,
    /// The votes that it cast (sections 284 and 322).
    pub casts: OwnCasts,
}
