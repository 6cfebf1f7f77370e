//! What a party may see.
ghost use Rattle.std.specs.Prelude.{◌≡◌};
ghost use Rattle.std.specs.Option.{option_copied};

use crate::own_rows::OwnCasts;
use desk_words::{
    Authorised, Authority, DemandMark, Given, Listing, Meeting, Party, Poll, Received, RegisterRow,
};
use office_days::Closed;
use std::marker::Model;

/// What everyone may know of a meeting: the closed days (section 1173), and, where the meeting
/// exists, its notice and resolutions, its sessions, whether a register is loaded, and its polls
/// with what is declared of them. It is lent by what keeps these.
#[derive(Drop)]
pub struct PublicRecord<'a> {
    pub(crate) closed: &'a Closed,
    pub(crate) meeting: Option<&'a Meeting>,
    pub(crate) polls: &'a [Poll],
}

impl<'a> Model for PublicRecord<'a> {
    ghost use Rattle.std.specs.Option.{option_copied};
    ghost use Rattle.party_views.specs.Public.{PublicRecord};

    ghost Value = { PublicRecord };

    ghost view = { λ r. record {
      closed = r.closed.now;
      meeting = option_copied r.meeting;
      polls = r.polls.now;
    } };
}

impl<'a> PublicRecord<'a> {
    /// The record of these closed days, of a meeting, or of none, and of its polls in the order of
    /// resolutions.
    pub fn new(
        closed: &'a Closed,
        meeting: Option<&'a Meeting>,
        polls: &'a [Poll],
    ) -> PublicRecord<'a>
        ensures { result
            ≡ record
            { closed = closed.now; meeting = option_copied meeting.entry; polls = polls.now } }
    {
        PublicRecord {
            closed,
            meeting,
            polls,
        }
    }

    /// The closed days (section 1173).
    pub fn closed(&self) -> &'a Closed
        ensures { result.now ≡ self.now.closed }
    {
        self.closed
    }

    /// The meeting, if there is one of the name that was asked for.
    pub fn meeting(&self) -> Option<&'a Meeting>
        ensures { option_copied result ≡ self.now.meeting }
    {
        self.meeting
    }

    /// Its polls, in the order of resolutions.
    pub fn polls(&self) -> &'a [Poll]
        ensures { result.now ≡ self.now.polls }
    {
        self.polls
    }
}

/// What a party may know of itself in a meeting. Lists are in order of receipt.
#[derive(Drop)]
pub struct OwnView {
    pub party: Party,
    /// Its row in the register.
    pub row: Option<RegisterRow>,
    /// The appointments that it gave (section 324), with their endings (section 330).
    pub given: Listing<Given>,
    /// How many appointments it gave.
    pub given_count: u64,
    /// The authorities that it gave (section 323).
    pub persons: Listing<Authority>,
    /// What it knows of the appointments that name it, with the places that each governs.
    pub received: Listing<Received>,
    /// The corporations that authorised it, with their shares.
    pub authorised: Listing<Authorised>,
    /// The sessions in which it is marked present, by their numbers from 1 (section 318).
    pub presences: Listing<u64>,
    /// The polls that it demanded (sections 321 and 329).
    pub demands: Listing<DemandMark>,
    /// The votes that it cast (sections 284 and 322).
    pub casts: OwnCasts,
}
