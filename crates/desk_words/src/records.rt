//! The records of an office. Moments are seconds of the office's wall clock, shares are counts,
//! and what is paid up is in pence on each share.
ghost use Rattle.std.specs.Prelude.{◌≡◌, Some, None};
ghost use Rattle.desk_words.specs.SameRows.{same_row};

use crate::list_types::Resolutions;
use calendar::{Day, Moment};
use keyed_seq::FiledBy;
use seq::{Keyed, Listing};
use vocabulary::{
    Capacity, Company, HolderKind, Instructions, MeetingId, MeetingKind, Party, Range, ResKind,
    Text, Way,
};

/// A resolution of which notice was given (section 283(6)).
#[derive(Clone, Drop)]
pub struct Resolution {
    pub kind: ResKind,
    pub text: Text,
}

/// A session of a meeting: the time for which it is appointed, and when it opened.
#[derive(Clone, Copy, PartialEq, Eq)]
pub struct Session {
    /// The appointed time.
    pub appointed: Moment,
    /// When it opened; none until then.
    pub opened: Option<Moment>,
}

/// A meeting as it is called (section 307), its sessions, and whether its register is loaded.
#[derive(Clone, Drop)]
pub struct Meeting {
    pub id: MeetingId,
    pub company: Company,
    pub kind: MeetingKind,
    /// The day on which notice is given.
    pub given: Day,
    /// The session for which the meeting is called.
    pub first: Session,
    /// The sessions to which it was adjourned, in order.
    pub later: Listing<Session>,
    /// The moment as of which the register is taken.
    pub record_moment: Moment,
    pub resolutions: Resolutions,
    pub loaded: bool,
}

/// A holding in the register of members (section 113).
#[derive(Clone, Drop)]
pub struct RegisterRow {
    pub member: Party,
    pub kind: HolderKind,
    pub name: Text,
    /// How many shares the member holds, numbered from 1.
    pub shares: u64,
    /// The pence paid up on each of them.
    pub paid: u64,
}

impl RegisterRow {
    /// Whether both are the same row.
    pub fn is(&self, other: &RegisterRow) -> bool
        ensures { result ≡ same_row self.now other.now }
    {
        self.member.is(other.member)
            && self.kind == other.kind
            && self.name.is(&other.name)
            && self.shares == other.shares
            && self.paid == other.paid
    }
}

impl Keyed for RegisterRow {
    type Key = Party;

    ghost key_of = { λ row. row.member };

    fn key(&self) -> Party {
        self.member
    }
}

/// An appointment of a proxy over a block of the member's shares (section 324).
#[derive(Clone, Copy)]
pub struct Appointment {
    pub member: Party,
    /// The member's own count: 1, 2, .. in order of receipt.
    pub number: u64,
    pub proxy: Party,
    pub range: Range,
    /// One instruction for each resolution (section 324A).
    pub instructions: Instructions,
    /// When it was received.
    pub moment: Moment,
}

impl FiledBy for Appointment {
    type Key = Party;

    ghost first_key_of = { λ appointment. appointment.member };

    ghost second_key_of = { λ appointment. Some appointment.proxy };

    fn first_key(&self) -> Party {
        self.member
    }

    fn second_key(&self) -> Option<Party> {
        Some(self.proxy)
    }
}

/// The ending of an appointment (section 330).
#[derive(Clone, Copy, PartialEq, Eq)]
pub struct Ending {
    pub member: Party,
    /// The number of the member's appointment that it ends.
    pub number: u64,
    pub moment: Moment,
}

impl FiledBy for Ending {
    type Key = Party;

    ghost first_key_of = { λ ending. ending.member };

    ghost second_key_of = { λ _. None };

    fn first_key(&self) -> Party {
        self.member
    }

    fn second_key(&self) -> Option<Party> {
        None
    }
}

/// An authority to act as a corporation's representative (section 323).
#[derive(Clone, Copy, PartialEq, Eq)]
pub struct Authority {
    pub corporation: Party,
    pub person: Party,
    pub moment: Moment,
}

impl FiledBy for Authority {
    type Key = Party;

    ghost first_key_of = { λ authority. authority.corporation };

    ghost second_key_of = { λ authority. Some authority.person };

    fn first_key(&self) -> Party {
        self.corporation
    }

    fn second_key(&self) -> Option<Party> {
        Some(self.person)
    }
}

/// A mark that a party is present in a session.
#[derive(Clone, Copy, PartialEq, Eq)]
pub struct PresenceMark {
    /// The session's number, from 1.
    pub session: u64,
    pub party: Party,
    pub moment: Moment,
}

impl FiledBy for PresenceMark {
    type Key = Party;

    ghost first_key_of = { λ mark. mark.party };

    ghost second_key_of = { λ _. None };

    fn first_key(&self) -> Party {
        self.party
    }

    fn second_key(&self) -> Option<Party> {
        None
    }
}

/// A party's demand, in a session, of a poll on a resolution (sections 321 and 329).
#[derive(Clone, Copy, PartialEq, Eq)]
pub struct DemandMark {
    /// The session's number, from 1.
    pub session: u64,
    /// The resolution's number, from 1.
    pub resolution: u64,
    pub party: Party,
    pub moment: Moment,
}

impl FiledBy for DemandMark {
    type Key = Party;

    ghost first_key_of = { λ mark. mark.party };

    ghost second_key_of = { λ _. None };

    fn first_key(&self) -> Party {
        self.party
    }

    fn second_key(&self) -> Option<Party> {
        None
    }
}

/// A count of votes, in shares. `eligible` is the number of all shares that are not treasury
/// shares.
#[derive(Clone, Copy, PartialEq, Eq)]
pub struct Tally {
    pub votes_for: u64,
    pub votes_against: u64,
    pub withheld: u64,
    pub eligible: u64,
}

/// A poll on a resolution (section 321).
#[derive(Clone, Copy, PartialEq, Eq)]
pub struct Poll {
    /// The number of the session in which it was ordered, from 1.
    pub session: u64,
    /// The resolution's number, from 1.
    pub resolution: u64,
    /// When it was ordered.
    pub ordered: Moment,
    /// When it is to be taken.
    pub take: Moment,
    /// Whether the chair ordered it, without a demand.
    pub chair: bool,
    pub started: Option<Moment>,
    pub closed: Option<Moment>,
    pub declared: Option<Tally>,
}

impl Keyed for Poll {
    type Key = u64;

    ghost key_of = { λ poll. poll.resolution };

    fn key(&self) -> u64 {
        self.resolution
    }
}

/// A vote on some of a member's shares, in one capacity and one way (section 322).
#[derive(Clone, Copy, PartialEq, Eq)]
pub struct Block {
    pub capacity: Capacity,
    pub member: Party,
    pub range: Range,
    pub way: Way,
}

/// What is cast: a vote on some shares, or, by a proxy, whatever it is instructed (section 324A).
#[derive(Clone, Copy, PartialEq, Eq)]
pub enum CastKind {
    Block(Block),
    AsInstructed,
}

/// A vote cast on a poll.
#[derive(Clone, Copy, PartialEq, Eq)]
pub struct CastMark {
    /// The resolution's number, from 1.
    pub resolution: u64,
    pub voter: Party,
    pub what: CastKind,
    pub moment: Moment,
}

impl FiledBy for CastMark {
    type Key = Party;

    ghost first_key_of = { λ mark. mark.voter };

    ghost second_key_of = { λ _. None };

    fn first_key(&self) -> Party {
        self.voter
    }

    fn second_key(&self) -> Option<Party> {
        None
    }
}
