//! Replies.
use crate::boxed::Boxed;
use crate::own_things::{Authorised, Given, Received};
use crate::records::{Authority, CastMark, DemandMark, RegisterRow, Tally};
use calendar::{Day, Moment};
use seq::Listing;
use vocabulary::{Company, MeetingId, MeetingKind, Refusal, ResKind, Text};

/// What an appointment counts for, by the cutoff of the last session as it stands (section 327).
#[derive(Clone, Copy, PartialEq, Eq)]
pub enum AppointmentUse {
    /// It counts for the last session, and for each of its polls that is not late.
    Meeting,
    /// It came too late for the last session, and counts for late polls at most.
    LaterPolls,
}

/// An appointment that a party gave, and what it counts for.
#[derive(Clone, Drop)]
pub struct GivenUse {
    pub given: Given,
    pub used: AppointmentUse,
}

/// The member's own number of an appointment that it gives, and what the appointment counts for.
#[derive(Clone, Copy, PartialEq, Eq)]
pub struct AppointmentReceipt {
    pub number: u64,
    pub used: AppointmentUse,
}

/// A party's own things in a meeting, as the reply to it gives them. Lists are in order of receipt.
#[derive(Drop)]
pub struct Mine {
    pub meeting: MeetingId,
    /// The party's row in the register.
    pub row: Option<RegisterRow>,
    /// The appointments that the party gave.
    pub given: Listing<GivenUse>,
    /// The authorities that the party gave.
    pub persons: Listing<Authority>,
    /// The appointments that name the party.
    pub received: Listing<Received>,
    pub authorised: Listing<Authorised>,
    /// The number of the meeting's last session, from 1.
    pub session: u64,
    /// The sessions in which the party is present, by their numbers, in order.
    pub presences: Listing<u64>,
    pub demands: Listing<DemandMark>,
    pub casts: Listing<CastMark>,
}

/// What is declared of a poll: its count, and whether the resolution is carried (sections 282 and
/// 283).
#[derive(Clone, Copy, PartialEq, Eq)]
pub struct Declaration {
    pub tally: Tally,
    pub carried: bool,
}

/// A session as a notice shows it.
#[derive(Clone, Copy, PartialEq, Eq)]
pub struct NoticedSession {
    /// The appointed time.
    pub appointed: Moment,
    /// The last moment at which an appointment for the session counts (section 327).
    pub cutoff: Moment,
    pub opened: Option<Moment>,
}

/// A poll as a notice shows it.
#[derive(Clone, Copy, PartialEq, Eq)]
pub struct NoticedPoll {
    /// The number of the session in which it was ordered, from 1.
    pub session: u64,
    /// When it was ordered.
    pub ordered: Moment,
    /// When it is to be taken.
    pub take: Moment,
    /// Whether the chair ordered it, without a demand.
    pub chair: bool,
    pub started: Option<Moment>,
    pub closed: Option<Moment>,
    /// Whether it is taken more than 48 hours of working time after its order (section 327).
    pub late: bool,
    /// The last moment at which an appointment for it counts.
    pub cutoff: Moment,
    /// What is declared of it, once it is declared.
    pub result: Option<Declaration>,
}

/// A resolution as a notice shows it.
#[derive(Clone, Drop)]
pub struct NoticedResolution {
    /// Its number, from 1.
    pub number: u64,
    pub kind: ResKind,
    pub text: Text,
    /// The poll on it, if one is ordered.
    pub poll: Option<NoticedPoll>,
}

/// The notice of a meeting (section 307), and what is public of it since.
#[derive(Clone, Drop)]
pub struct Notice {
    pub meeting: MeetingId,
    pub company: Company,
    pub kind: MeetingKind,
    /// The day on which notice is given.
    pub given: Day,
    /// The session for which the meeting is called.
    pub first: NoticedSession,
    /// The sessions to which it was adjourned, in order.
    pub later: Listing<NoticedSession>,
    /// The moment as of which the register is taken.
    pub record_moment: Moment,
    /// Whether a register is loaded.
    pub loaded: bool,
    /// In the order of their numbers.
    pub resolutions: Listing<NoticedResolution>,
}

/// What is answered. Its long values stand in places of their own, so that a reply is small.
#[derive(Drop)]
pub enum Reply {
    Called,
    Loaded,
    /// The rows are those that are held; nothing was changed.
    Same,
    MeetingOpened,
    /// The meeting is adjourned to the session of that number.
    Adjourned(u64),
    Ordered,
    Started,
    VotingClosed,
    Declared(Declaration),
    Notice(Boxed<Notice>),
    Mine(Boxed<Mine>),
    Appointed(AppointmentReceipt),
    /// The appointment of that number is ended.
    Ended(u64),
    /// A presence, an authority or a demand stands. Nothing is said of those of others, nor of
    /// whether it stood before.
    Noted,
    /// A vote is recorded. Nothing is said of other votes.
    Recorded,
    Refused(Refusal),
}

/// Why a call has no answer; the office is then as it was.
#[derive(Clone, Copy, PartialEq, Eq)]
pub enum Failure {
    /// The store refused a call for another cause than memory, or its rows are no office's.
    Store,
    /// An allocation was refused.
    Memory,
}
