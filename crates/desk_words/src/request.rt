//! Requests, parted by who may ask them and of what, and calls.
use crate::caller::Caller;
use crate::list_types::{DayList, KeyRows, Resolutions};
use crate::register::Register;
use calendar::{Day, Moment};
use seq::Listing;
use vocabulary::{Capacity, Company, Instr, MeetingId, MeetingKind, Party, Way};

/// A meeting that is to be called (sections 302 and 307).
#[derive(Drop)]
pub struct NewMeeting {
    pub meeting: MeetingId,
    pub company: Company,
    pub kind: MeetingKind,
    /// The day on which notice is given.
    pub given: Day,
    /// The appointed time.
    pub appointed: Moment,
    /// The moment as of which the register is to be taken.
    pub record_moment: Moment,
    pub resolutions: Resolutions,
}

/// A register that is to be loaded for a meeting.
#[derive(Drop)]
pub struct NewRegister {
    /// The moment as of which it was taken.
    pub record_moment: Moment,
    pub rows: Register,
}

/// A poll that is to be ordered (section 321).
#[derive(Clone, Copy, PartialEq, Eq)]
pub struct NewPoll {
    /// The resolution's number, from 1.
    pub resolution: u64,
    /// When the poll is to be taken.
    pub take: Moment,
    /// Whether the chair orders it, without a demand.
    pub chair: bool,
}

/// An appointment of a proxy that a party is to give over some of its own shares (section 324).
#[derive(Drop)]
pub struct NewAppointment {
    pub proxy: Party,
    /// The first of the places.
    pub from: u64,
    /// The last of the places.
    pub to: u64,
    /// One instruction for each resolution (section 324A).
    pub instructions: Listing<Instr>,
}

/// A vote that is to be cast on some of a member's shares: by the member itself, by a
/// representative of it or by its proxy (sections 284, 322, 323 and 324).
#[derive(Clone, Copy, PartialEq, Eq)]
pub struct NewCast {
    /// The resolution's number, from 1.
    pub resolution: u64,
    /// In which capacity it is cast.
    pub capacity: Capacity,
    /// Whose shares they are.
    pub member: Party,
    /// The first of their places.
    pub from: u64,
    /// The last of their places.
    pub to: u64,
    pub way: Way,
}

/// What the office asks of the whole desk.
#[derive(Drop)]
pub enum DeskRequest {
    /// It calls a meeting.
    CallMeeting(NewMeeting),
    /// It loads the closed days.
    ClosedDays(DayList),
    /// It loads the keys by which callers are known.
    Keys(KeyRows),
}

/// What the office asks in a meeting. A poll is named by the number of its resolution, from 1.
#[derive(Drop)]
pub enum OfficeRequest {
    /// It loads the register.
    LoadRegister(NewRegister),
    /// It notes that a party is present.
    Presence(Party),
    /// It opens the meeting.
    OpenMeeting,
    /// It adjourns the meeting to one session more, appointed for that moment.
    Adjourn(Moment),
    /// It orders a poll.
    Order(NewPoll),
    /// It starts a poll.
    Start(u64),
    /// It closes the voting on a poll.
    Close(u64),
    /// It declares the result of a poll.
    Declare(u64),
}

/// What a party asks in a meeting.
#[derive(Drop)]
pub enum PartyRequest {
    /// It asks for the notice.
    Notice,
    /// It asks for its own things.
    Mine,
    /// It appoints a proxy over some of its own shares.
    Appoint(NewAppointment),
    /// It ends an appointment that it gave, by its own number of it, from 1.
    End(u64),
    /// It authorises a person to represent it.
    Authorise(Party),
    /// It notes that it is present.
    Attend,
    /// It demands a poll on the resolution of that number, from 1.
    Demand(u64),
    /// It votes on some of a member's shares.
    Cast(NewCast),
    /// As a proxy it votes as it is instructed on the resolution of that number, from 1, wherever
    /// it is (section 324A).
    Instructed(u64),
}

/// What is asked.
#[derive(Drop)]
pub enum Request {
    /// What only the office may ask, of the whole desk.
    Desk(DeskRequest),
    /// What only the office may ask, in a meeting.
    Office {
        meeting: MeetingId,
        asked: OfficeRequest,
    },
    /// What only a party may ask, in a meeting.
    Party {
        meeting: MeetingId,
        asked: PartyRequest,
    },
}

/// One call: what is asked, by whom and when.
#[derive(Drop)]
pub struct Call {
    pub moment: Moment,
    pub caller: Caller,
    pub request: Request,
}
