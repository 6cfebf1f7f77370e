//! Changes.
use crate::list_types::{DayList, KeyRows};
use crate::records::{
    Appointment, Authority, CastMark, DemandMark, Ending, Meeting, Poll, PresenceMark, Tally,
};
use crate::register::Register;
use calendar::Moment;
use vocabulary::MeetingId;

/// What is entered into a meeting's lists in order of receipt. None of it is public.
#[derive(Drop)]
pub enum Entry {
    Appointment(Appointment),
    Ending(Ending),
    Authority(Authority),
    Presence(PresenceMark),
    Demand(DemandMark),
    Cast(CastMark),
}

/// How far a poll has come: started or closed at a moment, or its count declared.
#[derive(Clone, Copy, PartialEq, Eq)]
pub enum PollChange {
    Started(Moment),
    Closed(Moment),
    Declared(Tally),
}

/// What is changed in a meeting.
#[derive(Drop)]
pub enum MeetingChange {
    /// It gets a register.
    SetRegister(Register),
    /// Its last session is opened at that moment.
    SetOpened(Moment),
    /// It has one session more, appointed for that moment.
    AddSession(Moment),
    /// A poll is ordered.
    AddPoll(Poll),
    /// The poll on the resolution of that number has come further.
    SetPoll { resolution: u64, change: PollChange },
    /// Something is entered into its lists.
    Enter(Entry),
}

/// What a call changes: a record that is added, or fields that are set.
#[derive(Drop)]
pub enum Change {
    AddMeeting(Meeting),
    SetClosedDays(DayList),
    SetKeys(KeyRows),
    InMeeting {
        meeting: MeetingId,
        change: MeetingChange,
    },
}
