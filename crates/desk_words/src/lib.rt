//! The words of the desk: its records, the lists of an office, requests, replies and changes.
#![tactic(auto)]

mod answer;
mod boxed;
mod caller;
mod change;
mod finding;
pub mod laws;
pub mod limits;
mod list_types;
mod majority;
mod office;
mod own_things;
mod records;
mod register;
mod reply;
mod request;
mod sessions;

pub use answer::{Answer, noted, refuse, reply_unchanged};
pub use boxed::Boxed;
pub use byte_io::{FailAt, Sink, Source};
pub use calendar::{Day, Moment, read_day, read_moment, write_day, write_moment};
pub use caller::{Caller, KeyRow, read_caller};
pub use change::{Change, Entry, MeetingChange, PollChange};
pub use finding::{find_meeting, find_poll};
pub use keyed_seq::Filed;
pub use list_types::{DayList, KeyRows, ListFault, Resolutions, same_keys};
pub use majority::{carried, result_of};
pub use office::{MeetingLists, OfficeLists};
pub use own_things::{Authorised, Given, PollGoverned, Received, SessionGoverned};
pub use records::{
    Appointment, Authority, Block, CastKind, CastMark, DemandMark, Ending, Meeting, Poll,
    PresenceMark, RegisterRow, Resolution, Session, Tally,
};
pub use register::{Register, same_rows};
pub use reply::{
    AppointmentReceipt, AppointmentUse, Declaration, Failure, GivenUse, Mine, Notice, NoticedPoll,
    NoticedResolution, NoticedSession, Reply,
};
pub use request::{
    Call, DeskRequest, NewAppointment, NewCast, NewMeeting, NewPoll, NewRegister, OfficeRequest,
    PartyRequest, Request,
};
pub use seq::Listing;
pub use vocabulary::{
    Capacity, Company, HolderKind, Instr, Instructions, MOST_INSTRUCTIONS, MOST_PLACES, MeetingId,
    MeetingKind, Party, Range, Refusal, ResKind, SecretKey, Text, TextFault, Way, read_key,
    read_meeting, read_party,
};
