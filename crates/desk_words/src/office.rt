//! The lists of an office.
use crate::list_types::{DayList, KeyRows};
use crate::records::{
    Appointment, Authority, CastMark, DemandMark, Ending, Meeting, Poll, PresenceMark, RegisterRow,
};
use keyed_seq::Filed;
use seq::Listing;

/// A meeting and its lists: the register in the order of members, the polls in the order of
/// resolutions, and the others in order of receipt, filed by the parties that each record names.
#[derive(Drop)]
pub struct MeetingLists {
    pub meeting: Meeting,
    pub register: Listing<RegisterRow>,
    pub appointments: Filed<Appointment>,
    pub endings: Filed<Ending>,
    pub authorities: Filed<Authority>,
    pub presences: Filed<PresenceMark>,
    pub demands: Filed<DemandMark>,
    pub polls: Listing<Poll>,
    pub casts: Filed<CastMark>,
}

/// All that an office holds.
#[derive(Drop)]
pub struct OfficeLists {
    pub keys: KeyRows,
    pub closed: DayList,
    pub meetings: Listing<MeetingLists>,
}
