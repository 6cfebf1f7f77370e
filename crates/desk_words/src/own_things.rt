//! What a party may know of appointments and authorities.
use crate::records::Appointment;
use calendar::Moment;
use seq::Listing;
use vocabulary::{Instructions, Party, Range};

/// An appointment that a party gave, with the moment of its ending if it is ended.
#[derive(Clone, Copy)]
pub struct Given {
    pub appointment: Appointment,
    pub ended: Option<Moment>,
}

/// The places that an appointment governs for a late poll, in runs in order.
#[derive(Clone, Drop)]
pub struct PollGoverned {
    /// The number of the poll's resolution, from 1.
    pub resolution: u64,
    pub governs: Listing<Range>,
}

/// The places that an appointment governs in a session, in runs in order.
#[derive(Clone, Drop)]
pub struct SessionGoverned {
    /// For the quorum and the demands of the session.
    pub acts: Listing<Range>,
    /// For its votes: those on each poll of the session that is not late.
    pub votes: Listing<Range>,
}

/// What a party knows of an appointment that names it as the proxy, with the places of the member's
/// shares that the appointment governs, in runs in order. The member's own number of it is left
/// out, since it counts what the member gave to others.
#[derive(Clone, Drop)]
pub struct Received {
    /// The member who gave it.
    pub member: Party,
    pub range: Range,
    /// One instruction for each resolution (section 324A).
    pub instructions: Instructions,
    /// When it was received.
    pub moment: Moment,
    /// What it governs in each session, in order.
    pub sessions: Listing<SessionGoverned>,
    /// What it governs for each late poll, in the order of resolutions.
    pub polls: Listing<PollGoverned>,
}

/// A corporation that authorised a party, with its shares: 0 unless the register has it as a
/// corporation.
#[derive(Clone, Copy, PartialEq, Eq)]
pub struct Authorised {
    pub corporation: Party,
    pub shares: u64,
}
