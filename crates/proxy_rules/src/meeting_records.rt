//! What the rules of a meeting and its polls read.
use desk_words::{
    Appointment, Authority, CastMark, DemandMark, Ending, Filed, Moment, PresenceMark, RegisterRow,
};

/// The lists of a meeting by which its shares are governed and its polls counted, filed by the
/// parties that each record names. Where no register is loaded there are no rows.
#[derive(Clone, Copy)]
pub struct Papers<'a> {
    /// The register of members, in the order of members (section 113).
    pub register: &'a [RegisterRow],
    /// The appointments of proxies, in order of receipt (section 324).
    pub appointments: &'a Filed<Appointment>,
    /// The endings of appointments, in order of receipt (section 330).
    pub endings: &'a Filed<Ending>,
    /// The authorities of representatives, in order of receipt (section 323).
    pub authorities: &'a Filed<Authority>,
    /// The marks of presence, in order of receipt.
    pub presences: &'a Filed<PresenceMark>,
    /// The demands of polls, in order of receipt (section 321).
    pub demands: &'a Filed<DemandMark>,
    /// The votes cast on all polls of the meeting, in order of receipt.
    pub casts: &'a Filed<CastMark>,
}

/// Until when appointments and endings count.
#[derive(Clone, Copy, PartialEq, Eq)]
pub struct Cutoffs {
    /// The last moment at which an appointment counts.
    pub appointments: Moment,
    /// The first moment at which an ending does not count.
    pub endings: Moment,
}
