//! Refusals and their one order.
ghost use Rattle.std.specs.Prelude.{◌≡◌};
ghost use Rattle.vocabulary.specs.Refusals.{number_of, name_of};

/// Why a request is refused. Of the conditions that hold, the lowest number is answered.
#[derive(Clone, Copy, PartialEq, Eq)]
pub enum Refusal {
    /// No known caller.
    Key = 1,
    /// No such path, verb or form of meeting.
    Route = 2,
    /// The method is not the route's.
    Method = 3,
    /// A limit on head, header, body or line is passed.
    TooLarge = 4,
    /// The head, the body or the line is not read.
    Unreadable = 5,
    /// A party sends an office request.
    OfficeOnly = 6,
    /// The office sends a party request.
    PartyOnly = 7,
    /// No such meeting.
    NoMeeting = 8,
    /// The meeting is called already, or the poll is started already.
    Exists = 9,
    /// Too few clear days of notice (sections 307 and 360).
    ShortNotice = 10,
    /// No resolution of that number.
    NoResolution = 11,
    /// The range is not `1 <= from <= to <= 10^12`.
    BadRange = 12,
    /// The caller names itself as proxy or representative.
    SelfNamed = 13,
    /// Not one instruction per resolution.
    BadInstructions = 14,
    /// A limit on meetings, appointments, authorities or casts is reached.
    TooMany = 15,
    /// No appointment of that number is the caller's own.
    NoSuchNumber = 16,
    /// That appointment is ended already.
    AlreadyEnded = 17,
    /// No register is loaded.
    NoRegister = 18,
    /// The record moment is not the meeting's.
    OtherRecord = 19,
    /// The meeting is opened.
    Opened = 20,
    /// The meeting is not opened.
    NotOpened = 21,
    /// A register before the record moment, an opening before the appointed time, a taking before
    /// the call, or a start before the taking.
    Early = 22,
    /// No quorum is present (section 318).
    NoQuorum = 23,
    /// The caller has no presence.
    NotPresent = 24,
    /// The caller has not the capacity that is asked.
    NoRight = 25,
    /// A poll is ordered.
    PollOrdered = 26,
    /// No poll is ordered.
    NoPoll = 27,
    /// Neither the chair's order nor a demand that is reached (section 321).
    DemandTooSmall = 28,
    /// The poll is not started.
    PollNotOpen = 29,
    /// The poll is closed.
    PollClosed = 30,
    /// The poll is not closed.
    NotClosed = 31,
    /// The poll is declared.
    Declared = 32,
    /// Some share of the range is not the caller's to vote.
    NotYours = 33,
    /// Some share of the range is governed by another instruction (section 324A).
    AgainstInstruction = 34,
    /// Some poll of the meeting is not closed, and is started or not late.
    PollRunning = 35,
}

impl Refusal {
    /// Its place in the one order, 1 to 35.
    pub fn number(self) -> u8
        ensures { result ≡ number_of self }
    {
        self as u8
    }

    /// Its name, as replies give it.
    pub fn name(self) -> &'static str
        ensures { result.now ≡ name_of self }
    {
        match self {
            Refusal::Key => "Key",
            Refusal::Route => "Route",
            Refusal::Method => "Method",
            Refusal::TooLarge => "TooLarge",
            Refusal::Unreadable => "Unreadable",
            Refusal::OfficeOnly => "OfficeOnly",
            Refusal::PartyOnly => "PartyOnly",
            Refusal::NoMeeting => "NoMeeting",
            Refusal::Exists => "Exists",
            Refusal::ShortNotice => "ShortNotice",
            Refusal::NoResolution => "NoResolution",
            Refusal::BadRange => "BadRange",
            Refusal::SelfNamed => "SelfNamed",
            Refusal::BadInstructions => "BadInstructions",
            Refusal::TooMany => "TooMany",
            Refusal::NoSuchNumber => "NoSuchNumber",
            Refusal::AlreadyEnded => "AlreadyEnded",
            Refusal::NoRegister => "NoRegister",
            Refusal::OtherRecord => "OtherRecord",
            Refusal::Opened => "Opened",
            Refusal::NotOpened => "NotOpened",
            Refusal::Early => "Early",
            Refusal::NoQuorum => "NoQuorum",
            Refusal::NotPresent => "NotPresent",
            Refusal::NoRight => "NoRight",
            Refusal::PollOrdered => "PollOrdered",
            Refusal::NoPoll => "NoPoll",
            Refusal::DemandTooSmall => "DemandTooSmall",
            Refusal::PollNotOpen => "PollNotOpen",
            Refusal::PollClosed => "PollClosed",
            Refusal::NotClosed => "NotClosed",
            Refusal::Declared => "Declared",
            Refusal::NotYours => "NotYours",
            Refusal::AgainstInstruction => "AgainstInstruction",
            Refusal::PollRunning => "PollRunning",
        }
    }
}
