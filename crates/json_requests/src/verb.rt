//! Verbs, which name requests.
ghost use Rattle.std.specs.Prelude.{◌≡◌};
ghost use Rattle.json_requests.specs.Verbs.{verb_of};

/// What the office asks in a meeting.
#[derive(Clone, Copy, PartialEq, Eq)]
pub enum OfficeVerb {
    /// It notes that a party is present.
    Presence,
    /// It loads the register.
    Register,
    /// It opens the meeting.
    Open,
    /// It adjourns the meeting.
    Adjourn,
    /// It orders a poll.
    Order,
    /// It starts a poll.
    Start,
    /// It closes the voting on a poll.
    Close,
    /// It declares the result of a poll.
    Declare,
}

/// What a party asks in a meeting.
#[derive(Clone, Copy, PartialEq, Eq)]
pub enum PartyVerb {
    /// It asks for the notice.
    Notice,
    /// It asks for its own things.
    Mine,
    /// It appoints a proxy over some of its own shares.
    Appoint,
    /// It ends an appointment that it gave.
    End,
    /// It authorises a person to represent it.
    Authorise,
    /// It notes that it is present.
    Attend,
    /// It demands a poll.
    Demand,
    /// It votes on some of a member's shares.
    Cast,
    /// As a proxy it votes as it is instructed.
    Instructed,
}

/// What a request does.
#[derive(Clone, Copy, PartialEq, Eq)]
pub enum Verb {
    /// The office calls a meeting.
    Call,
    /// The office loads the closed days.
    Closed,
    /// The office loads the keys.
    Keys,
    /// The office asks in a meeting.
    Office(OfficeVerb),
    /// A party asks in a meeting.
    Party(PartyVerb),
}

impl Verb {
    /// The one that a word stands for, or none where no such word is listed.
    pub fn of_word(word: &str) -> Option<Verb>
        ensures { result ≡ verb_of word.now }
    {
        match word {
            "mine" => Some(Verb::Party(PartyVerb::Mine)),
            "notice" => Some(Verb::Party(PartyVerb::Notice)),
            "attend" => Some(Verb::Party(PartyVerb::Attend)),
            "cast" => Some(Verb::Party(PartyVerb::Cast)),
            "appoint" => Some(Verb::Party(PartyVerb::Appoint)),
            "authorise" => Some(Verb::Party(PartyVerb::Authorise)),
            "end" => Some(Verb::Party(PartyVerb::End)),
            "demand" => Some(Verb::Party(PartyVerb::Demand)),
            "instructed" => Some(Verb::Party(PartyVerb::Instructed)),
            "call" => Some(Verb::Call),
            "closed" => Some(Verb::Closed),
            "keys" => Some(Verb::Keys),
            "presence" => Some(Verb::Office(OfficeVerb::Presence)),
            "register" => Some(Verb::Office(OfficeVerb::Register)),
            "open" => Some(Verb::Office(OfficeVerb::Open)),
            "adjourn" => Some(Verb::Office(OfficeVerb::Adjourn)),
            "order" => Some(Verb::Office(OfficeVerb::Order)),
            "start" => Some(Verb::Office(OfficeVerb::Start)),
            "close" => Some(Verb::Office(OfficeVerb::Close)),
            "declare" => Some(Verb::Office(OfficeVerb::Declare)),
            _ => None,
        }
    }
}
