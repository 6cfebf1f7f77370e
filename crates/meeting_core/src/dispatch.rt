//! Which side a call is of, and what it asks.
ghost use Rattle.std.specs.Prelude.{◌≡◌, Result};
ghost use Rattle.desk_words.specs.Rulings.{refused};
ghost use Rattle.desk_words.specs.declared.answer.Answer.{Answer};
ghost use Rattle.desk_words.specs.declared.change.Change.{Change};
ghost use Rattle.desk_words.specs.declared.office.OfficeLists.{OfficeLists};
ghost use Rattle.desk_words.specs.declared.request.Call.{Call};
ghost use Rattle.meeting_core.specs.Decisions.{desk_call, office_call, party_call};
ghost use Rattle.meeting_core.specs.Step.{decided};

use desk_words::{
    Answer, Call, Caller, Change, DeskRequest, MeetingId, Moment, OfficeRequest, Party,
    PartyRequest, Refusal, Request,
};

/// What decides calls: the lists of an office, wherever they are kept.
pub trait Decides {
    type Error;

    // So a call is decided, by what it was and is.
    ghost decides: { Self → Self → Result (Answer Change) Self.Error → Call → Type 0 };

    /// Decides what the office asks of the whole desk.
    fn for_desk(&mut self, now: Moment, asked: &DeskRequest) -> Result<Answer<Change>, Self::Error>
        ensures { decides self.old self.new result (desk_call now asked.now) };

    /// Decides what the office asks in a meeting.
    fn for_office(
        &mut self,
        meeting: MeetingId,
        now: Moment,
        asked: &OfficeRequest,
    ) -> Result<Answer<Change>, Self::Error>
        ensures { decides self.old self.new result (office_call meeting now asked.now) };

    /// Decides what a party asks in a meeting.
    fn for_party(
        &mut self,
        party: Party,
        meeting: MeetingId,
        now: Moment,
        asked: &PartyRequest,
    ) -> Result<Answer<Change>, Self::Error>
        ensures { decides self.old self.new result (party_call party meeting now asked.now) };

    /// Refuses a call that every office refuses so.
    fn refuse(&mut self, refusal: Refusal) -> Result<Answer<Change>, Self::Error>
        ensures { (call : Call)
            → ((office : OfficeLists) → decided office call ≡ refused refusal)
            → decides self.old self.new result call };
}

/// Decides a call. What only the office may ask is refused to a party, and what only a party may
/// ask is refused to the office.
pub fn decide_by<D: Decides>(by: &mut D, call: &Call) -> Result<Answer<Change>, D::Error>
    ensures { D.decides by.old by.new result call.now }
{
    match call.caller {
        Caller::Office => match &call.request {
            Request::Desk(asked) => by.for_desk(call.moment, asked),
            Request::Office { meeting, asked } => by.for_office(*meeting, call.moment, asked),
            Request::Party { .. } => by.refuse(Refusal::PartyOnly),
        },
        Caller::Party(party) => match &call.request {
            Request::Party { meeting, asked } => by.for_party(party, *meeting, call.moment, asked),
            Request::Desk(_) | Request::Office { .. } => by.refuse(Refusal::OfficeOnly),
        },
    }
}
