//! The book: all that an office holds, in memory.
ghost use Rattle.std.specs.Prelude.{◌≡◌, true, IfOk, OnOk, OnErr, IsTrue, IsOk};
ghost use Rattle.party_views.specs.Views.{meeting_at, own_of, public_of};
ghost use Rattle.caller_view.specs.PartyRulings.{party_ruling};
ghost use Rattle.desk_words.specs.Office.{is_office};
ghost use Rattle.desk_words.specs.Rulings.{map_change, refuses, ruled_answer};
ghost use Rattle.desk_words.specs.declared.change.Change.TheVariants as change;
ghost use Rattle.desk_words.specs.declared.change.MeetingChange.TheVariants as meeting_change;
ghost use Rattle.office_decisions.specs.OfficeRulings.{desk_ruling, is_list_held, is_register_held, office_ruling, refuses_at_once};
ghost use Rattle.office_decisions.specs.OfficeRulings.{office_needs_no_memory};
ghost use Rattle.office_decisions.specs.RequestLimits.{if_any, keeps_limits};
ghost use Rattle.desk_words.specs.Changes.{applied, applied_if_any, empty_office, sets_fields};
ghost use Rattle.meeting_core.specs.Step.{decided, is_at_once_to, needs_no_memory, stepped};

mod callers;
mod deciding;
mod of_lists;
mod party_reads;
mod perform;

use crate::answers::{answer_from, entering, in_meeting};
use crate::changes::{add_meeting, change_meeting};
use crate::dispatch::decide_by;
use caller_view::answer_notice;
use deciding::InBook;
use desk_words::{
    Answer, Call, Change, DayList, DeskRequest, Entry, KeyRows, MeetingId, MeetingLists, Moment,
    OfficeRequest, Party, PartyRequest, Reply, find_meeting,
};
pub use of_lists::BookFault;
use office_days::Closed;
use office_decisions::{desk_answer, office_answer};
use party_reads::{own_rows_in, own_rows_read, public_in};
use party_views::{OwnView, PublicRecord, own_from};
use std::alloc::{AllocError, Global};
use std::marker::Model;

/// All that an office holds. Contracts see it as the lists of the office, and it always holds the
/// lists of an office: `decide` says so of any book, and `new`, `apply`, `step` and `perform` of
/// what they leave.
pub struct Book {
    alloc: Global,
    keys: KeyRows,
    closed: Closed,
    meetings: Vec<MeetingLists>,
}

// It is written out, so that a caller does not prove again how each part is dropped.
impl Drop for Book {
    fn drop(self) {
        let Book {
            alloc: _,
            keys: _,
            closed: _,
            meetings: _,
        } = self;
    }
}

impl Model for Book {
    ghost use Rattle.std.specs.Prelude.{IsTrue};
    ghost use Rattle.desk_words.specs.declared.office.OfficeLists.{OfficeLists};
    ghost use Rattle.desk_words.specs.Office.{is_office};

    ghost Value = { OfficeLists };

    ghost view = { λ b. record { keys = b.keys; closed = b.closed; meetings = b.meetings.items } };

    ghost invariant = { λ b. IsTrue
        (is_office (record { keys = b.keys; closed = b.closed; meetings = b.meetings.items })) };
}

impl Book {
    /// The empty office.
    pub fn new(alloc: Global) -> Book
        ensures value { result ≡ empty_office }
        ensures valid { IsTrue (is_office result) }
    {
        Book {
            alloc,
            keys: KeyRows::empty(alloc),
            closed: Closed::from_list(DayList::empty(alloc)),
            meetings: Vec::new(alloc),
        }
    }

    /// The public record of a meeting, which is lent; where there is none of that name, the closed
    /// days alone. It takes no memory.
    pub fn public_of(&self, meeting: MeetingId) -> PublicRecord<'_>
        ensures { result ≡ public_of self.now meeting }
    {
        public_in(&self.closed, find_meeting(&self.meetings, meeting))
    }

    /// The own things of a party in a meeting at a moment; where there is none of that name, its
    /// own name alone. The error is want of memory.
    pub fn own_of(
        &self,
        party: Party,
        meeting: MeetingId,
        now: Moment,
    ) -> Result<OwnView, AllocError>
        ensures { IfOk result (λ own. own ≡ own_of self.now party meeting now) }
    {
        let found = find_meeting(&self.meetings, meeting);
        let public = public_in(&self.closed, found);
        let rows = own_rows_in(self.alloc, found, party)?;
        own_from(self.alloc, rows, &public, now)
    }

    /// The answer to what a party asks in a meeting.
    #[inline(never)]
    fn answer_to_party(
        &self,
        party: Party,
        meeting: MeetingId,
        now: Moment,
        asked: &PartyRequest,
    ) -> Result<Answer<Entry>, AllocError>
        ensures { IfOk result (λ a. a
            ≡ ruled_answer (party_ruling (public_of self.now meeting)
            (own_of self.now party meeting now) now asked.now)) }
    {
        let found = find_meeting(&self.meetings, meeting);
        let public = public_in(&self.closed, found);
        if let PartyRequest::Notice = asked {
            return answer_notice(self.alloc, &public, now);
        }
        let rows = own_rows_read(self.alloc, found, party, asked)?;
        answer_from(self.alloc, &public, rows, now, asked)
    }

    /// The answer to what the office asks of the whole desk.
    fn answer_to_desk(&self, asked: &DeskRequest) -> Result<Answer<Change>, AllocError>
        ensures answer { IfOk result (λ a. a ≡ ruled_answer
            (desk_ruling self.now.keys self.now.closed self.now.meetings asked.now)) }
        ensures limits { IfOk result (λ a. if_any keeps_limits a.change ≡ true) }
        ensures refusals { refuses
            (desk_ruling self.now.keys self.now.closed self.now.meetings asked.now) ≡ true
            → IsOk result }
        ensures same { is_list_held self.now.keys self.now.closed asked.now ≡ true → IsOk result }
    {
        desk_answer(self.alloc, &self.keys, &self.closed, &self.meetings, asked)
    }

    /// The answer to what the office asks in a meeting, as a change of the office. A party's calls
    /// are not to pay for the places of its values.
    #[inline(never)]
    fn answer_to_office(
        &self,
        meeting: MeetingId,
        now: Moment,
        asked: &OfficeRequest,
    ) -> Result<Answer<Change>, AllocError>
        ensures answer { IfOk result (λ a. a ≡ map_change (change.InMeeting meeting)
            (ruled_answer (office_ruling self.now.closed (meeting_at self.now meeting) now asked.now))) }
        ensures limits { IfOk result (λ a. if_any keeps_limits a.change ≡ true) }
        ensures sure { office_needs_no_memory asked.now ≡ true → IsOk result }
        ensures refusals { refuses_at_once (office_ruling self.now.closed
            (meeting_at self.now meeting) now asked.now)
            ≡ true → IsOk result }
        ensures same { is_register_held (meeting_at self.now meeting) asked.now ≡ true
            → IsOk result }
    {
        let found = find_meeting(&self.meetings, meeting);
        let answer = office_answer(self.alloc, &self.closed, found, now, asked)?;
        Ok(in_meeting(meeting, answer))
    }

    /// The answer to what a party asks in a meeting, as a change of the office.
    #[inline(always)]
    fn entry_for(
        &self,
        party: Party,
        meeting: MeetingId,
        now: Moment,
        asked: &PartyRequest,
    ) -> Result<Answer<Change>, AllocError>
        ensures { IfOk result (λ a. a
            ≡ map_change (λ entry. change.InMeeting meeting (meeting_change.Enter entry))
            (ruled_answer (party_ruling (public_of self.now meeting)
            (own_of self.now party meeting now) now asked.now))) }
    {
        let answer = self.answer_to_party(party, meeting, now, asked)?;
        Ok(entering(meeting, answer))
    }

    fn answer_to(&self, call: &Call) -> Result<Answer<Change>, AllocError>
        ensures answer { IfOk result (λ a. a ≡ decided self.now call.now) }
        ensures limits { IfOk result (λ a. if_any keeps_limits a.change ≡ true) }
        ensures sure { needs_no_memory self.now call.now.caller call.now.request ≡ true
            → IsOk result }
        ensures refusals { is_at_once_to call.now.caller (decided self.now call.now) ≡ true
            → IsOk result }
    {
        decide_by(&mut InBook { book: self }, call)
    }

    /// What is decided of a call, as `decide` says.
    fn decision(&self, call: &Call) -> Result<Answer<Change>, AllocError>
        ensures answer { IfOk result (λ a. a ≡ decided self.now call.now) }
        ensures held { IsTrue (is_office self.now) }
        ensures valid { IfOk result (λ a. IsTrue (is_office (applied_if_any self.now a.change))) }
        ensures sure { needs_no_memory self.now call.now.caller call.now.request ≡ true
            → IsOk result }
        ensures refusals { is_at_once_to call.now.caller (decided self.now call.now) ≡ true
            → IsOk result }
    {
        // This opens the value, so that what its type keeps is known.
        let _ = &self.meetings;
        self.answer_to(call)
    }

    /// The reply to a call, and its change: to a party the answer of its public record and its own
    /// things, to the office that of the whole office. The error is want of memory; a start or a
    /// close of a poll by the office needs none, nor does its load of what is held already, nor an
    /// office request of a party or a party request of the office, which are refused, nor any call
    /// of the office that is refused, but as `NoQuorum` or `DemandTooSmall`.
    pub fn decide(&self, call: &Call) -> Result<(Reply, Option<Change>), AllocError>
        ensures reply { IfOk result (λ d. d.0 ≡ (decided self.now call.now).reply) }
        ensures change { IfOk result (λ d. d.1 ≡ (decided self.now call.now).change) }
        ensures held { IsTrue (is_office self.now) }
        ensures valid { IfOk result (λ d. IsTrue (is_office (applied_if_any self.now d.1))) }
        ensures sure { needs_no_memory self.now call.now.caller call.now.request ≡ true
            → IsOk result }
        ensures refusals { is_at_once_to call.now.caller (decided self.now call.now) ≡ true
            → IsOk result }
    {
        let answer = self.decision(call)?;
        Ok((answer.reply, answer.change))
    }

    /// Writes a change that leaves the lists of an office, as each change of `decide` does. The
    /// error is want of memory, and the book is then as it was; a change that sets fields needs
    /// none.
    pub fn apply(&mut self, change: Change) -> Result<(), AllocError>
        requires { IsTrue (is_office (applied self.old change)) }
        ensures ok { OnOk result (self.new ≡ applied self.old change) }
        ensures err { OnErr result (self.new ≡ self.old) }
        ensures valid { IsTrue (is_office self.new) }
        ensures sure { sets_fields change ≡ true → IsOk result }
    {
        match change {
            Change::AddMeeting(meeting) => add_meeting(self.alloc, &mut self.meetings, meeting)?,
            Change::SetClosedDays(days) => self.closed = Closed::from_list(days),
            Change::SetKeys(rows) => self.keys = rows,
            Change::InMeeting { meeting, change } => {
                change_meeting(&mut self.meetings, meeting, change)?;
            }
        }
        Ok(())
    }

    /// Writes a change, if there is one, that leaves the lists of an office. The error is want of
    /// memory, and the book is then as it was; a change that sets fields needs none.
    fn apply_if_any(&mut self, change: Option<Change>) -> Result<(), AllocError>
        requires { IsTrue (is_office (applied_if_any self.old change)) }
        ensures ok { OnOk result (self.new ≡ applied_if_any self.old change) }
        ensures err { OnErr result (self.new ≡ self.old) }
        ensures valid { IsTrue (is_office self.new) }
        ensures sure { if_any sets_fields change ≡ true → IsOk result }
    {
        match change {
            None => Ok(()),
            Some(change) => self.apply(change),
        }
    }

    /// One step: the decision, and then its change. The error is want of memory, which is never
    /// answered where `decide` needs none. After it, and after a refusal, the book is as it was.
    pub fn step(&mut self, call: Call) -> Result<Reply, AllocError>
        ensures reply { IfOk result (λ r. r ≡ (decided self.old call).reply) }
        ensures ok { OnOk result (self.new ≡ stepped self.old call) }
        ensures err { OnErr result (self.new ≡ self.old) }
        ensures valid { IsTrue (is_office self.new) }
        ensures sure { needs_no_memory self.old call.caller call.request ≡ true → IsOk result }
        ensures refusals { is_at_once_to call.caller (decided self.old call) ≡ true → IsOk result }
    {
        let (reply, change) = self.decide(&call)?;
        self.apply_if_any(change)?;
        Ok(reply)
    }
}
