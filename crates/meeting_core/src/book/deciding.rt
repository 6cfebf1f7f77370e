//! A book decides calls from its lists.
ghost use Rattle.meeting_core.specs.Decided.{IsDecidedOf};

use crate::book::Book;
use crate::dispatch::Decides;
use desk_words::{
    Answer, Change, DeskRequest, MeetingId, Moment, OfficeRequest, Party, PartyRequest, Refusal,
    refuse,
};
use std::alloc::AllocError;

/// A book that decides calls, and stays as it is.
#[derive(Drop)]
pub(crate) struct InBook<'a> {
    pub(crate) book: &'a Book,
}

impl Decides for InBook<'_> {
    type Error = AllocError;

    ghost decides = { λ a b result call. IsDecidedOf a.book.now result call };

    fn for_desk(&mut self, _: Moment, asked: &DeskRequest) -> Result<Answer<Change>, AllocError> {
        self.book.answer_to_desk(asked)
    }

    fn for_office(
        &mut self,
        meeting: MeetingId,
        now: Moment,
        asked: &OfficeRequest,
    ) -> Result<Answer<Change>, AllocError> {
        self.book.answer_to_office(meeting, now, asked)
    }

    fn for_party(
        &mut self,
        party: Party,
        meeting: MeetingId,
        now: Moment,
        asked: &PartyRequest,
    ) -> Result<Answer<Change>, AllocError> {
        self.book.entry_for(party, meeting, now, asked)
    }

    fn refuse(&mut self, refusal: Refusal) -> Result<Answer<Change>, AllocError> {
        Ok(refuse(refusal))
    }
}
