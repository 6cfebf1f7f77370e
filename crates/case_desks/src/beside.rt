//! The book beside the desk.
use crate::memory_desk::MemoryDesk;
use crate::printed::print_failing;
use crate::reads::{Asker, is_given};
use case_steps::Handed;
use cli_exit::Ended;
use desk_words::{
    Call, Caller, DayList, DeskRequest, KeyRows, MeetingId, Moment, Party, Reply, Request,
    read_party,
};
use json_replies::reply_text;
use meeting_core::Book;
use std::alloc::{AllocError, Global};

/// A book in memory that makes the same calls as a desk, with what the calls so far named.
#[derive(Drop)]
pub(crate) struct Beside {
    alloc: Global,
    book: Book,
    meetings: Vec<MeetingId>,
    parties: Vec<Party>,
    /// The keys that the office loaded last, and the closed days.
    keys: KeyRows,
    closed: DayList,
    /// The moment of the last call.
    last: Option<Moment>,
}

fn meeting_of(request: &Request) -> Option<MeetingId> {
    match request {
        Request::Desk(_) => None,
        Request::Office { meeting, .. } => Some(*meeting),
        Request::Party { meeting, .. } => Some(*meeting),
    }
}

/// How a command ends by the reply to what it loads.
fn ended_by(reply: &Reply) -> Ended {
    match reply {
        Reply::Loaded => Ended::with_word("loaded"),
        Reply::Same => Ended::with_word("same"),
        Reply::Refused(refusal) => Ended::by_refusal(*refusal),
        _ => Ended::done(),
    }
}

/// The reply of a book to a request of the office that names no meeting.
fn reply_to(
    alloc: Global,
    book: &Book,
    asked: DeskRequest,
    moment: Moment,
) -> Result<Vec<u8>, AllocError> {
    let call = Call {
        moment,
        caller: Caller::Office,
        request: Request::Desk(asked),
    };
    let (reply, _) = book.decide(&call)?;
    reply_text(alloc, &reply)
}

impl Beside {
    /// An empty book, and nothing named.
    pub(crate) fn new(alloc: Global) -> Beside {
        Beside {
            alloc,
            book: Book::new(alloc),
            meetings: Vec::new(alloc),
            parties: Vec::new(alloc),
            keys: KeyRows::empty(alloc),
            closed: DayList::empty(alloc),
            last: None,
        }
    }

    /// Takes another book in place of its own.
    pub(crate) fn set_book(&mut self, book: Book) {
        self.book = book;
    }

    /// The keys that the office loaded last.
    pub(crate) fn keys(&self) -> Result<KeyRows, AllocError> {
        self.keys.copy()
    }

    /// Takes a word that may be a party's name, where it begins with a letter.
    fn take_party(&mut self, word: &[u8]) -> Result<(), AllocError> {
        if let (Some(b'A'..=b'Z'), Some(party)) = (word.first(), read_party(word)) {
            if !self.parties.contains(&party) {
                self.parties.push(party)?;
            }
        }
        Ok(())
    }

    /// Takes the parties that a text names, each a word of letters and digits.
    fn take_parties(&mut self, text: &[u8]) -> Result<(), AllocError> {
        let mut begin = 0;
        for at in 0..text.len() {
            if !text[at].is_ascii_alphanumeric() {
                self.take_party(text.get(begin..at).unwrap_or(b""))?;
                begin = at.saturating_add(1);
            }
        }
        self.take_party(text.get(begin..).unwrap_or(b""))
    }

    /// Takes the keys or the closed days of a request that loads them.
    fn take_lists(&mut self, request: &Request) -> Result<(), AllocError> {
        match request {
            Request::Desk(DeskRequest::Keys(rows)) => self.keys = rows.copy()?,
            Request::Desk(DeskRequest::ClosedDays(days)) => self.closed = days.copy()?,
            _ => (),
        }
        Ok(())
    }

    /// Takes the moment and the meeting of a call, and the parties that its text names.
    pub(crate) fn take_names(&mut self, call: &Call, text: &[u8]) -> Result<(), AllocError> {
        self.last = Some(call.moment);
        self.take_parties(text)?;
        if let Some(meeting) = meeting_of(&call.request) {
            if !self.meetings.contains(&meeting) {
                self.meetings.push(meeting)?;
            }
        }
        Ok(())
    }

    /// Makes a call. Takes the keys or the closed days, where the office loads them by it.
    fn step(&mut self, call: Call) -> Result<Reply, AllocError> {
        if let Caller::Office = call.caller {
            self.take_lists(&call.request)?;
        }
        self.book.step(call)
    }

    /// Makes a call, and gives the text of its reply.
    pub(crate) fn perform(&mut self, call: Call) -> Result<Vec<u8>, AllocError> {
        let reply = self.step(call)?;
        reply_text(self.alloc, &reply)
    }

    /// Makes the call of the command that loads a file, and gives how that command ends.
    pub(crate) fn load(&mut self, handed: &Handed) -> Result<Ended, AllocError> {
        let request = match handed.request(self.alloc) {
            Ok(request) => request,
            Err(fault) => return Ok(Ended::by_file(fault)),
        };
        let call = Call {
            moment: handed.now,
            caller: Caller::Office,
            request,
        };
        self.take_names(&call, handed.bytes)?;
        Ok(ended_by(&self.step(call)?))
    }

    /// Adds a line to what is wrong where other results of a meeting are printed than this text, or
    /// else than its front where a write fails.
    pub(crate) fn compare_results(
        &self,
        meeting: MeetingId,
        text: &[u8],
        wrong: &mut String,
    ) -> Result<(), AllocError> {
        print_failing(self.alloc, &self.book, meeting, text, wrong)
    }

    /// The replies of a book where the keys and then the closed days that were loaded last are
    /// loaded again.
    fn replies_to_lists(&self, book: &Book, moment: Moment) -> Result<Vec<u8>, AllocError> {
        let keys = DeskRequest::Keys(self.keys.copy()?);
        let mut text = reply_to(self.alloc, book, keys, moment)?;
        let closed = DeskRequest::ClosedDays(self.closed.copy()?);
        text.extend_from_slice(&reply_to(self.alloc, book, closed, moment)?)?;
        Ok(text)
    }

    /// Whether both books reply alike where the keys and the closed days that were loaded last are
    /// loaded again.
    fn has_lists_of(&self, book: &Book, moment: Moment) -> Result<bool, AllocError> {
        let here = self.replies_to_lists(&self.book, moment)?;
        let there = self.replies_to_lists(book, moment)?;
        Ok(here.as_slice() == there.as_slice())
    }

    /// Whether another book gives of a party in a meeting, and of that meeting, what this one gives.
    fn is_given_alike(&self, asker: &Asker, book: &Book) -> Result<bool, AllocError> {
        let own = asker.own_in(book)?;
        let public = book.public_of(asker.meeting);
        is_given(self.alloc, asker, &self.book, &own, &public)
    }

    /// Whether a desk and its book have of each party that was named in a meeting, and of that
    /// meeting, what this book gives.
    fn is_like_in<T: MemoryDesk>(
        &self,
        meeting: MeetingId,
        moment: Moment,
        book: &Book,
        tables: &mut T,
    ) -> Result<bool, AllocError> {
        for party in self.parties.iter().copied() {
            let asker = Asker {
                moment,
                meeting,
                party,
            };
            if !self.is_given_alike(&asker, book)? || !tables.reads_like(&asker, &self.book)? {
                return Ok(false);
            }
        }
        Ok(true)
    }

    /// Whether a desk's book holds what this one holds, and the desk reads that where it reads less
    /// than all: the keys and the closed days, of each meeting that was named its public record, and
    /// the own things of each party that was named.
    pub(crate) fn is_like<T: MemoryDesk>(
        &self,
        book: &Book,
        tables: &mut T,
    ) -> Result<bool, AllocError> {
        let Some(moment) = self.last else {
            return Ok(true);
        };
        for meeting in self.meetings.iter().copied() {
            if !self.is_like_in(meeting, moment, book, tables)? {
                return Ok(false);
            }
        }
        self.has_lists_of(book, moment)
    }
}
