//! What is read of a party's own things and of a meeting, compared with what a book gives of them.
use caller_view::answer;
use desk_words::{
    Given, Meeting, MeetingId, Moment, Party, PartyRequest, PollGoverned, Received, RegisterRow,
    Resolution, SessionGoverned,
};
use json_replies::reply_text;
use meeting_core::Book;
use party_views::{OwnCasts, OwnView, PublicRecord};
use std::alloc::{AllocError, Global};

/// A party that may ask in a meeting at a moment.
#[derive(Clone, Copy)]
pub struct Asker {
    pub moment: Moment,
    pub meeting: MeetingId,
    pub party: Party,
}

impl Asker {
    /// Its own things, as a book gives them.
    pub(crate) fn own_in(&self, book: &Book) -> Result<OwnView, AllocError> {
        book.own_of(self.party, self.meeting, self.moment)
    }
}

fn is_same_row(row: &Option<RegisterRow>, other: &Option<RegisterRow>) -> bool {
    match (row, other) {
        (Some(row), Some(other)) => row.is(other),
        (None, None) => true,
        _ => false,
    }
}

fn is_same_given(given: &Given, other: &Given) -> bool {
    let (one, another) = (&given.appointment, &other.appointment);
    one.member == another.member
        && one.number == another.number
        && one.proxy == another.proxy
        && one.range == another.range
        && one.instructions.as_slice() == another.instructions.as_slice()
        && one.moment == another.moment
        && given.ended == other.ended
}

fn are_same_given(given: &[Given], others: &[Given]) -> bool {
    given.len() == others.len()
        && given
            .iter()
            .zip(others)
            .all(|(one, other)| is_same_given(one, other))
}

fn is_same_governed(governed: &PollGoverned, other: &PollGoverned) -> bool {
    governed.resolution == other.resolution
        && governed.governs.as_slice() == other.governs.as_slice()
}

fn are_same_governed(governed: &[PollGoverned], others: &[PollGoverned]) -> bool {
    governed.len() == others.len()
        && governed
            .iter()
            .zip(others)
            .all(|(one, other)| is_same_governed(one, other))
}

fn is_same_in_session(governed: &SessionGoverned, other: &SessionGoverned) -> bool {
    governed.acts.as_slice() == other.acts.as_slice()
        && governed.votes.as_slice() == other.votes.as_slice()
}

fn are_same_in_sessions(governed: &[SessionGoverned], others: &[SessionGoverned]) -> bool {
    governed.len() == others.len()
        && governed
            .iter()
            .zip(others)
            .all(|(one, other)| is_same_in_session(one, other))
}

fn is_same_received(received: &Received, other: &Received) -> bool {
    received.member == other.member
        && received.range == other.range
        && received.instructions.as_slice() == other.instructions.as_slice()
        && received.moment == other.moment
        && are_same_in_sessions(received.sessions.as_slice(), other.sessions.as_slice())
        && are_same_governed(received.polls.as_slice(), other.polls.as_slice())
}

fn are_same_received(received: &[Received], others: &[Received]) -> bool {
    received.len() == others.len()
        && received
            .iter()
            .zip(others)
            .all(|(one, other)| is_same_received(one, other))
}

fn are_same_casts(casts: &OwnCasts, others: &OwnCasts) -> bool {
    match (casts, others) {
        (OwnCasts::All(casts), OwnCasts::All(others)) => casts.as_slice() == others.as_slice(),
        _ => false,
    }
}

/// Whether both are the same own things, also in what no reply tells of them.
fn is_same_own(own: &OwnView, other: &OwnView) -> bool {
    own.party == other.party
        && is_same_row(&own.row, &other.row)
        && are_same_given(own.given.as_slice(), other.given.as_slice())
        && own.given_count == other.given_count
        && own.persons.as_slice() == other.persons.as_slice()
        && are_same_received(own.received.as_slice(), other.received.as_slice())
        && own.authorised.as_slice() == other.authorised.as_slice()
        && own.presences.as_slice() == other.presences.as_slice()
        && own.demands.as_slice() == other.demands.as_slice()
        && are_same_casts(&own.casts, &other.casts)
}

fn is_same_resolution(resolution: &Resolution, other: &Resolution) -> bool {
    resolution.kind == other.kind && resolution.text.is(&other.text)
}

fn are_same_resolutions(resolutions: &[Resolution], others: &[Resolution]) -> bool {
    resolutions.len() == others.len()
        && resolutions
            .iter()
            .zip(others)
            .all(|(one, other)| is_same_resolution(one, other))
}

fn is_same_meeting(meeting: &Meeting, other: &Meeting) -> bool {
    meeting.id == other.id
        && meeting.company == other.company
        && meeting.kind == other.kind
        && meeting.given == other.given
        && meeting.first == other.first
        && meeting.later.as_slice() == other.later.as_slice()
        && meeting.record_moment == other.record_moment
        && meeting.loaded == other.loaded
        && are_same_resolutions(meeting.resolutions.as_slice(), other.resolutions.as_slice())
}

/// Whether both have the same meeting and the same polls.
fn is_same_public(public: &PublicRecord, other: &PublicRecord) -> bool {
    let is_same = match (public.meeting(), other.meeting()) {
        (Some(meeting), Some(other)) => is_same_meeting(meeting, other),
        (None, None) => true,
        _ => false,
    };
    is_same && public.polls() == other.polls()
}

/// The text of the notice by a public record. Its cutoffs and lateness follow from the closed days.
/// It tells nothing of the asker's own things.
fn notice_by(
    alloc: Global,
    asker: &Asker,
    book: &Book,
    public: &PublicRecord,
) -> Result<Vec<u8>, AllocError> {
    let own = asker.own_in(book)?;
    let answer = answer(alloc, public, own, asker.moment, &PartyRequest::Notice)?;
    reply_text(alloc, &answer.reply)
}

/// Whether the notice by a public record is the one by that which a book gives.
fn is_noticed(
    alloc: Global,
    asker: &Asker,
    book: &Book,
    public: &PublicRecord,
) -> Result<bool, AllocError> {
    let wanted = notice_by(alloc, asker, book, &book.public_of(asker.meeting))?;
    let notice = notice_by(alloc, asker, book, public)?;
    Ok(notice.as_slice() == wanted.as_slice())
}

/// Whether a book gives these own things of a party, and this public record of the meeting.
pub fn is_given(
    alloc: Global,
    asker: &Asker,
    book: &Book,
    own: &OwnView,
    public: &PublicRecord,
) -> Result<bool, AllocError> {
    let held = asker.own_in(book)?;
    let is_same = is_same_own(own, &held) && is_same_public(public, &book.public_of(asker.meeting));
    Ok(is_same && is_noticed(alloc, asker, book, public)?)
}
