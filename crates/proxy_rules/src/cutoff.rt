//! Cutoffs: until when appointments and endings count.
ghost use Rattle.std.specs.Prelude.{◌≡◌};
ghost use Rattle.proxy_rules.specs.Cutoffs.{back_or_first, is_late_poll, session_cutoffs, late_cutoffs, cutoffs_of};
ghost use Rattle.desk_words.specs.Sessions.{session_of};
ghost use Rattle.proxy_rules.specs.Uses.{use_of};

use crate::meeting_records::Cutoffs;
use desk_words::limits::{HOURS_BEFORE_LATE_POLL, HOURS_BEFORE_MEETING};
use desk_words::{Meeting, Moment, Poll, Session};
use office_days::Closed;

/// For what an appointment and its ending are asked to count (sections 327 and 330).
#[derive(Clone, Copy)]
pub enum Use<'a> {
    /// For the acts of those who are present in the session of this number: its quorum, and demands
    /// of polls (sections 318, 321 and 329).
    Acts(u64),
    /// For votes on those polls of the session of this number that are not late.
    Votes(u64),
    /// For votes on this poll, late or not.
    Vote(&'a Poll),
}

fn back_or_first(closed: &Closed, hours: u32, moment: Moment) -> Moment
    ensures { result ≡ back_or_first closed.now hours moment }
{
    match closed.back(hours, moment) {
        Ok(earlier) => earlier,
        Err(_) => Moment::first(),
    }
}

/// Whether a poll is late, by the closed days as they stand: whether it is taken more than
/// `HOURS_UNTIL_LATE` hours of working time after its order (section 327).
pub fn is_late_poll(closed: &Closed, poll: &Poll) -> bool
    ensures { result ≡ is_late_poll closed.now poll.now }
{
    closed.is_late(poll.ordered, poll.take)
}

/// The cutoffs of a session, where endings count until another session opened.
fn session_cutoffs(session: &Session, ended_by: &Session, closed: &Closed, now: Moment) -> Cutoffs
    ensures { result ≡ session_cutoffs session.now ended_by.now closed.now now }
{
    Cutoffs {
        appointments: back_or_first(closed, HOURS_BEFORE_MEETING, session.appointed),
        endings: ended_by.opened.unwrap_or(now),
    }
}

/// The cutoffs for votes in the session of a number.
fn votes_cutoffs(meeting: &Meeting, number: u64, closed: &Closed, now: Moment) -> Cutoffs
    ensures { result ≡ session_cutoffs (session_of meeting.now number)
        (session_of meeting.now number) closed.now now }
{
    let session = meeting.session_or_first(number);
    session_cutoffs(&session, &session, closed, now)
}

fn late_cutoffs(poll: &Poll, closed: &Closed) -> Cutoffs
    ensures { result ≡ late_cutoffs poll.now closed.now }
{
    Cutoffs {
        appointments: back_or_first(closed, HOURS_BEFORE_LATE_POLL, poll.take),
        endings: poll.take,
    }
}

/// The cutoffs for a use of appointments in a meeting, by the closed days as they stand: those of a
/// session for its quorum, for its demands, and for votes on its polls that are not late, and a late
/// poll's own for votes on it (sections 327 and 330). For the quorum and demands of each session an
/// ending counts only before the meeting first opened. It takes no memory.
pub fn cutoffs(meeting: &Meeting, purpose: Use<'_>, closed: &Closed, now: Moment) -> Cutoffs
    ensures { result ≡ cutoffs_of meeting.now (use_of purpose.entry) closed.now now }
{
    match purpose {
        Use::Vote(poll) if is_late_poll(closed, poll) => late_cutoffs(poll, closed),
        Use::Acts(number) => {
            let session = meeting.session_or_first(number);
            session_cutoffs(&session, &meeting.first, closed, now)
        }
        Use::Votes(number) => votes_cutoffs(meeting, number, closed, now),
        Use::Vote(poll) => votes_cutoffs(meeting, poll.session, closed, now),
    }
}
