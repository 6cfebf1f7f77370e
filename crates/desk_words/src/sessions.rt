//! The sessions of a meeting.
ghost use Rattle.std.specs.Prelude.{◌≡◌, OnOk, OnErr};
ghost use Rattle.std.specs.List.{list_all};
ghost use Rattle.desk_words.specs.Sessions.{adjourned_to, are_sessions, is_opened};
ghost use Rattle.desk_words.specs.Sessions.{is_opened_session, is_session, last_number};
ghost use Rattle.desk_words.specs.Sessions.{last_session, open_last, session_at, session_of};

use crate::limits::MOST_SESSIONS;
use crate::records::{Meeting, Session};
use calendar::Moment;
use std::alloc::AllocError;

impl Session {
    /// Whether it is opened.
    pub fn is_opened(&self) -> bool
        ensures { result ≡ is_opened self.now }
    {
        self.opened.is_some()
    }
}

/// Whether each session is opened.
fn are_opened(sessions: &[Session]) -> bool
    ensures { result ≡ list_all is_opened sessions.now }
{
    sessions.iter().all(|session| session.is_opened())
}

impl Meeting {
    /// The number of its last session, from 1.
    pub fn last_number(&self) -> u64
        ensures { result ≡ last_number self.now }
    {
        self.later.as_slice().len() as u64 + 1
    }

    /// Its last session.
    pub fn last_session(&self) -> Session
        ensures { result ≡ last_session self.now }
    {
        self.later.as_slice().last().copied().unwrap_or(self.first)
    }

    /// The session of a number, from 1, or none.
    pub fn session(&self, number: u64) -> Option<Session>
        ensures { result ≡ session_at self.now number }
    {
        match number {
            0 => None,
            1 => Some(self.first),
            further => self.later.as_slice().get(further as usize - 2).copied(),
        }
    }

    /// The session of a number, from 1, or the first where there is none of it.
    pub fn session_or_first(&self, number: u64) -> Session
        ensures { result ≡ session_of self.now number }
    {
        match self.session(number) {
            Some(session) => session,
            None => self.first,
        }
    }

    /// Whether a session has that number.
    pub fn has_session(&self, number: u64) -> bool
        ensures { result ≡ is_session self.now number }
    {
        1 <= number && number <= self.last_number()
    }

    /// Whether a session that is opened has that number.
    pub fn has_opened(&self, number: u64) -> bool
        ensures { result ≡ is_opened_session self.now number }
    {
        match self.session(number) {
            None => false,
            Some(session) => session.is_opened(),
        }
    }

    /// Whether the sessions are at most `MOST_SESSIONS`, of which each but the last is opened.
    pub fn has_sessions(&self) -> bool
        ensures { result ≡ are_sessions self.now }
    {
        let later = self.later.as_slice();
        if self.last_number() > MOST_SESSIONS as u64 {
            return false;
        }
        match later.len() {
            0 => true,
            count => self.first.is_opened() && are_opened(&later[..count - 1]),
        }
    }

    /// Opens its last session at a moment.
    pub fn open_last(&mut self, moment: Moment)
        ensures { self.new ≡ open_last moment self.old }
    {
        match self.later.as_slice().last().copied() {
            None => self.first.opened = Some(moment),
            Some(last) => {
                let opened = Session {
                    opened: Some(moment),
                    ..last
                };
                let place = self.later.len() - 1;
                self.later.set(place, opened);
            }
        }
    }

    /// Adds a session behind the others, appointed for a moment and not opened. The error is want
    /// of memory, and nothing changes then.
    pub fn adjourn_to(&mut self, appointed: Moment) -> Result<(), AllocError>
        ensures ok { OnOk result (self.new ≡ adjourned_to appointed self.old) }
        ensures err { OnErr result (self.new ≡ self.old) }
    {
        self.later.push(Session {
            appointed,
            opened: None,
        })
    }
}
