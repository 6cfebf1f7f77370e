//! A party's own things, from its rows in a meeting and the public record of the meeting.
ghost use Rattle.std.specs.Prelude.{◌≡◌, IfOk};
ghost use Rattle.desk_words.specs.declared.office.MeetingLists.{MeetingLists};
ghost use Rattle.party_views.specs.OwnCasts.{no_casts};
ghost use Rattle.party_views.specs.OwnViews.{nothing_of, own_by, own_from};
ghost use Rattle.party_views.specs.RowsRead.{own_read, polls_if_on, reads_of, resolution_read, own_rows_read};
ghost use Rattle.party_views.specs.PartyRows.{own_rows};
ghost use Rattle.party_views.specs.Views.{own_in, public_in};
ghost use Rattle.party_views.specs.declared.own_rows.OwnRows.{OwnRows};

use crate::given::{authorised_from, given_from};
use crate::governed::{PollsAsked, received_from};
use crate::own_rows::{OwnCasts, OwnRows};
use crate::reads::{Reads, reads_of};
use crate::views::{OwnView, PublicRecord};
use desk_words::{Listing, Meeting, Moment, Party, PartyRequest};
use office_days::Closed;
use std::alloc::{AllocError, Global};

/// The own things of a party where there is no meeting.
fn nothing_of(alloc: Global, party: Party) -> OwnView
    ensures { result ≡ nothing_of party }
{
    OwnView {
        party,
        row: None,
        given: Listing::new(alloc),
        given_count: 0,
        persons: Listing::new(alloc),
        received: Listing::new(alloc),
        authorised: Listing::new(alloc),
        presences: Listing::new(alloc),
        demands: Listing::new(alloc),
        casts: OwnCasts::All(Listing::new(alloc)),
    }
}

/// The own things of a party in a meeting, by the closed days and by these polls.
#[inline(always)]
fn own_by(
    alloc: Global,
    rows: OwnRows,
    closed: &Closed,
    meeting: &Meeting,
    polls: &PollsAsked,
    now: Moment,
) -> Result<OwnView, AllocError>
    ensures { IfOk result (λ own. own
        ≡ own_by rows closed.now meeting.now (polls_if_on polls.now.on polls.now.all.now) now) }
{
    let OwnRows {
        party,
        row,
        given,
        given_count,
        ended,
        persons,
        received,
        members,
        authorised,
        presences,
        demands,
        casts,
    } = rows;
    let members = members.as_slice();
    let received = received_from(alloc, received, members, closed, meeting, polls, now)?;
    let authorised = authorised_from(alloc, authorised.as_slice())?;
    Ok(OwnView {
        party,
        row,
        given: given_from(alloc, given, ended.as_slice())?,
        given_count,
        persons,
        received,
        authorised: Listing::from_vec(authorised),
        presences,
        demands,
        casts,
    })
}

/// The own things of a party at a moment, from its rows in a meeting and the public record of the
/// meeting: by the closed days as they stand, and, where the record has no meeting, its own name
/// alone. Of every meeting whose rows and public record it is given these are the party's own
/// things there. Rows are taken as they are; an appointment of a holding such as no office keeps
/// governs nothing. They are moved into the own things. The error is want of memory.
pub fn own_from(
    alloc: Global,
    rows: OwnRows,
    public: &PublicRecord,
    now: Moment,
) -> Result<OwnView, AllocError>
    ensures value { IfOk result (λ own. own ≡ own_from rows public.now now) }
    ensures of_every_meeting { (m : MeetingLists) → rows ≡ own_rows m rows.party
        → public.now ≡ public_in (Some m) public.now.closed
        → IfOk result (λ own. own ≡ own_in m public.now.closed rows.party now) }
{
    match public.meeting {
        Some(meeting) => {
            let polls = PollsAsked {
                all: public.polls,
                on: None,
            };
            own_by(alloc, rows, public.closed, meeting, &polls, now)
        }
        None => Ok(nothing_of(alloc, rows.party)),
    }
}

/// The resolution for whose poll alone the answer to a request reads what appointments govern, if
/// there is one.
fn resolution_read(asked: &PartyRequest) -> Option<u64>
    ensures { result ≡ resolution_read (reads_of asked.now) }
{
    match reads_of(asked) {
        Reads::Vote(new) => Some(new.resolution),
        Reads::AsInstructed(resolution) => Some(resolution),
        _ => None,
    }
}

/// What the answer to a request reads of the votes of a party that cast none.
pub fn no_casts_for(alloc: Global, asked: &PartyRequest) -> OwnCasts
    ensures { result ≡ no_casts (resolution_read (reads_of asked.now)) }
{
    match resolution_read(asked) {
        Some(resolution) => OwnCasts::Counted {
            resolution,
            count: 0,
        },
        None => OwnCasts::All(Listing::new(alloc)),
    }
}

/// What the answer to a request reads of the own things of a party where there is no meeting.
fn nothing_for(alloc: Global, party: Party, asked: &PartyRequest) -> OwnView
    ensures { result ≡ own_read asked.now (nothing_of party) }
{
    OwnView {
        casts: no_casts_for(alloc, asked),
        ..nothing_of(alloc, party)
    }
}

/// Those of the own things of a party at a moment that the answer to a request reads, and nothing
/// in place of the others, from those of its rows that they are made of, which are moved into them.
/// The error is want of memory.
#[inline(always)]
pub fn own_for(
    alloc: Global,
    rows: OwnRows,
    public: &PublicRecord,
    now: Moment,
    asked: &PartyRequest,
) -> Result<OwnView, AllocError>
    ensures { IfOk result (λ own. (all : OwnRows) → rows ≡ own_rows_read asked.now all
        → own ≡ own_read asked.now (own_from all public.now now)) }
{
    match public.meeting {
        Some(meeting) => {
            let polls = PollsAsked {
                all: public.polls,
                on: resolution_read(asked),
            };
            own_by(alloc, rows, public.closed, meeting, &polls, now)
        }
        None => Ok(nothing_for(alloc, rows.party, asked)),
    }
}
