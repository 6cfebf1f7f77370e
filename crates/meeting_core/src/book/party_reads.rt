//! What a party is told of a meeting, where it is found or where there is none.
ghost use Rattle.std.specs.Prelude.{◌≡◌, true, IfOk, IfSome};
ghost use Rattle.std.specs.Option.{option_copied};
ghost use Rattle.party_views.specs.RowsRead.{own_rows_read};
ghost use Rattle.party_views.specs.PartyRows.{no_own_rows, own_rows_in};
ghost use Rattle.party_views.specs.Views.{public_in};
ghost use Rattle.desk_words.specs.Ordered.{ascends_by};
ghost use Rattle.desk_words.specs.Registers.{member_before};

use desk_words::{MeetingLists, Party, PartyRequest};
use office_days::Closed;
use party_rows::{no_own_rows, read_own_rows, read_own_rows_for};
use party_views::{OwnRows, PublicRecord, no_casts_for};
use std::alloc::{AllocError, Global};

/// The public record of a meeting, which is lent; where there is none, the closed days alone.
pub(crate) fn public_in<'a>(closed: &'a Closed, found: Option<&'a MeetingLists>) -> PublicRecord<'a>
    ensures { result ≡ public_in (option_copied found.entry) closed.now }
{
    match found {
        None => PublicRecord::new(closed, None, &[]),
        Some(lists) => {
            let polls = lists.polls.as_slice();
            PublicRecord::new(closed, Some(&lists.meeting), polls)
        }
    }
}

/// The rows of a party in a meeting; where there is none, none.
pub(crate) fn own_rows_in(
    alloc: Global,
    found: Option<&MeetingLists>,
    party: Party,
) -> Result<OwnRows, AllocError>
    requires { IfSome (option_copied found) (λ m. ascends_by member_before m.register ≡ true) }
    ensures { IfOk result (λ rows. rows ≡ own_rows_in (option_copied found.entry) party) }
{
    match found {
        None => Ok(no_own_rows(alloc, party)),
        Some(lists) => read_own_rows(alloc, lists, party),
    }
}

/// What the answer to a request reads of the rows of a party where there is no meeting.
fn no_rows_read(alloc: Global, party: Party, asked: &PartyRequest) -> OwnRows
    ensures { result ≡ own_rows_read asked.now (no_own_rows party) }
{
    OwnRows {
        casts: no_casts_for(alloc, asked),
        ..no_own_rows(alloc, party)
    }
}

/// Those of the rows of a party in a meeting that the answer to a request reads.
pub(crate) fn own_rows_read(
    alloc: Global,
    found: Option<&MeetingLists>,
    party: Party,
    asked: &PartyRequest,
) -> Result<OwnRows, AllocError>
    requires { IfSome (option_copied found) (λ m. ascends_by member_before m.register ≡ true) }
    ensures { IfOk result (λ rows. rows
        ≡ own_rows_read asked.now (own_rows_in (option_copied found.entry) party)) }
{
    match found {
        None => Ok(no_rows_read(alloc, party, asked)),
        Some(lists) => read_own_rows_for(alloc, lists, party, asked),
    }
}
