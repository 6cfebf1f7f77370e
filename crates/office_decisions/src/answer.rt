//! The answer to the office.
ghost use Rattle.std.specs.Prelude.{◌≡◌, true, IfOk, IfSome, IsOk};
ghost use Rattle.std.specs.Option.{option_copied};
ghost use Rattle.desk_words.specs.Office.{is_meeting};
ghost use Rattle.desk_words.specs.Rulings.{refuses, ruled_answer};
ghost use Rattle.office_decisions.specs.OfficeRulings.{desk_ruling, is_list_held, is_register_held};
ghost use Rattle.office_decisions.specs.OfficeRulings.{office_ruling, refuses_at_once, office_needs_no_memory};
ghost use Rattle.office_decisions.specs.RequestLimits.{if_any, is_within_limits, keeps_limits};
ghost use Rattle.office_decisions.specs.ListsRead.{reads_register};

use crate::attendance::note_presence;
use crate::calls::{call_meeting, load_register};
use crate::desk_loads::{load_days, load_keys};
use crate::polls::{adjourn, close_poll, declare_poll, open_meeting, order_poll, start_poll};
use desk_words::{
    Answer, Change, DeskRequest, KeyRows, MeetingChange, MeetingLists, Moment, OfficeRequest,
    Refusal, find_meeting, refuse,
};
use office_days::Closed;
use std::alloc::{AllocError, Global};

/// The answer to what the office asks of the whole desk, from its keys, its closed days and its
/// meetings. The error is want of memory; a refusal takes none, nor does a list that is held
/// already. A new meeting is large, and no other call is to pay for its place.
#[inline(never)]
pub fn desk_answer(
    alloc: Global,
    keys: &KeyRows,
    closed: &Closed,
    meetings: &[MeetingLists],
    asked: &DeskRequest,
) -> Result<Answer<Change>, AllocError>
    ensures answer { IfOk result (λ a. a ≡ ruled_answer
        (desk_ruling keys.now closed.now meetings.now asked.now)) }
    ensures limits { IfOk result (λ a. if_any keeps_limits a.change ≡ true) }
    ensures refusals { refuses (desk_ruling keys.now closed.now meetings.now asked.now) ≡ true
        → IsOk result }
    ensures same { is_list_held keys.now closed.now asked.now ≡ true → IsOk result }
{
    match asked {
        DeskRequest::CallMeeting(new) => {
            let is_named = find_meeting(meetings, new.meeting).is_some();
            call_meeting(alloc, is_named, meetings.len(), new)
        }
        DeskRequest::ClosedDays(days) => load_days(closed, days),
        DeskRequest::Keys(rows) => load_keys(keys, rows),
    }
}

/// The answer to what the office asks in a meeting, from the closed days, the moment and the
/// meeting's lists; where the request reads no register, they need not be all of a meeting's. It is
/// refused as `NoMeeting` where there is none, and else as its request is.
/// The error is want of memory; what `takes_no_memory` names, a presence, an adjournment, a start
/// and a close among it, needs none, nor does a register that is held already, nor a refusal other
/// than `NoQuorum` and `DemandTooSmall`.
pub fn office_answer(
    alloc: Global,
    closed: &Closed,
    found: Option<&MeetingLists>,
    now: Moment,
    asked: &OfficeRequest,
) -> Result<Answer<MeetingChange>, AllocError>
    requires { IfSome (option_copied found)
        (λ m. reads_register asked.now ≡ true → is_meeting m ≡ true) }
    ensures answer { IfOk result (λ a. a
        ≡ ruled_answer (office_ruling closed.now (option_copied found.entry) now asked.now)) }
    ensures limits { IfOk result (λ a. if_any is_within_limits a.change ≡ true) }
    ensures sure { office_needs_no_memory asked.now ≡ true → IsOk result }
    ensures refusals { refuses_at_once (office_ruling closed.now
        (option_copied found.entry) now asked.now)
        ≡ true → IsOk result }
    ensures same { is_register_held (option_copied found.entry) asked.now ≡ true → IsOk result }
{
    let Some(lists) = found else {
        return Ok(refuse(Refusal::NoMeeting));
    };
    match asked {
        OfficeRequest::LoadRegister(new) => load_register(lists, now, new),
        OfficeRequest::Presence(party) => Ok(note_presence(lists, now, *party)),
        OfficeRequest::OpenMeeting => open_meeting(alloc, closed, lists, now),
        OfficeRequest::Adjourn(appointed) => Ok(adjourn(closed, lists, now, *appointed)),
        OfficeRequest::Order(new) => order_poll(alloc, closed, lists, now, new),
        OfficeRequest::Start(resolution) => Ok(start_poll(lists, now, *resolution)),
        OfficeRequest::Close(resolution) => Ok(close_poll(lists, now, *resolution)),
        OfficeRequest::Declare(resolution) => {
            declare_poll(alloc, closed, lists, now, *resolution)
        }
    }
}
