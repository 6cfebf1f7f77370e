//! What is decided of the office's calls, from what their answers read.
ghost use Rattle.std.specs.Prelude.{◌≡◌, true, false, Err, IfErr, IfOk, IfSome, IsOk, IsTrue, None, Some, is_err, is_some, option_map};
ghost use Rattle.desk_words.specs.Changes.{applied_if_any};
ghost use Rattle.desk_words.specs.KeyRows.{same_keys};
ghost use Rattle.desk_words.specs.Office.{is_meeting, is_office};
ghost use Rattle.desk_words.specs.ViewTypes.{MeetingName, Moment};
ghost use Rattle.desk_words.specs.declared.office.OfficeLists.{OfficeLists};
ghost use Rattle.desk_words.specs.declared.request.DeskRequest.TheVariants as desk;
ghost use Rattle.office_decisions.specs.OfficeRulings.{is_register_held, office_needs_no_memory};
ghost use Rattle.office_decisions.specs.DeskRulings.{same_days};
ghost use Rattle.office_decisions.specs.Early.{early_refusal};
ghost use Rattle.office_decisions.specs.ListsRead.{first_read, reads_register};
ghost use Rattle.office_validation.specs.Validation.{in_order};
ghost use Rattle.party_views.specs.Views.{meeting_at};
ghost use Rattle.meeting_core.specs.Checked.{in_order_for};
ghost use Rattle.meeting_core.specs.Decisions.{AreListsRead, AreMeetingsRead, IsNoMeeting};
ghost use Rattle.meeting_core.specs.Decisions.{desk_call, office_call};
ghost use Rattle.meeting_core.specs.Step.{decided};
ghost use Rattle.meeting_core.specs.declared.book.of_lists.BookFault.TheVariants.{NoOffice};

use crate::answers::in_meeting;
use crate::book::BookFault;
use desk_words::{
    Answer, Change, DayList, KeyRows, MeetingId, MeetingLists, Moment, NewMeeting, OfficeRequest,
    refuse,
};
use office_days::Closed;
use office_decisions::{call_meeting, load_days, load_keys, office_answer, unless_refused};
use office_validation::meeting_checked;
use std::alloc::{AllocError, Global};

/// Whether the answer to a request reads the register.
fn reads_register(asked: &OfficeRequest) -> bool
    ensures { result ≡ reads_register asked.now }
{
    match asked {
        OfficeRequest::LoadRegister(_) | OfficeRequest::OpenMeeting => true,
        OfficeRequest::Order(new) => !new.chair,
        OfficeRequest::Declare(_) => true,
        OfficeRequest::Presence(_)
        | OfficeRequest::Adjourn(_)
        | OfficeRequest::Start(_)
        | OfficeRequest::Close(_) => false,
    }
}

/// The lists of a meeting; where they are no meeting's, `NoOffice`.
fn of_a_meeting(found: Option<MeetingLists>) -> Result<MeetingLists, BookFault>
    ensures value { IfOk result (λ m. found ≡ Some m) }
    ensures fault { IfErr result (λ e. (found ≡ None) × (e ≡ NoOffice)) }
{
    found.ok_or(BookFault::NoOffice)
}

/// The lists with the register in order, if they are those of a meeting; else `NoOffice`.
fn checked(alloc: Global, lists: MeetingLists) -> Result<MeetingLists, BookFault>
    ensures value { IfOk result (λ m. (is_meeting m ≡ true) × (m ≡ in_order lists)) }
    ensures fault { IfErr result
        (λ e. (is_meeting (in_order lists) ≡ false) × (e ≡ NoOffice)) }
{
    of_a_meeting(meeting_checked(alloc, lists))
}

/// What was read of a meeting, if it is that of a meeting where the answer reads the register.
fn checked_for(
    alloc: Global,
    found: Option<MeetingLists>,
    asked: &OfficeRequest,
) -> Result<Option<MeetingLists>, BookFault>
    ensures right { IfOk result (λ found. IfSome found
        (λ m. reads_register asked.now ≡ true → is_meeting m ≡ true)) }
    ensures same { IfOk result (λ lists. lists ≡ option_map (in_order_for asked.now) found) }
    ensures fault { IfErr result (λ e. IsNoMeeting asked.now found × (e ≡ NoOffice)) }
{
    let Some(lists) = found else {
        return Ok(None);
    };
    if !reads_register(asked) {
        return Ok(Some(lists));
    }
    Ok(Some(checked(alloc, lists)?))
}

/// The meeting that was found, unless the meeting and its polls decide that the request is refused.
/// Only the polls of its lists are read. The error is the answer that refuses: it is decided so in
/// every office of which this is read first, and so for `NoMeeting` where none was found. It takes
/// no memory.
pub fn go_on_in_meeting(
    found: Option<MeetingLists>,
    now: Moment,
    asked: &OfficeRequest,
) -> Result<MeetingLists, Answer<Change>>
    ensures found { IfOk result (λ lists. found ≡ Some lists) }
    ensures refused { is_err result ≡ is_some (early_refusal found now asked.now) }
    ensures decided { IfErr result (λ a. (office : OfficeLists) (meeting : MeetingName)
        → found ≡ option_map (first_read asked.now) (meeting_at office meeting)
        → a ≡ decided office (office_call meeting now asked.now)) }
    ensures unchanged { IfErr result (λ a. a.change ≡ None) }
{
    match unless_refused(found, now, asked) {
        Ok(lists) => Ok(lists),
        Err(refusal) => Err(refuse(refusal)),
    }
}

/// The answer to a request of the office in a meeting, from what the answer reads: the closed days
/// and some lists of the meeting. Every office of which these are read gives the same answer, and
/// its change leaves lists of an office. `NoOffice`: a register was read, and the lists are not a
/// meeting's. `Memory`: an allocation failed, which it does only where `office_answer` may answer
/// so.
pub fn decide_in_meeting(
    alloc: Global,
    meeting: MeetingId,
    closed: &Closed,
    found: Option<MeetingLists>,
    now: Moment,
    asked: &OfficeRequest,
) -> Result<Answer<Change>, BookFault>
    ensures decided { IfOk result (λ a. (office : OfficeLists) → IsTrue (is_office office)
        → AreListsRead office meeting asked.now closed.now found
        → a ≡ decided office (office_call meeting now asked.now)) }
    ensures valid { IfOk result (λ a. (office : OfficeLists) → IsTrue (is_office office)
        → AreListsRead office meeting asked.now closed.now found
        → IsTrue (is_office (applied_if_any office a.change))) }
    ensures no_office { result ≡ Err NoOffice → IsNoMeeting asked.now found }
    ensures is_none { IsNoMeeting asked.now found → result ≡ Err NoOffice }
    ensures sure { office_needs_no_memory asked.now ≡ true → IfErr result (λ e. e ≡ NoOffice) }
    ensures same { is_register_held (option_map (in_order_for asked.now) found) asked.now ≡ true
        → IfErr result (λ e. e ≡ NoOffice) }
{
    let lists = checked_for(alloc, found, asked)?;
    let answer = office_answer(alloc, closed, lists.as_ref(), now, asked)?;
    Ok(in_meeting(meeting, answer))
}

/// What is decided of the call of a meeting, from whether a meeting has that name and how many
/// meetings there are: it is so in every office of which this is true, and what it changes leaves
/// the lists of an office. The error is want of memory.
pub fn decide_call(
    alloc: Global,
    is_named: bool,
    held: usize,
    new: &NewMeeting,
) -> Result<Answer<Change>, AllocError>
    ensures decided { IfOk result (λ a. (office : OfficeLists) (now : Moment)
        → AreMeetingsRead office new.now.meeting is_named held
        → a ≡ decided office (desk_call now (desk.CallMeeting new.now))) }
    ensures valid { IfOk result (λ a. (office : OfficeLists) → IsTrue (is_office office)
        → AreMeetingsRead office new.now.meeting is_named held
        → IsTrue (is_office (applied_if_any office a.change))) }
{
    call_meeting(alloc, is_named, held, new)
}

/// What is decided of a list of closed days, from those that are held. The error is want of memory;
/// the same days take none.
pub fn decide_closed(held: &Closed, days: &DayList) -> Result<Answer<Change>, AllocError>
    ensures decided { IfOk result (λ a. (office : OfficeLists) (now : Moment)
        → held.now ≡ office.closed
        → a ≡ decided office (desk_call now (desk.ClosedDays days.now))) }
    ensures valid { IfOk result (λ a. (office : OfficeLists) → IsTrue (is_office office)
        → held.now ≡ office.closed → IsTrue (is_office (applied_if_any office a.change))) }
    ensures same { same_days held.now days.now ≡ true → IsOk result }
{
    load_days(held, days)
}

/// What is decided of a list of keys, from those that are held. The error is want of memory; the
/// same keys take none.
pub fn decide_keys(held: &KeyRows, rows: &KeyRows) -> Result<Answer<Change>, AllocError>
    ensures decided { IfOk result (λ a. (office : OfficeLists) (now : Moment)
        → held.now ≡ office.keys
        → a ≡ decided office (desk_call now (desk.Keys rows.now))) }
    ensures valid { IfOk result (λ a. (office : OfficeLists) → IsTrue (is_office office)
        → held.now ≡ office.keys → IsTrue (is_office (applied_if_any office a.change))) }
    ensures same { same_keys held.now rows.now ≡ true → IsOk result }
{
    load_keys(held, rows)
}
