//! The calling of a meeting, and the loading of its register.
ghost use Rattle.std.specs.Prelude.{◌≡◌, true, IfOk, IsOk, IsTrue};
ghost use Rattle.desk_words.specs.Refusals.{first_refusal};
ghost use Rattle.desk_words.specs.SameRows.{same_rows};
ghost use Rattle.desk_words.specs.Rulings.{refuses, ruled_answer};
ghost use Rattle.desk_words.specs.SortedLists.{are_resolutions};
ghost use Rattle.office_decisions.specs.CallRulings.{cases_of_call, load_cases, load_ruling, new_meeting_of, ruling_of_call};
ghost use Rattle.office_decisions.specs.RequestLimits.{if_any, is_within_limits, keeps_limits};

use desk_words::limits::MOST_MEETINGS;
use desk_words::{
    Answer, Change, Listing, Meeting, MeetingChange, MeetingLists, Moment, NewMeeting, NewRegister,
    Refusal, Reply, Session, refuse, reply_unchanged, same_rows,
};
use office_days::enough_notice;
use std::alloc::{AllocError, Global};

fn call_refusal(is_named: bool, held: usize, new: &NewMeeting) -> Option<Refusal>
    ensures { result ≡ first_refusal (cases_of_call is_named held new.now) }
{
    if is_named {
        return Some(Refusal::Exists);
    }
    if !enough_notice(new.company, new.kind, new.given, new.appointed.day()) {
        return Some(Refusal::ShortNotice);
    }
    if held >= MOST_MEETINGS {
        return Some(Refusal::TooMany);
    }
    None
}

fn new_meeting(alloc: Global, new: &NewMeeting) -> Result<Meeting, AllocError>
    ensures value { IfOk result (λ m. m ≡ new_meeting_of new.now) }
    ensures limits { IsTrue (are_resolutions new.now.resolutions) }
{
    Ok(Meeting {
        id: new.meeting,
        company: new.company,
        kind: new.kind,
        given: new.given,
        first: Session {
            appointed: new.appointed,
            opened: None,
        },
        later: Listing::new(alloc),
        record_moment: new.record_moment,
        resolutions: new.resolutions.copy()?,
        loaded: false,
    })
}

/// The answer to a call of a meeting (sections 302 and 307), from whether a meeting has that name
/// and from how many meetings are held: `Exists` where one has it, `ShortNotice` where the clear
/// days between the notice and the appointed day are too few, `TooMany` where there are
/// `MOST_MEETINGS`, and else `Called`, which adds the meeting. The error is want of memory; a
/// refusal takes none.
pub fn call_meeting(
    alloc: Global,
    is_named: bool,
    held: usize,
    new: &NewMeeting,
) -> Result<Answer<Change>, AllocError>
    ensures answer { IfOk result (λ a. a ≡ ruled_answer (ruling_of_call is_named held new.now)) }
    ensures limits { IfOk result (λ a. if_any keeps_limits a.change ≡ true) }
    ensures sure { refuses (ruling_of_call is_named held new.now) ≡ true → IsOk result }
{
    if let Some(refusal) = call_refusal(is_named, held, new) {
        return Ok(refuse(refusal));
    }
    Ok(Answer {
        reply: Reply::Called,
        change: Some(Change::AddMeeting(new_meeting(alloc, new)?)),
    })
}

/// Why a register is not loaded for a meeting.
pub(crate) fn load_refusal(meeting: &Meeting, now: Moment, new: &NewRegister) -> Option<Refusal>
    ensures { result ≡ first_refusal (load_cases meeting.now now new.now) }
{
    if meeting.record_moment != new.record_moment {
        return Some(Refusal::OtherRecord);
    }
    if meeting.first.is_opened() {
        return Some(Refusal::Opened);
    }
    if now < new.record_moment {
        return Some(Refusal::Early);
    }
    None
}

/// The answer to a register for a meeting (section 113): the first that holds of `OtherRecord`
/// where it is of another moment than the meeting's record moment, `Opened` where the meeting's
/// first session is, and `Early` before that moment; else `Same` where the rows are those that are
/// held, and else `Loaded`, which sets the register. The error is want of memory; a refusal and
/// `Same` take none.
pub(crate) fn load_register(
    lists: &MeetingLists,
    now: Moment,
    new: &NewRegister,
) -> Result<Answer<MeetingChange>, AllocError>
    ensures answer { IfOk result (λ a. a ≡ ruled_answer (load_ruling lists.now now new.now)) }
    ensures limits { IfOk result (λ a. if_any is_within_limits a.change ≡ true) }
    ensures sure { refuses (load_ruling lists.now now new.now) ≡ true → IsOk result }
    ensures same { same_rows lists.now.register new.now.rows ≡ true → IsOk result }
{
    if let Some(refusal) = load_refusal(&lists.meeting, now, new) {
        return Ok(refuse(refusal));
    }
    if same_rows(lists.register.as_slice(), new.rows.rows()) {
        return Ok(reply_unchanged(Reply::Same));
    }
    Ok(Answer {
        reply: Reply::Loaded,
        change: Some(MeetingChange::SetRegister(new.rows.copy()?)),
    })
}
