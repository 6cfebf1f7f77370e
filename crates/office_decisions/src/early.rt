//! Why a request of the office in a meeting is refused from the meeting and its polls alone.
ghost use Rattle.std.specs.Prelude.{◌≡◌, IfOk, Some};
ghost use Rattle.std.specs.Result.{result_err};
ghost use Rattle.desk_words.specs.Refusals.{first_refusal};
ghost use Rattle.office_decisions.specs.Early.{early_cases, early_refusal};

use crate::calls::load_refusal;
use crate::polls::{
    adjourning_refusal, close_refusal, opening_refusal, ordering_refusal, poll_to_declare,
    start_refusal,
};
use desk_words::{MeetingLists, Moment, OfficeRequest, Refusal};

/// The refusal that the meeting and its polls decide, if any. It takes no memory.
fn early_refusal(lists: &MeetingLists, now: Moment, asked: &OfficeRequest) -> Option<Refusal>
    ensures { result ≡ first_refusal (early_cases lists.now now asked.now) }
{
    match asked {
        OfficeRequest::LoadRegister(new) => load_refusal(&lists.meeting, now, new),
        OfficeRequest::Presence(_) => None,
        OfficeRequest::OpenMeeting => opening_refusal(&lists.meeting, now),
        OfficeRequest::Adjourn(appointed) => adjourning_refusal(&lists.meeting, now, *appointed),
        OfficeRequest::Order(new) => ordering_refusal(lists, now, new),
        OfficeRequest::Start(resolution) => start_refusal(lists, now, *resolution),
        OfficeRequest::Close(resolution) => close_refusal(lists, *resolution),
        OfficeRequest::Declare(resolution) => poll_to_declare(lists, *resolution).err(),
    }
}

/// The meeting that was found, unless the meeting and its polls decide that the request is refused.
/// Only the polls of its lists are read. Where no meeting was found, the refusal is `NoMeeting`. It
/// takes no memory.
pub fn unless_refused(
    found: Option<MeetingLists>,
    now: Moment,
    asked: &OfficeRequest,
) -> Result<MeetingLists, Refusal>
    ensures found { IfOk result (λ lists. found ≡ Some lists) }
    ensures refusal { result_err result ≡ early_refusal found now asked.now }
{
    let Some(lists) = found else {
        return Err(Refusal::NoMeeting);
    };
    match early_refusal(&lists, now, asked) {
        Some(refusal) => Err(refusal),
        None => Ok(lists),
    }
}
