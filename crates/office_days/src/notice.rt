//! The notice of a general meeting.
ghost use Rattle.std.specs.Prelude.{◌≡◌};
ghost use Rattle.office_days.specs.Notice as notice;

use desk_words::{Company, Day, MeetingKind};

/// The clear days of a notice: those between the day on which it is given and the day of the
/// meeting, both excluded (section 360). Negative where the meeting is no later than the notice.
pub fn clear_days(given: Day, meeting_day: Day) -> i64
    ensures { result ≡ notice.clear_days given meeting_day }
{
    meeting_day.number() as i64 - given.number() as i64 - 1
}

/// Whether a notice is long enough: at least 21 clear days for the annual general meeting of a
/// public company, and else at least 14 (sections 307 and 360).
pub fn enough_notice(company: Company, kind: MeetingKind, given: Day, meeting_day: Day) -> bool
    ensures { result ≡ notice.is_enough_notice company kind given meeting_day }
{
    let needed = match (company, kind) {
        (Company::Public, MeetingKind::Annual) => 21,
        _ => 14,
    };
    needed <= clear_days(given, meeting_day)
}
