//! What stands in an office's lists.
ghost use Rattle.std.specs.Prelude.{◌≡◌, length};
ghost use Rattle.std.specs.Option.{option_copied};
ghost use Rattle.desk_words.specs.Finding.{meeting_named, poll_on};
ghost use Rattle.desk_words.specs.Office.{is_resolution};

use crate::office::MeetingLists;
use crate::records::{Meeting, Poll};
use vocabulary::MeetingId;

/// The lists of a meeting, or none where there is no meeting of that name.
pub fn find_meeting(meetings: &[MeetingLists], id: MeetingId) -> Option<&MeetingLists>
    ensures { option_copied result ≡ meeting_named meetings.now id }
{
    meetings.iter().find(|m| m.meeting.id.is(id))
}

/// The poll on a resolution, or none where none is ordered.
pub fn find_poll(polls: &[Poll], resolution: u64) -> Option<Poll>
    ensures { result ≡ poll_on polls.now resolution }
{
    polls.iter().copied().find(|p| p.resolution == resolution)
}

impl Meeting {
    /// Whether a resolution of that number stands in the notice.
    pub fn has_resolution(&self, number: u64) -> bool
        ensures { result ≡ is_resolution (length self.now.resolutions) number }
    {
        1 <= number && number <= self.resolutions.as_slice().len() as u64
    }
}
