//! Routes: what a meeting and a verb name, before any body is read.
ghost use Rattle.std.specs.Prelude.{◌≡◌};
ghost use Rattle.json_requests.specs.Routes.{route_of, no_meeting};

use crate::verb::{OfficeVerb, PartyVerb, Verb};
use desk_words::{MeetingId, read_meeting};

/// Where a request goes: what is asked, and of which meeting, or of the whole desk.
#[derive(Clone, Copy, PartialEq, Eq)]
pub enum Route {
    /// The office calls the meeting that is to have that name.
    Call(MeetingId),
    /// The office loads the closed days of the whole desk.
    Closed,
    /// The office loads the keys of the whole desk.
    Keys,
    /// The office asks in a meeting.
    Office {
        /// The meeting.
        meeting: MeetingId,
        /// What it asks.
        verb: OfficeVerb,
    },
    /// A party asks in a meeting.
    Party {
        /// The meeting.
        meeting: MeetingId,
        /// What it asks.
        verb: PartyVerb,
    },
}

/// Nothing, where `-` stands in place of a meeting.
fn no_meeting(meeting: &[u8]) -> Option<()>
    ensures { result ≡ no_meeting meeting.now }
{
    if meeting == "-".as_bytes() {
        Some(())
    } else {
        None
    }
}

/// The route that a meeting and a verb name: to a meeting, or for `closed` and `keys` to the whole
/// desk, where `-` stands in place of a meeting.
///
/// There is none where no such verb is listed, no meeting can have that name, or anything but `-`
/// stands before `closed` and `keys`. It takes no memory and looks at no body.
#[tactic(auto, unfolding(crate::specs::Routes::route_of))]
pub fn route_of(meeting: &[u8], verb: &str) -> Option<Route>
    ensures { result ≡ route_of meeting.now verb.now }
{
    match Verb::of_word(verb)? {
        Verb::Call => Some(Route::Call(read_meeting(meeting)?)),
        Verb::Closed => {
            no_meeting(meeting)?;
            Some(Route::Closed)
        }
        Verb::Keys => {
            no_meeting(meeting)?;
            Some(Route::Keys)
        }
        Verb::Office(verb) => {
            let meeting = read_meeting(meeting)?;
            Some(Route::Office { meeting, verb })
        }
        Verb::Party(verb) => {
            let meeting = read_meeting(meeting)?;
            Some(Route::Party { meeting, verb })
        }
    }
}
