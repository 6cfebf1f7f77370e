//! What of a cache is valid after a change.
ghost use Rattle.std.specs.Prelude.{◌≡◌};
ghost use Rattle.desk_store.specs.Cached.{valid_after};

use desk_words::{Change, MeetingChange};

/// What of a cache is valid after a change.
#[derive(Clone, Copy)]
pub struct StillValid {
    /// Whether public records are.
    pub records: bool,
    /// Whether callers are.
    pub callers: bool,
}

/// What of a cache is valid after a change: what is entered into a meeting's lists is not public, and
/// each other change in a meeting is.
pub(crate) fn valid_after(change: &Option<Change>) -> StillValid
    ensures { result ≡ valid_after change.now }
{
    match change {
        None
        | Some(
            Change::InMeeting {
                change: MeetingChange::Enter(_),
                ..
            },
        ) => StillValid {
            records: true,
            callers: true,
        },
        Some(Change::SetKeys(_)) => StillValid {
            records: true,
            callers: false,
        },
        Some(_) => StillValid {
            records: false,
            callers: true,
        },
    }
}
