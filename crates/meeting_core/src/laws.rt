//! Laws of the definitions by which the contracts speak.
ghost use Rattle.meeting_core.specs.Decisions.{DecidedChangesCanBeMade};

/// The change that an office decides on a call is one that it can make: it is made in a meeting
/// that stands. Whoever writes changes elsewhere may rely on it.
pub fn decided_changes_can_be_made()
    ensures { DecidedChangesCanBeMade }
{}
