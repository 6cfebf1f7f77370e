//! Laws of what is asked and answered over HTTP.
ghost use Rattle.http_routes.specs.RouteSpelling.{RulesConflict, ResponseIsSpelled, TargetsAreSpelled, TargetsDiffer};

/// What a rule of the office refuses is a conflict.
pub fn rules_conflict()
    ensures { RulesConflict }
{}

/// The text of a reply, letter for letter.
pub fn replies_are_spelled()
    ensures { ResponseIsSpelled }
{}

/// A target names a route where it is `/m/`, a meeting, a slash and a verb, and there alone.
pub fn targets_are_spelled()
    ensures { TargetsAreSpelled }
{}

/// Targets with a route, and such as have none.
pub fn targets_differ()
    ensures { TargetsDiffer }
{}
