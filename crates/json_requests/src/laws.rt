//! Laws of requests.
ghost use Rattle.json_requests.specs.RouteLaws.{VerbsReadBack, RefusalsAreTwo, RouteComesFirst, RequestsKeepTheMeeting};

/// Each word of a verb reads back as that verb.
pub fn words_read_back()
    ensures { VerbsReadBack }
{}

/// Every refusal of a request is `Route` or `Unreadable`.
pub fn refusals_are_two()
    ensures { RefusalsAreTwo }
{}

/// What is refused as `Route` is so refused whatever its body.
pub fn route_comes_first()
    ensures { RouteComesFirst }
{}

/// A request that is read is of the meeting that was named, and one of the whole desk of none.
pub fn requests_keep_the_meeting()
    ensures { RequestsKeepTheMeeting }
{}
