//! Requests in words.
use desk_words::{DeskRequest, OfficeRequest, PartyRequest, Request};
use std::alloc::{AllocError, Global};

fn desk_word(asked: &DeskRequest) -> &'static str {
    match asked {
        DeskRequest::CallMeeting(_) => "call",
        DeskRequest::ClosedDays(_) => "closed",
        DeskRequest::Keys(_) => "keys",
    }
}

/// The verb, and the number of the resolution that it names, or 0 where it names none.
fn office_words(asked: &OfficeRequest) -> (&'static str, u64) {
    match asked {
        OfficeRequest::LoadRegister(_) => ("register", 0),
        OfficeRequest::Presence(_) => ("presence", 0),
        OfficeRequest::OpenMeeting => ("open", 0),
        OfficeRequest::Adjourn(_) => ("adjourn", 0),
        OfficeRequest::Order(order) => ("order", order.resolution),
        OfficeRequest::Start(resolution) => ("start", *resolution),
        OfficeRequest::Close(resolution) => ("close", *resolution),
        OfficeRequest::Declare(resolution) => ("declare", *resolution),
    }
}

/// The verb, and the number of the resolution or of the appointment that it names, or 0 where it
/// names none.
fn party_words(asked: &PartyRequest) -> (&'static str, u64) {
    match asked {
        PartyRequest::Notice => ("notice", 0),
        PartyRequest::Mine => ("mine", 0),
        PartyRequest::Appoint(_) => ("appoint", 0),
        PartyRequest::End(number) => ("end", *number),
        PartyRequest::Authorise(_) => ("authorise", 0),
        PartyRequest::Attend => ("attend", 0),
        PartyRequest::Demand(resolution) => ("demand", *resolution),
        PartyRequest::Cast(cast) => ("cast", cast.resolution),
        PartyRequest::Instructed(resolution) => ("instructed", *resolution),
    }
}

/// The meeting, the verb, and the number that it names, as `G1 end 2`.
pub(crate) fn asked_text(alloc: Global, request: &Request) -> Result<String, AllocError> {
    let (meeting, (verb, number)) = match request {
        Request::Desk(asked) => return String::from_str(alloc, desk_word(asked)),
        Request::Office { meeting, asked } => (meeting, office_words(asked)),
        Request::Party { meeting, asked } => (meeting, party_words(asked)),
    };
    format!(in alloc; "{} {verb} {number}", meeting.as_str())
}
