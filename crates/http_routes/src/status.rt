//! Statuses of replies (RFC 9110, section 15).
ghost use Rattle.std.specs.Prelude.{◌≡◌};
ghost use Rattle.http_routes.specs.Statuses.{refusal_status, reply_status};

use desk_words::{Refusal, Reply};
use http::StatusCode;

/// The status of a refusal. What is refused by a rule of the office is a conflict.
fn refusal_status(refusal: Refusal) -> StatusCode
    ensures { result ≡ refusal_status refusal }
{
    match refusal {
        Refusal::Key => StatusCode::UNAUTHORIZED,
        Refusal::Route => StatusCode::NOT_FOUND,
        Refusal::Method => StatusCode::METHOD_NOT_ALLOWED,
        Refusal::TooLarge => StatusCode::PAYLOAD_TOO_LARGE,
        Refusal::Unreadable => StatusCode::BAD_REQUEST,
        Refusal::OfficeOnly | Refusal::PartyOnly => StatusCode::FORBIDDEN,
        _ => StatusCode::CONFLICT,
    }
}

/// The status of a reply: that of its refusal, and 200 where nothing is refused.
pub fn status_of(reply: &Reply) -> StatusCode
    ensures { result ≡ reply_status reply.now }
{
    match reply {
        Reply::Refused(refusal) => refusal_status(*refusal),
        _ => StatusCode::OK,
    }
}
