//! What a request over HTTP asks, or why it asks nothing.
ghost use Rattle.std.specs.Prelude.{◌≡◌};
ghost use Rattle.http_requests.specs.ReceivedRequests.{unread_by};
ghost use Rattle.http_requests.specs.declared.received.ReceiveError.TheVariants as unreceived;

use desk_words::{Refusal, Request, SecretKey};
use json_requests::Ask;

/// What a request over HTTP asks.
#[derive(Drop)]
pub enum ReceivedRequest {
    /// It is refused, whoever sent it: as `TooLarge` or `Unreadable` for its head, and as `Key`
    /// where it has no key, two keys, or one without the form of a key.
    Refused(Refusal),
    /// It is sent with a key. Whose key that is comes before all that is asked.
    With {
        /// The key.
        key: SecretKey,
        /// What is asked, or why nothing is.
        asked: Result<Request, ReceiveError>,
    },
}

/// Why nothing is asked with a key.
#[derive(Clone, Copy, PartialEq, Eq)]
pub enum ReceiveError {
    /// It is refused, as `Route`, `Method`, `TooLarge` or `Unreadable`.
    Refused(Refusal),
    /// An allocation was refused.
    Memory,
    /// The source failed before the whole body had come.
    Failed,
}

impl From<Refusal> for ReceiveError {
    ghost from_gives = { λ refusal why. why ≡ unreceived.Refused refusal };

    fn from(refusal: Refusal) -> ReceiveError {
        ReceiveError::Refused(refusal)
    }
}

impl From<Ask> for ReceiveError {
    ghost from_gives = { λ ask why. why ≡ unread_by ask };

    fn from(ask: Ask) -> ReceiveError {
        match ask {
            Ask::Refused(refusal) => ReceiveError::Refused(refusal),
            Ask::Memory => ReceiveError::Memory,
        }
    }
}
