//! Why a request was not read.
ghost use Rattle.std.specs.Prelude.{◌≡◌};
ghost use Rattle.json_requests.specs.ParsedBodies.{ask_of};
ghost use Rattle.json_requests.specs.declared.ask.BodyError.TheVariants.{Memory};

use desk_words::Refusal;
use std::alloc::{AllocError, AllocFailed};

/// Why no request was read.
#[derive(Clone, Copy, PartialEq, Eq)]
pub enum Ask {
    /// It is refused: `Route` for an unknown verb or a name that no meeting can have, and
    /// `Unreadable` for a body that does not say what the verb asks.
    Refused(Refusal),
    /// An allocation was refused.
    Memory,
}

/// Why nothing was read of a body.
#[derive(Clone, Copy, PartialEq, Eq)]
pub enum BodyError {
    /// It does not say what the verb asks.
    Unreadable,
    /// An allocation was refused.
    Memory,
}

impl From<AllocError> for BodyError {
    ghost from_gives = { λ _ e. e ≡ Memory };

    fn from(_refused: AllocError) -> BodyError {
        BodyError::Memory
    }
}

impl<T: Drop> From<AllocFailed<T>> for BodyError {
    ghost from_gives = { λ _ e. e ≡ Memory };

    fn from(_refused: AllocFailed<T>) -> BodyError {
        BodyError::Memory
    }
}

impl From<BodyError> for Ask {
    ghost from_gives = { λ unread ask. ask ≡ ask_of unread };

    fn from(unread: BodyError) -> Ask {
        match unread {
            BodyError::Unreadable => Ask::Refused(Refusal::Unreadable),
            BodyError::Memory => Ask::Memory,
        }
    }
}
