//! Answers.
ghost use Rattle.std.specs.Prelude.{◌≡◌};
ghost use Rattle.desk_words.specs.Rulings.{noted, refused, reply_unchanged};

use crate::reply::Reply;
use vocabulary::Refusal;

/// A reply, and at most one change.
#[derive(Drop)]
pub struct Answer<C> {
    pub reply: Reply,
    pub change: Option<C>,
}

/// The answer that tells something, and changes nothing.
pub fn reply_unchanged<C>(reply: Reply) -> Answer<C>
    ensures { result ≡ reply_unchanged reply }
{
    Answer {
        reply,
        change: None,
    }
}

/// The answer that refuses, and changes nothing.
pub fn refuse<C>(refusal: Refusal) -> Answer<C>
    ensures { result ≡ refused refusal }
{
    reply_unchanged(Reply::Refused(refusal))
}

/// The answer that notes what is changed, unless it stands already.
pub fn noted<C: Drop>(stands: bool, change: C) -> Answer<C>
    ensures { result ≡ noted stands change }
{
    let change = if stands { None } else { Some(change) };
    Answer {
        reply: Reply::Noted,
        change,
    }
}
