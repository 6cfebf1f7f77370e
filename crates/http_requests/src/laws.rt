//! The law of requests over HTTP.
ghost use Rattle.http_requests.specs.RequestUniqueness.{SpellsOne};

use http_heads::{one_front, one_head};

/// An input spells one thing at most, if memory lasts and the source does not fail; but where its
/// first 8,192 bytes are there, hold no head and end inside the target, it may be too large and
/// unreadable.
pub fn one_request()
    ensures { SpellsOne }
{
    one_front();
    one_head();
}
