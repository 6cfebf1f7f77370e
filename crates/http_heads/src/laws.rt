//! The laws of heads.
ghost use Rattle.http_heads.specs.HeadUniqueness.{HasOneHead, HasOneFront, HttpLimitsAre};

/// An input has one head at most.
pub fn one_head()
    ensures { HasOneHead }
{}

/// An input has one front, but where its first 8,192 bytes are there, hold no head and end inside
/// the target: there it may be too large and unreadable.
pub fn one_front()
    ensures { HasOneFront }
{}

/// Definitions cite each limit by its constant; these are its numbers.
pub fn limits_are()
    ensures { HttpLimitsAre }
{}
