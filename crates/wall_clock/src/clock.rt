//! What moments are asked of.
ghost use Rattle.std.specs.Prelude.{ℕ, IfOk, OnErr};

use calendar::Moment;
use std::error::Error;
use std::fmt;

/// A clock gave no moment.
#[derive(Clone, Copy, Debug, PartialEq, Eq)]
pub struct ClockError;

impl fmt::Display for ClockError {
    fn fmt<W: fmt::Write>(&self, f: &mut fmt::Formatter<W>) -> fmt::Result {
        f.write_str("a clock failed")
    }
}

impl Error for ClockError {}

/// A clock, which is asked for one moment after another. It may go back.
pub trait Clock {
    /// Holds of a clock, a moment that it gives, and the clock as it is then.
    ghost gives: { Self → ℕ → Self → Type 0 };

    /// Holds of a clock that gives no moment, and the clock as it is then.
    ghost fails: { Self → Self → Type 0 };

    /// The moment now.
    ///
    /// The error is that the clock gives none.
    fn now(&mut self) -> Result<Moment, ClockError>
        ensures given { IfOk result (λ moment. gives self.old moment self.new) }
        ensures failed { OnErr result (fails self.old self.new) };
}
