//! A clock whose moments are known.
ghost use Rattle.std.specs.Prelude.{◌≡◌};

use crate::clock::{Clock, ClockError};
use calendar::Moment;
use std::marker::Model;

/// A clock that gives the moments of a slice, one after another, and then none. Contracts see it as
/// the moments that are still to come.
#[derive(Drop)]
pub struct SliceClock<'a> {
    moments: &'a [Moment],
    next: usize,
}

impl<'a> Model for SliceClock<'a> {
    ghost use Rattle.std.specs.Prelude.{◌≤◌, ℕ, List, length, drop};

    ghost Value = { List ℕ };

    ghost view = { λ c. drop c.next c.moments.now };

    ghost invariant = { λ c. c.next ≤ length c.moments.now };
}

impl<'a> SliceClock<'a> {
    /// A clock that gives these moments from the first on.
    pub fn new(moments: &'a [Moment]) -> SliceClock<'a>
        ensures { result ≡ moments.entry.now }
    {
        SliceClock { moments, next: 0 }
    }
}

impl Clock for SliceClock<'_> {
    ghost use Rattle.std.specs.Prelude.{◌≡◌, [], ◌∷◌};

    ghost gives = { λ old moment new. old ≡ moment ∷ new };

    ghost fails = { λ old new. (old ≡ []) × (new ≡ []) };

    fn now(&mut self) -> Result<Moment, ClockError> {
        match self.moments.get(self.next) {
            Some(moment) => {
                self.next += 1;
                Ok(*moment)
            }
            None => Err(ClockError),
        }
    }
}
