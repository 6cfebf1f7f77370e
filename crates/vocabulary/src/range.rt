//! Ranges of places.
ghost use Rattle.std.specs.Prelude.{◌≡◌, IsTrue};
ghost use Rattle.vocabulary.specs.Places.{holds, is_range, range_of};

use std::marker::Model;

/// The highest place, and so the most shares of a member, and of a register.
pub const MOST_PLACES: u64 = 1_000_000_000_000;

/// Places of a member's shares, from the first to the last: `1 <= from <= to <= 10^12`. A range
/// may reach past the holding; places past it are nothing.
#[derive(Clone, Copy, PartialEq, Eq)]
pub struct Range {
    from: u64,
    to: u64,
}

impl Model for Range {
    ghost use Rattle.std.specs.Prelude.{IsTrue};
    ghost use Rattle.vocabulary.specs.Places.{Places, is_range};

    ghost Value = { Places };

    ghost view = { λ r. record { from = r.from; to = r.to } };

    ghost invariant = { λ r. IsTrue (is_range r.from r.to) };

    ghost inverse = { λ p. record { from = p.from; to = p.to } };
}

impl Range {
    /// The range with these ends, or none exactly where they are not those of a range.
    pub fn new(from: u64, to: u64) -> Option<Range>
        ensures { result ≡ range_of from to }
    {
        if 1 <= from && from <= to && to <= MOST_PLACES {
            Some(Range { from, to })
        } else {
            None
        }
    }

    /// The range with these ends, which are known to be those of a range.
    pub fn with_ends(from: u64, to: u64) -> Range
        requires { IsTrue (is_range from to) }
        ensures { result ≡ record { from = from; to = to } }
    {
        Range { from, to }
    }

    /// The first place.
    pub fn from(self) -> u64
        ensures value { result ≡ self.from }
        ensures valid { IsTrue (is_range self.from self.to) }
    {
        self.from
    }

    /// The last place.
    pub fn to(self) -> u64
        ensures value { result ≡ self.to }
        ensures valid { IsTrue (is_range self.from self.to) }
    {
        self.to
    }

    /// Whether it holds a place.
    pub fn has(self, place: u64) -> bool
        ensures { result ≡ holds self place }
    {
        self.from <= place && place <= self.to
    }
}
