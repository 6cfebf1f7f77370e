//! Days and whole seconds of the office's wall clock.
ghost use Rattle.std.specs.Prelude.{◌≡◌, ℕ, ◌+◌, ◌*◌, ◌/◌, ◌%◌, ◌<◌, ◌≤◌, ◌↔◌, pos, ◌-ℤ◌, IsSome, IfSome};

use std::marker::Model;

/// A day of the years 1900 to 2999, seen as the number of days since 1900-01-01.
#[derive(Clone, Copy, PartialEq, Eq, PartialOrd, Ord)]
pub struct Day {
    number: u32,
}

impl Model for Day {
    ghost Value = { ℕ };

    ghost view = { λ d. d.number };

    ghost invariant = { λ d. d.number ≤ 401766 };

    ghost inverse = { λ n. record { number = n } };
}

impl Day {
    /// The day that many days after 1900-01-01, or `None` past 2999-12-31.
    pub fn new(number: u32) -> Option<Day>
        ensures valid { IsSome result ↔ (number ≤ 401766) }
        ensures value { IfSome result (λ d. d ≡ number) }
    {
        if number <= 401_766 {
            Some(Day { number })
        } else {
            None
        }
    }

    /// The days since 1900-01-01.
    pub fn number(self) -> u32
        ensures value { result ≡ self }
        ensures valid { self ≤ 401766 }
    {
        self.number
    }

    /// The days since 1970-01-01, negative before it.
    pub fn unix_days(self) -> i64
        ensures { result ≡ pos self -ℤ pos 25567 }
    {
        self.number as i64 - 25_567
    }

    /// The moment of this day that many seconds after its midnight.
    pub fn at(self, second: u32) -> Moment
        requires { second < 86400 }
        ensures { result ≡ 86400 * self + second }
    {
        Moment {
            seconds: 86_400 * self.number as u64 + second as u64,
        }
    }
}

/// A whole second of the office's wall clock, from 1900-01-01T00:00:00 to 2999-12-31T23:59:59,
/// seen as the seconds on that clock since the first of them.
#[derive(Clone, Copy, PartialEq, Eq, PartialOrd, Ord)]
pub struct Moment {
    seconds: u64,
}

impl Model for Moment {
    ghost Value = { ℕ };

    ghost view = { λ m. m.seconds };

    ghost invariant = { λ m. m.seconds ≤ 34712668799 };

    ghost inverse = { λ n. record { seconds = n } };
}

impl Moment {
    /// 1900-01-01T00:00:00.
    pub fn first() -> Moment
        ensures { result ≡ 0 }
    {
        Moment { seconds: 0 }
    }

    /// The moment that many seconds after 1900-01-01T00:00:00, or `None` past 2999-12-31T23:59:59.
    pub fn new(seconds: u64) -> Option<Moment>
        ensures valid { IsSome result ↔ (seconds ≤ 34712668799) }
        ensures value { IfSome result (λ m. m ≡ seconds) }
    {
        if seconds <= 34_712_668_799 {
            Some(Moment { seconds })
        } else {
            None
        }
    }

    /// The seconds since 1900-01-01T00:00:00.
    pub fn seconds(self) -> u64
        ensures value { result ≡ self }
        ensures valid { self ≤ 34712668799 }
    {
        self.seconds
    }

    /// The seconds since 1970-01-01T00:00:00, negative before it.
    pub fn unix_seconds(self) -> i64
        ensures { result ≡ pos self -ℤ pos 2208988800 }
    {
        self.seconds as i64 - 2_208_988_800
    }

    /// The day that the moment lies in.
    pub fn day(self) -> Day
        ensures { result ≡ self / 86400 }
    {
        Day {
            number: (self.seconds / 86_400) as u32,
        }
    }

    /// The seconds since the day's midnight.
    pub fn second_of_day(self) -> u32
        ensures value { result ≡ self % 86400 }
        ensures below { result < 86400 }
    {
        (self.seconds % 86_400) as u32
    }
}
