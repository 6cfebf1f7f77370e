//! Closed days, and the working time between moments.
ghost use Rattle.std.specs.Prelude.{◌≡◌, ◌*◌, ◌<◌, ◌≤◌, ◌↔◌, ℕ, IfOk, OnOk, OnErr, Err, IsTrue, Contains};
ghost use Rattle.std.specs.Result.{result_ok};
ghost use Rattle.desk_words.specs.SortedLists.{is_day_list, day_count};
ghost use Rattle.office_days.specs.WorkingDays as office;
ghost use Rattle.office_days.specs.WorkingDays.{IsBack};
ghost use Rattle.office_days.specs.declared.closed.DaysFault.TheVariants.{TooMany, Memory};

use crate::working;
use desk_words::limits::{HOURS_UNTIL_LATE, MOST_CLOSED_DAYS};
use desk_words::{Day, DayList, ListFault, Moment};
use std::alloc::{AllocError, Global};
use std::marker::Model;

/// Why a set of closed days was not made.
#[derive(Clone, Copy, PartialEq, Eq)]
pub enum DaysFault {
    /// There are more than `MOST_CLOSED_DAYS` different days.
    TooMany,
    /// An allocation was refused.
    Memory,
}

impl From<AllocError> for DaysFault {
    ghost from_gives = { λ _ e. e ≡ Memory };

    fn from(_refused: AllocError) -> DaysFault {
        DaysFault::Memory
    }
}

/// No moment of the years 1900 to 2999 lies far enough back.
#[derive(Clone, Copy, PartialEq, Eq)]
pub struct OutOfRange;

/// The days that the office has closed, at most 2,000, seen in order, each once. A closed day is no
/// working day (section 1173); it may fall on a Saturday or a Sunday.
#[derive(Clone, Drop)]
pub struct Closed {
    days: DayList,
}

impl Model for Closed {
    ghost use Rattle.std.specs.Prelude.{ℕ, List};

    ghost Value = { List ℕ };

    ghost view = { λ a. a.days };
}

impl Closed {
    /// The set of these days. The fault is `TooMany` only where there are more than
    /// `MOST_CLOSED_DAYS` different days, and `Memory` only where an allocation was refused.
    pub fn from_days(alloc: Global, days: &[Day]) -> Result<Closed, DaysFault>
        ensures days { IfOk result
            (λ closed. (day : ℕ) → Contains closed day ↔ Contains days.now day) }
        ensures valid { IfOk result (λ closed. IsTrue (is_day_list closed)) }
        ensures few { OnOk result (day_count days.now ≤ MOST_CLOSED_DAYS) }
        ensures too_many { result ≡ Err TooMany → MOST_CLOSED_DAYS < day_count days.now }
    {
        let days = Vec::from_slice(alloc, days)?;
        match DayList::new(days) {
            Ok(days) => Ok(Closed { days }),
            Err(ListFault::Limit) => Err(DaysFault::TooMany),
            Err(ListFault::Memory) => Err(DaysFault::Memory),
        }
    }

    /// The set of the days of a list. It takes no memory.
    pub fn from_list(days: DayList) -> Closed
        ensures { result ≡ days }
    {
        Closed { days }
    }

    /// The days, in order, each once.
    pub fn days(&self) -> &[Day]
        ensures value { result.now ≡ self.now }
        ensures valid { IsTrue (is_day_list self.now) }
    {
        self.days.as_slice()
    }

    /// Whether a day is a working day: no Saturday, no Sunday and not closed (section 1173).
    pub fn is_working(&self, day: Day) -> bool
        ensures { result ≡ office.is_working self.now day }
    {
        working::is_working(self.days(), day.number() as u64)
    }

    /// The working time from a moment up to and without another, in seconds: the seconds of
    /// working days between them. 0 where the second is not after the first.
    pub fn work_between(&self, from: Moment, to: Moment) -> u64
        ensures { result ≡ office.work self.now from to }
    {
        working::work(self.days(), from.seconds(), to.seconds())
    }

    /// Whether a poll is late, by the moments at which it is ordered and taken: whether more than
    /// `HOURS_UNTIL_LATE` hours of working time lie between them (section 327(3)).
    pub fn is_late(&self, ordered: Moment, take: Moment) -> bool
        ensures { result ≡ office.is_late self.now ordered take }
    {
        self.work_between(ordered, take) > 3_600 * HOURS_UNTIL_LATE
    }

    /// The greatest moment, at or before another, that leaves at least so many hours of working
    /// time before the other, counted as section 327(3) counts them. The error is that no moment
    /// from 1900-01-01T00:00:00 on does.
    pub fn back(&self, hours: u32, moment: Moment) -> Result<Moment, OutOfRange>
        ensures found { IfOk result (λ start. IsBack self.now hours moment start) }
        ensures none { OnErr result
            ((start : ℕ) → start ≤ moment → office.work self.now start moment < 3600 * hours) }
        ensures value { result_ok result ≡ office.back self.now hours moment }
    {
        let wanted = 3_600 * hours as u64;
        match working::latest_that_leaves(self.days(), wanted, moment.seconds()) {
            Some(start) => Moment::new(start).ok_or(OutOfRange),
            None => Err(OutOfRange),
        }
    }
}
