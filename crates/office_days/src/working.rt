//! Working days and working time over closed days in order.
ghost use Rattle.std.specs.Prelude.{◌≡◌, ◌+◌, ◌*◌, ◌/◌, ◌<◌, ◌≤◌, ℕ, ◌&&◌, length, slice_index, count_by, IsTrue, IfSome, None};
ghost use Rattle.desk_words.specs.SortedLists.{is_day_list};
ghost use Rattle.office_days.specs.WorkingDays as office;
ghost use Rattle.office_days.specs.DaySearch.{IsBracket, IsLatest};

use desk_words::Day;

// The seconds of a day.
const DAY: u64 = 86_400;

// Whether a day, counted from a Monday, is no Saturday and no Sunday.
fn is_weekday(day: u64) -> bool
    ensures { result ≡ office.is_weekday day }
{
    day % 7 < 5
}

/// Whether a day is a working day.
pub fn is_working(closed: &[Day], day: u64) -> bool
    requires { IsTrue (is_day_list closed.now) }
    ensures { result ≡ office.is_working closed.now day }
{
    is_weekday(day)
        && closed
            .binary_search_by_key(&day, |other| other.number() as u64)
            .is_err()
}

// The days from Monday to Friday before a day.
fn weekdays_before(day: u64) -> u64
    ensures { result ≡ office.numbers_that office.is_weekday 0 day }
{
    day / 7 * 5 + (day % 7).min(5)
}

// The place of the first closed day that is not before a day, or how many there are.
fn place_of(closed: &[Day], day: u64) -> usize
    requires { IsTrue (is_day_list closed.now) }
    ensures within { result ≤ length closed.now }
    ensures before { (k : ℕ) → k < result → slice_index closed.now k < day }
    ensures after { (k : ℕ) → result ≤ k → k < length closed.now → day ≤ slice_index closed.now k }
{
    closed.partition_point(|other| (other.number() as u64) < day)
}

// How many of the days are no Saturdays and no Sundays.
fn count_weekdays(days: &[Day]) -> usize
    ensures { result ≡ count_by office.is_weekday days.now }
{
    days.iter()
        .filter(|day| is_weekday(day.number() as u64))
        .count()
}

// The closed days from Monday to Friday, from a day up to and without another.
fn closed_weekdays(closed: &[Day], from: u64, to: u64) -> u64
    requires sorted { IsTrue (is_day_list closed.now) }
    requires ordered { from ≤ to }
    ensures { result
        ≡ office.numbers_that (λ day. office.is_weekday day && office.is_closed_day closed.now day)
        from to }
{
    let first = place_of(closed, from);
    let end = place_of(closed, to);
    count_weekdays(&closed[first..end]) as u64
}

// The working days from a day up to and without another.
fn working_days(closed: &[Day], from: u64, to: u64) -> u64
    requires sorted { IsTrue (is_day_list closed.now) }
    requires ordered { from ≤ to }
    ensures { result ≡ office.working_days closed.now from to }
{
    weekdays_before(to) - weekdays_before(from) - closed_weekdays(closed, from, to)
}

// The working seconds from the beginning of a second's day up to and without it.
fn worked_that_day(closed: &[Day], second: u64) -> u64
    requires { IsTrue (is_day_list closed.now) }
    ensures { result ≡ office.work closed.now (86400 * (second / 86400)) second }
{
    if is_working(closed, second / DAY) {
        second % DAY
    } else {
        0
    }
}

/// The working seconds from one up to and without another, both counted from 1900-01-01T00:00:00.
pub fn work(closed: &[Day], from: u64, to: u64) -> u64
    requires { IsTrue (is_day_list closed.now) }
    ensures { result ≡ office.work closed.now from to }
{
    if to <= from {
        return 0;
    }
    let whole_days = working_days(closed, from / DAY, to / DAY);
    DAY * whole_days + worked_that_day(closed, to) - worked_that_day(closed, from)
}

/// A day, what its beginning leaves of working time before an end, in seconds, and a later day from
/// which on too little is left.
#[derive(Clone, Copy)]
struct Bracket {
    day: u64,
    left: u64,
    too_late: u64,
}

// Two days around the last one whose beginning leaves as much working time before an end as is
// wanted, near the end.
fn bracket_near(closed: &[Day], wanted: u64, end: u64) -> Option<Bracket>
    requires { IsTrue (is_day_list closed.now) }
    ensures some { IfSome result (λ b. IsBracket closed.now wanted end b.day b.left b.too_late) }
    ensures none { result ≡ None → office.work closed.now 0 end < wanted }
{
    let last = end / DAY;
    let mut too_late = last + 1;
    let mut back = 1;
    while back < last {
        let day = last - back;
        let left = work(closed, DAY * day, end);
        if left >= wanted {
            return Some(Bracket {
                day,
                left,
                too_late,
            });
        }
        too_late = day;
        back *= 2;
    }
    let left = work(closed, 0, end);
    if left < wanted {
        return None;
    }
    Some(Bracket {
        day: 0,
        left,
        too_late,
    })
}

// The last day whose beginning leaves as much working time before an end as is wanted, and the next.
fn last_day_that_leaves(closed: &[Day], wanted: u64, end: u64) -> Option<Bracket>
    requires { IsTrue (is_day_list closed.now) }
    ensures some { IfSome result (λ b. IsBracket closed.now wanted end b.day b.left b.too_late) }
    ensures next { IfSome result (λ b. b.too_late ≡ b.day + 1) }
    ensures none { result ≡ None → office.work closed.now 0 end < wanted }
{
    let mut bracket = bracket_near(closed, wanted, end)?;
    while bracket.too_late - bracket.day > 1 {
        let day = bracket.day + (bracket.too_late - bracket.day) / 2;
        let left = work(closed, DAY * day, end);
        if left >= wanted {
            bracket.day = day;
            bracket.left = left;
        } else {
            bracket.too_late = day;
        }
    }
    Some(bracket)
}

/// The last second up to an end that leaves as much working time before the end as is wanted, or
/// `None` where not even the first of all does.
pub fn latest_that_leaves(closed: &[Day], wanted: u64, end: u64) -> Option<u64>
    requires { IsTrue (is_day_list closed.now) }
    ensures found { IfSome result (λ start. IsLatest closed.now wanted end start) }
    ensures none { result ≡ None → office.work closed.now 0 end < wanted }
{
    if wanted == 0 {
        return Some(end);
    }
    let last = last_day_that_leaves(closed, wanted, end)?;
    Some(DAY * last.day + (last.left - wanted))
}
