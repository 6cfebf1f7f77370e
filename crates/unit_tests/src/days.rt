//! Closed days from any list of days, and what no cutoff shows.
use desk_words::{Day, Moment, read_day, read_moment};
use office_days::{Closed, DaysFault, OutOfRange};
use std::alloc::Global;
use std::test::Fail;

/// So many days from 1900-01-01 on, the last of them first, each twice.
fn first_days(alloc: Global, count: u32) -> Result<Vec<Day>, Fail> {
    let mut days = Vec::new(alloc);
    for number in (0..count).rev() {
        let day = Day::new(number).ok_or("a day")?;
        days.push(day)?;
        days.push(day)?;
    }
    Ok(days)
}

#[test]
fn at_most_2_000_days_are_closed(rt: HostRuntime) -> Result<(), Fail> {
    for (count, closed) in [(2_000, Ok(2_000)), (2_001, Err(DaysFault::TooMany))] {
        let made = Closed::from_days(rt.alloc(), &first_days(rt.alloc(), count)?);
        assert!(rt; made.map(|made| made.days().len()) == closed, "{count}");
    }
    Ok(())
}

/// A calendar without closed days.
fn open(alloc: Global) -> Result<Closed, Fail> {
    Ok(Closed::from_days(alloc, &[]).ok().ok_or("no memory")?)
}

#[test]
fn nothing_lies_before_the_first_moment(rt: HostRuntime) -> Result<(), Fail> {
    let open = open(rt.alloc())?;
    for (text, back) in [
        ("1900-01-01T00:00:00", Err(OutOfRange)),
        ("1900-01-01T00:59:59", Err(OutOfRange)),
        ("1900-01-01T01:00:00", Ok(Moment::first())),
    ] {
        let from = read_moment(text.as_bytes()).ok_or("a moment")?;
        assert!(rt; open.back(1, from) == back, "{text}");
    }
    Ok(())
}

#[test]
fn sundays_are_not_worked(rt: HostRuntime) -> Result<(), Fail> {
    let open = open(rt.alloc())?;
    for (text, is_working) in [("2026-06-14", false), ("2026-06-15", true)] {
        let day = read_day(text.as_bytes()).ok_or("a day")?;
        assert!(rt; open.is_working(day) == is_working, "{text}");
    }
    Ok(())
}
