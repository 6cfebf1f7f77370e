//! The calendar: days and their years, months and days of the month.
ghost use Rattle.std.specs.Prelude.{◌≡◌, ℕ, ◌≤◌, Some};
ghost use Rattle.calendar.specs.Calendar.{civil_day};

use crate::moment::Day;
use jiff_core::civil::Date;

// 1900-01-01, in days since -9999-01-01, from where the library counts.
const FIRST: u32 = 4_346_020;

/// The day of a date, or `None` where the calendar has no such date in the years 1900 to 2999.
pub fn day_of_date(year: u32, month: u32, day: u32) -> Option<Day>
    ensures { result ≡ civil_day year month day }
{
    if year < 1900 || year > 2999 || month > 12 || day > 31 {
        return None;
    }
    let Ok(date) = Date::new(year as i16, month as i8, day as i8) else {
        return None;
    };
    Day::new(date.days_since_min() - FIRST)
}

/// The year, the month and the day of the month of a day.
pub fn date_of_day(day: Day) -> (u16, u8, u8)
    ensures { civil_day result.0 result.1 result.2 ≡ Some day }
{
    let date = Date::from_days_since_min(FIRST + day.number());
    (date.year as u16, date.month, date.day)
}
