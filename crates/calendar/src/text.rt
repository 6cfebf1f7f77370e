//! The texts of days and moments.
ghost use Rattle.std.specs.Prelude.{◌≡◌, ℕ, ◌+◌, ◌/◌, ◌%◌, ◌<◌, ◌≤◌, length, Some, IfSome};
ghost use Rattle.calendar.specs.DateTexts as texts;

use crate::date::{date_of_day, day_of_date};
use crate::moment::{Day, Moment};

// Whether a byte may stand at a sign of a form.
fn fits(sign: u8, byte: u8) -> bool
    ensures { result ≡ texts.fits sign byte }
{
    if sign == b'0' {
        b'0' <= byte && byte <= b'9'
    } else {
        sign == byte
    }
}

// Whether a text is as long as a form and fits it at each place.
fn has_form(form: &[u8], text: &[u8]) -> bool
    ensures { result ≡ texts.has_form form.now text.now }
{
    form.len() == text.len() && form.iter().zip(text).all(|(sign, byte)| fits(*sign, *byte))
}

// The number that the two digits at a place of a text spell.
fn two_digits(text: &[u8], place: usize) -> u32
    requires { place + 1 < length text.now }
    ensures { result ≡ texts.two_digits text.now place }
{
    let tens = text[place].saturating_sub(b'0') as u32;
    let ones = text[place + 1].saturating_sub(b'0') as u32;
    10 * tens + ones
}

// The day of the date at the head of a text.
fn read_date(text: &[u8]) -> Option<Day>
    requires { 10 ≤ length text.now }
    ensures { result ≡ texts.date_of text.now }
{
    let year = 100 * two_digits(text, 0) + two_digits(text, 2);
    day_of_date(year, two_digits(text, 5), two_digits(text, 8))
}

// The seconds from midnight to the time of day in a moment's text.
fn read_time(text: &[u8]) -> Option<u32>
    requires { 19 ≤ length text.now }
    ensures value { result ≡ texts.time_of text.now }
    ensures below { IfSome result (λ second. second < 86400) }
{
    let hour = two_digits(text, 11);
    let minute = two_digits(text, 14);
    let second = two_digits(text, 17);
    if hour > 23 || minute > 59 || second > 59 {
        return None;
    }
    Some(3600 * hour + 60 * minute + second)
}

/// The day that a text `YYYY-MM-DD` spells, or `None` where the text has not this form or the
/// calendar has no such day in the years 1900 to 2999.
#[tactic(auto, unfolding(crate::specs::DateTexts::day_of))]
pub fn read_day(text: &[u8]) -> Option<Day>
    ensures { result ≡ texts.day_of text.now }
{
    if !has_form(b"0000-00-00", text) {
        return None;
    }
    read_date(text)
}

/// The moment that a text `YYYY-MM-DDThh:mm:ss` spells, or `None` where the text has not this
/// form, the calendar has no such day in the years 1900 to 2999, or the day no such second: the
/// hours go to 23, the minutes and the seconds to 59.
#[tactic(auto, unfolding(crate::specs::DateTexts::moment_of))]
pub fn read_moment(text: &[u8]) -> Option<Moment>
    ensures { result ≡ texts.moment_of text.now }
{
    if !has_form(b"0000-00-00T00:00:00", text) {
        return None;
    }
    let day = read_date(text)?;
    let second = read_time(text)?;
    Some(day.at(second))
}

// The two digits of a number below 100.
fn digits(number: u8) -> (u8, u8)
    requires { number < 100 }
    ensures tens { result.0 ≡ 48 + number / 10 }
    ensures ones { result.1 ≡ 48 + number % 10 }
{
    (b'0' + number / 10, b'0' + number % 10)
}

/// The text `YYYY-MM-DD` of a day.
pub fn write_day(day: Day) -> [u8; 10]
    ensures text { result ≡ texts.day_text day }
    ensures reads_back { texts.day_of result ≡ Some day }
{
    let (year, month, day) = date_of_day(day);
    let (a, b) = digits((year / 100) as u8);
    let (c, d) = digits((year % 100) as u8);
    let (e, f) = digits(month);
    let (g, h) = digits(day);
    [a, b, c, d, b'-', e, f, b'-', g, h]
}

/// The text `YYYY-MM-DDThh:mm:ss` of a moment.
pub fn write_moment(moment: Moment) -> [u8; 19]
    ensures text { result ≡ texts.moment_text moment }
    ensures reads_back { texts.moment_of result ≡ Some moment }
{
    let [a, b, c, d, e, f, g, h, i, j] = write_day(moment.day());
    let second = moment.second_of_day();
    let (k, l) = digits((second / 3600) as u8);
    let (m, n) = digits((second / 60 % 60) as u8);
    let (o, p) = digits((second % 60) as u8);
    [
        a, b, c, d, e, f, g, h, i, j, b'T', k, l, b':', m, n, b':', o, p,
    ]
}
