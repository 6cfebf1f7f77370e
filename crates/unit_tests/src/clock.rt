//! The office's wall clock.
use desk_words::read_moment;
use jiff::Timestamp;
use std::test::Fail;
use wall_clock::{ClockFault, OfficeZone, wall_clock};

fn zone(rule: &str) -> Result<OfficeZone, Fail> {
    Ok(OfficeZone::read(rule).ok().ok_or("a zone")?)
}

/// Whether a zone's clock shows a moment at the instant at which the clock of UTC shows another.
fn shows(rule: &str, utc: &str, expected: &str) -> Result<bool, Fail> {
    let utc = read_moment(utc.as_bytes()).ok_or("a moment")?;
    let instant = Timestamp::from_second(utc.unix_seconds())?;
    let shown = wall_clock(instant, &zone(rule)?);
    Ok(shown.ok() == read_moment(expected.as_bytes()))
}

const LONDON: &str = "GMT0BST,M3.5.0/1,M10.5.0";

const SYDNEY: &str = "AEST-10AEDT,M10.1.0,M4.1.0/3";

/// A zone, a moment of the clock of UTC, and what the zone's clock shows then.
const PLACES: &[(&str, &str, &str)] = &[
    (LONDON, "2026-03-29T00:59:59", "2026-03-29T00:59:59"),
    (LONDON, "2026-03-29T01:00:00", "2026-03-29T02:00:00"),
    // An hour that is repeated.
    (LONDON, "2026-10-25T00:30:00", "2026-10-25T01:30:00"),
    (LONDON, "2026-10-25T01:30:00", "2026-10-25T01:30:00"),
    (SYDNEY, "2026-01-15T00:00:00", "2026-01-15T11:00:00"),
    (SYDNEY, "2026-07-15T00:00:00", "2026-07-15T10:00:00"),
    ("JST-9", "2026-06-01T18:00:00", "2026-06-02T03:00:00"),
    ("<+14>-14", "2026-06-01T10:00:00", "2026-06-02T00:00:00"),
    ("<-12>12", "2026-06-01T10:00:00", "2026-05-31T22:00:00"),
];

#[test]
fn the_clocks_of_places(rt: HostRuntime) -> Result<(), Fail> {
    for &(rule, utc, expected) in PLACES {
        assert!(rt; shows(rule, utc, expected)?, "{rule} at {utc}");
    }
    Ok(())
}

/// A zone, a second since 1970, and whether its clock shows a moment then.
const YEARS: &[(&str, i64, bool)] = &[
    ("UTC0", -2_208_988_800, true),
    ("UTC0", -2_208_988_801, false),
    ("UTC0", 32_503_679_999, true),
    ("UTC0", 32_503_680_000, false),
    ("<+14>-14", 32_503_629_599, true),
    ("<+14>-14", 32_503_629_600, false),
];

#[test]
fn clocks_show_no_other_years(rt: HostRuntime) -> Result<(), Fail> {
    for &(rule, second, is_shown) in YEARS {
        let shown = wall_clock(Timestamp::from_second(second)?, &zone(rule)?);
        let is_out = shown == Err(ClockFault::OutOfRange);
        assert!(rt; is_out != is_shown, "{rule} at {second}");
    }
    Ok(())
}

// A second and a half before 1970 lies in the second that begins two seconds before it.
#[test]
fn a_clock_shows_the_second_that_has_begun(rt: HostRuntime) -> Result<(), Fail> {
    let instant = Timestamp::new(-1, -500_000_000)?;
    let shown = wall_clock(instant, &zone("UTC0")?);
    assert!(rt; shown.ok() == read_moment(b"1969-12-31T23:59:58"));
    Ok(())
}
