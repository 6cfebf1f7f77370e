//! The numbers of days and moments, counted from 1970, which no reply shows.
use calendar::{read_day, read_moment};

const DAYS: &[(&str, i64)] = &[
    ("1900-01-01", -25_567),
    ("1970-01-01", 0),
    ("2000-02-29", 11_016),
    ("2024-02-29", 19_782),
    ("2100-02-28", 47_540),
    ("2999-12-31", 376_199),
];

#[test]
fn days_have_numbers(rt: HostRuntime) {
    for &(text, number) in DAYS {
        let day = read_day(text.as_bytes());
        assert!(rt; day.map(|day| day.unix_days()) == Some(number), "{text}");
    }
}

const MOMENTS: &[(&str, i64)] = &[
    ("1900-01-01T00:00:00", -2_208_988_800),
    ("1969-12-31T23:59:59", -1),
    ("1970-01-01T00:00:00", 0),
    ("2024-02-29T12:34:56", 1_709_210_096),
    ("2026-03-29T01:30:00", 1_774_747_800),
    ("2999-12-31T23:59:59", 32_503_679_999),
];

#[test]
fn moments_have_numbers(rt: HostRuntime) {
    for &(text, number) in MOMENTS {
        let moment = read_moment(text.as_bytes());
        assert!(rt;
            moment.map(|moment| moment.unix_seconds()) == Some(number),
            "{text}"
        );
    }
}
