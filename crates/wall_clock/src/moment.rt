//! The office's wall clock.
ghost use Rattle.std.specs.Prelude.{◌≡◌, ◌≤◌, ◌^◌, ◌↔◌, ℕ, pos, neg_ℤ, ◌≤ℤ◌, IfOk, Err};
ghost use Rattle.wall_clock.specs.Clock.{IsSecondOf, ShowsSecond, last_moment, unix_seconds};
ghost use Rattle.wall_clock.specs.declared.moment.ClockFault.TheVariants.{OutOfRange, Memory};

use crate::zone::OfficeZone;
use calendar::Moment;
use jiff::Timestamp;

/// Why an instant has no moment on the wall clock.
#[derive(Clone, Copy, PartialEq, Eq)]
pub enum ClockFault {
    /// The clock shows a second before 1900-01-01T00:00:00 or after 2999-12-31T23:59:59.
    OutOfRange,
    /// An allocation was refused. No zone that the library reads needs memory today.
    Memory,
}

// 1900-01-01T00:00:00, in seconds since 1970-01-01T00:00:00.
const FIRST: i64 = -2_208_988_800;

// The whole second that an instant lies in.
fn second_of(instant: Timestamp) -> i64
    ensures { IsSecondOf instant.nanosecond result }
{
    let second = instant.as_second();
    if instant.subsec_nanosecond() < 0 {
        second - 1
    } else {
        second
    }
}

// What a zone's clock shows at an instant, in seconds since 1970-01-01T00:00:00 on it.
fn second_shown(instant: Timestamp, zone: &OfficeZone) -> i64
    ensures shown { ShowsSecond zone.now instant.nanosecond result }
    ensures above { neg_ℤ (pos (2 ^ 62)) ≤ℤ result }
    ensures below { result ≤ℤ pos (2 ^ 62) }
{
    second_of(instant) + zone.offset_at(instant) as i64
}

/// The moment that a zone's clock shows at an instant: the civil second that the instant lies in.
/// The two instants of an hour that is repeated give one moment. The fault is `OutOfRange` exactly
/// where the clock shows a second outside the years 1900 to 2999, and never `Memory`.
pub fn wall_clock(instant: Timestamp, zone: &OfficeZone) -> Result<Moment, ClockFault>
    ensures shows { IfOk result
        (λ moment. ShowsSecond zone.now instant.nanosecond (unix_seconds moment)) }
    ensures out_of_range { (result ≡ Err OutOfRange)
        ↔
        ((moment : ℕ) → moment ≤ last_moment
        → ShowsSecond zone.now instant.nanosecond (unix_seconds moment) → ⊥) }
    ensures no_memory { (result ≡ Err Memory) → ⊥ }
{
    let second = second_shown(instant, zone);
    if second < FIRST {
        return Err(ClockFault::OutOfRange);
    }
    match Moment::new((second - FIRST) as u64) {
        Some(moment) => Ok(moment),
        None => Err(ClockFault::OutOfRange),
    }
}
