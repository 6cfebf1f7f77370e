//! The office's wall clock.
ghost use Rattle.std.specs.Prelude.{◌≡◌, ◌≤◌, ℕ, IfErr, IfOk};
ghost use Rattle.wall_clock.specs.Clock.{ShowsSecond, last_moment, unix_seconds};

use crate::clock::{Clock, ClockError};
use crate::moment::{ClockFault, wall_clock};
use crate::zone::OfficeZone;
use calendar::Moment;
use jiff::Timestamp;
use std::time;

/// The office's wall clock: what its zone shows at the instant that the system's clock reads. Where
/// that cannot be read, or shows a second outside the years 1900 to 2999, it gives no moment.
#[derive(Drop)]
pub struct WallClock<R> {
    /// What the system's clock is asked through.
    pub system: R,
    /// The zone of the office.
    pub zone: OfficeZone,
}

impl<R> WallClock<R> {
    /// The wall clock of an office in this zone.
    pub fn new(system: R, zone: OfficeZone) -> WallClock<R>
        ensures system { result.system ≡ system }
        ensures zone { result.zone ≡ zone }
    {
        WallClock { system, zone }
    }
}

/// The moment that a zone's clock shows at an instant.
fn moment_at(instant: Timestamp, zone: &OfficeZone) -> Result<Moment, ClockError>
    ensures shown { IfOk result
        (λ moment. ShowsSecond zone.now instant.nanosecond (unix_seconds moment)) }
    ensures none { IfErr result (λ _. (moment : ℕ) → moment ≤ last_moment
        → ShowsSecond zone.now instant.nanosecond (unix_seconds moment) → ⊥) }
{
    match wall_clock(instant, zone) {
        Ok(moment) => Ok(moment),
        Err(ClockFault::OutOfRange | ClockFault::Memory) => Err(ClockError),
    }
}

impl<R: time::Clock> Clock for WallClock<R> {
    ghost use Rattle.wall_clock.specs.WallMoments.{IsShown};
    ghost use Rattle.std.specs.Prelude.{◌≡◌};

    ghost gives = { λ old moment new. IsShown old.zone moment × (new ≡ old) };

    ghost fails = { λ old new. new ≡ old };

    fn now(&mut self) -> Result<Moment, ClockError> {
        match Timestamp::now(&self.system) {
            Ok(instant) => moment_at(instant, &self.zone),
            Err(_) => Err(ClockError),
        }
    }
}
