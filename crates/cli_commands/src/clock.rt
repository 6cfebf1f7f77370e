//! The moment of a command.
ghost use Rattle.std.specs.Prelude.{◌≡◌, ◌≤◌, ℕ, IfErr, IfOk};
ghost use Rattle.cli_exit.specs.Endings.{ended_by, ended_view};
ghost use Rattle.cli_exit.specs.declared.ended.ExitError.TheVariants.{Clock};
ghost use Rattle.wall_clock.specs.Clock.{ShowsSecond, last_moment, unix_seconds};

use cli_exit::{Ended, ExitError};
use desk_words::Moment;
use jiff::Timestamp;
use wall_clock::{ClockFault, OfficeZone, wall_clock};

/// The moment that the office's wall clock shows at an instant. Where it shows a second outside the
/// years 1900 to 2999, the program ends with status 3 and `Clock`.
pub fn moment_at(instant: Timestamp, zone: &OfficeZone) -> Result<Moment, Ended>
    ensures shows { IfOk result
        (λ moment. ShowsSecond zone.now instant.nanosecond (unix_seconds moment)) }
    ensures clock { IfErr result (λ ended. ended_view ended ≡ ended_by Clock) }
    ensures none { IfErr result (λ _. (moment : ℕ) → moment ≤ last_moment
        → ShowsSecond zone.now instant.nanosecond (unix_seconds moment) → ⊥) }
{
    match wall_clock(instant, zone) {
        Ok(moment) => Ok(moment),
        Err(ClockFault::OutOfRange | ClockFault::Memory) => Err(Ended::by(ExitError::Clock)),
    }
}
