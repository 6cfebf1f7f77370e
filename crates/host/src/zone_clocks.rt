//! The clocks of zones.
ghost use Rattle.wall_clock.specs.Zones.{Zone};

use wall_clock::{Clock, OfficeZone};

/// The clocks of zones, over the system's clock.
pub trait ZoneClocks {
    /// The clock of a zone.
    type Made: Clock + Drop;

    /// Holds of the clocks, a zone, its clock, and the clocks as they are then.
    ghost makes: { Self → Zone → Self.Made → Self → Type 0 };

    /// The clock of a zone. It is not asked yet.
    fn in_zone(&mut self, zone: OfficeZone) -> Self::Made
        ensures { makes self.old zone result self.new };
}
