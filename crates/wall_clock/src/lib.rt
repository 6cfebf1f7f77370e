//! The office's wall clock with its zone, and clocks that are asked for one moment after another.
#![tactic(auto)]

mod clock;
mod moment;
mod slice;
mod wall;
mod zone;

pub use clock::{Clock, ClockError};
pub use moment::{ClockFault, wall_clock};
pub use slice::SliceClock;
pub use wall::WallClock;
pub use zone::{OfficeZone, ZoneError};
