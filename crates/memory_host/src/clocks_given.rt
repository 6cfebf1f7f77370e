//! Clocks whose moments are known.
use desk_words::Moment;
use host::ZoneClocks;
use wall_clock::{OfficeZone, SliceClock};

/// Clocks that give these moments, in any zone.
#[derive(Drop)]
pub struct ClocksGiven<'a> {
    pub moments: &'a [Moment],
}

impl<'a> ZoneClocks for ClocksGiven<'a> {
    ghost use Rattle.std.specs.Prelude.{◌≡◌};

    type Made = SliceClock<'a>;

    ghost makes = { λ old _ clock new. (clock ≡ old.moments.now) × (new ≡ old) };

    fn in_zone(&mut self, _zone: OfficeZone) -> SliceClock<'a> {
        SliceClock::new(self.moments)
    }
}
