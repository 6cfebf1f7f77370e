//! The zone of the office's wall clock.
ghost use Rattle.std.specs.Prelude.{◌≡◌, None, IfErr, IfOk, Some};
ghost use Rattle.jiff_tz.specs.PosixRule.{offset_at};
ghost use Rattle.wall_clock.specs.Zones.{rule_in, rule_of};

use jiff::Timestamp;
use jiff_tz::posix;
use std::fmt;
use std::marker::Model;

/// The text is no POSIX rule.
#[derive(Clone, Copy, PartialEq, Eq)]
pub struct ZoneError;

/// The zone of the office's wall clock: a POSIX rule, as `GMT0BST,M3.5.0/1,M10.5.0`.
#[derive(Clone, Copy)]
pub struct OfficeZone {
    rule: posix::TimeZone,
}

impl Model for OfficeZone {
    ghost use Rattle.wall_clock.specs.Zones.{Zone};

    ghost Value = { Zone };

    ghost view = { λ z. z.rule };

    ghost inverse = { λ r. record { rule = r } };
}

/// The rule, in the shortest form that spells it.
impl fmt::Display for OfficeZone {
    fn fmt<W: fmt::Write>(&self, f: &mut fmt::Formatter<W>) -> fmt::Result {
        write!(f, "{}", self.rule)
    }
}

impl OfficeZone {
    /// The zone that a text spells. The error is exactly that the text is no POSIX rule.
    pub fn read(text: &str) -> Result<OfficeZone, ZoneError>
        ensures rule { IfOk result (λ zone. rule_in text.now ≡ Some (rule_of zone)) }
        ensures none { IfErr result (λ _. rule_in text.now ≡ None) }
    {
        match posix::TimeZone::parse(text.as_bytes()) {
            Ok(rule) => Ok(OfficeZone { rule }),
            Err(_) => Err(ZoneError),
        }
    }

    /// How far the zone's clock is ahead of UTC at an instant, in seconds.
    pub(crate) fn offset_at(&self, instant: Timestamp) -> i32
        ensures { result ≡ (offset_at self.now instant.nanosecond).seconds }
    {
        self.rule.to_offset(instant.to_plain()).seconds
    }
}
