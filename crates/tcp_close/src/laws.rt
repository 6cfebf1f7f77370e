//! The limit by its number.
ghost use Rattle.tcp_close.specs.DrainLimit.{LimitIs};

/// Definitions cite the limit by its constant; this is its number.
pub fn limit_is()
    ensures { LimitIs }
{}
