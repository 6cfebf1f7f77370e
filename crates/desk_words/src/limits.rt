//! The limits of a desk. Those that cite no section are the desk's own.

/// The most meetings of a desk.
pub const MOST_MEETINGS: usize = 100;

/// The most sessions of a meeting, which are numbered from 1.
pub const MOST_SESSIONS: usize = 10;

/// The most resolutions of a meeting, which are numbered from 1.
pub const MOST_RESOLUTIONS: usize = 50;

/// The most rows of a register of members (section 113).
pub const MOST_ROWS: usize = 20_000;

/// The most shares of a register, treasury shares among them.
pub const MOST_SHARES: u64 = 1_000_000_000_000;

/// The most pence that are paid up on a share.
pub const MOST_PENCE: u64 = 1_000_000;

/// The most appointments of proxies that a member gives for a meeting (section 324).
pub const MOST_APPOINTMENTS: usize = 256;

/// The most persons whom a party authorises to represent it at a meeting (section 323).
pub const MOST_AUTHORITIES: usize = 64;

/// The most votes that a voter casts on a resolution, in all capacities together (sections 284 and
/// 322).
pub const MOST_CASTS: usize = 1_024;

/// The most closed days (section 1173).
pub const MOST_CLOSED_DAYS: usize = 2_000;

/// The most keys of a desk.
pub const MOST_KEYS: usize = 40_000;

/// How many hours of working time before the appointed time of a meeting an appointment must have
/// been received to count for it (section 327).
pub const HOURS_BEFORE_MEETING: u32 = 48;

/// How many hours of working time before the taking of a late poll an appointment must have been
/// received to count for it (section 327).
pub const HOURS_BEFORE_LATE_POLL: u32 = 24;

/// A poll is late if it is taken more than so many hours of working time after its order (sections
/// 327 and 330).
pub const HOURS_UNTIL_LATE: u64 = 48;
