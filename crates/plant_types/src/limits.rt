//! The limits of the office, each in one place.

/// The most grants that a unit may have, ended ones included.
pub const MAX_GRANTS: usize = 500;

/// The most alarms that a unit may have.
pub const MAX_ALARMS: u64 = 2_000;

/// The largest quota of shelves: as many as a unit may have alarms. It is the default when a unit is opened.
pub const MAX_QUOTA: u64 = 2_000;

/// The most changes of limits, matrices and records that may be proposed in a unit.
pub const MAX_CHANGES: u64 = 20_000;

/// The most events that a unit may have.
pub const MAX_EVENTS: u64 = 100_000;

/// The most rows that a file of events may have.
pub const MAX_FILE_ROWS: u64 = 10_000;

/// The longest shelving time, and the longest limit of a band, in seconds: a week.
pub const MAX_SECONDS: u64 = 604_800;

/// The longest time over which floods are asked for, in seconds: a week, or 1,008 periods of ten minutes.
pub const MAX_FLOOD_SECONDS: u64 = 604_800;

/// The longest head of a request, in bytes.
pub const MAX_HEAD: usize = 16_384;

/// The longest body of a request, in bytes.
pub const MAX_BODY: usize = 1_048_576;

/// The most times that a session reads from its stream.
pub const MAX_READS: u32 = 1_000_000;

/// The most cached rows, of all units together.
pub const MAX_CACHED_ROWS: u128 = 2_000_000;
