//! How much a pool's words can say.

/// A pool has at most so many slots.
pub const MOST_SLOTS: usize = 1_024;

/// A module's tag is below this.
pub const TAG_LIMIT: u32 = 1 << 20;

/// A stamp is below this.
pub const STAMP_LIMIT: u64 = 1 << 41;
