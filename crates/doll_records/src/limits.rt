//! The limits of a history.

/// The most commits of a history.
pub const MOST_COMMITS: u64 = 4_000_000;

/// The latest time that counts, in microseconds: 2^62.
pub const LATEST: u64 = 4_611_686_018_427_387_904;

/// The moment after which there is none: 2^63 - 1.
pub const LAST_MOMENT: u64 = 9_223_372_036_854_775_807;
