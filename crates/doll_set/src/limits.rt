//! How large a set may be.

/// The most files of a set.
pub const MOST_VIEWS: usize = 512;

/// The most templates of a chain, each a dependency of the one before it.
pub const LONGEST_CHAIN: usize = 16;

/// The greatest weight of a template: its nodes and the weights of what it renders, once for each tag.
pub const GREATEST_WEIGHT: u32 = 100_000;
