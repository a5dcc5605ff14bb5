//! The settings of a shelf.

/// The most entries of a batch.
pub const MOST_IN_BATCH: u32 = 10_000;

/// How long a shelf keeps entries, and how many. Times are in microseconds, sizes in bytes.
#[derive(Clone, Copy, PartialEq, Eq)]
pub struct ShelfSettings {
    /// How long after it was written an entry expires, if it does.
    pub expires_in: Option<u64>,
    /// For how long an entry that has expired may have its expiry moved, and by how much.
    pub race_ttl: u64,
    /// The most entries that a batch leaves as they are.
    pub max_entries: Option<u64>,
    /// The greatest sum of sizes that a batch leaves as it is. A size is that of the key and of the fragment.
    pub max_size: Option<u64>,
    /// How old an entry may become before a batch removes it.
    pub max_age: Option<u64>,
    /// How many entries a batch removes, and after how many writes one runs.
    pub batch: u32,
}
