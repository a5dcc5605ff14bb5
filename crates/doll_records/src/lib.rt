//! One history of commits, which a keeper keeps.
#![tactic(auto)]

pub mod committing;
pub mod fault;
pub mod limits;
pub mod opening;
pub mod records;

pub use committing::Committed;
pub use fault::{OpenFault, RecordFault};
pub use limits::{LAST_MOMENT, LATEST, MOST_COMMITS};
pub use opening::{OpenRefusal, opens_again};
pub use records::{Records, SharedTable, Snapshot, moments_tell_places};
