//! A list of items that is kept from one run to the next: the trait of what keeps it, and a keeper in memory.
#![tactic(auto)]

pub mod keeper;
pub mod mem_keeper;

pub use keeper::{KeepFault, Keeper};
pub use mem_keeper::{MemKeeper, never_fails};
