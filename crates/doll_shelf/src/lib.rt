//! The shelf that keeps entries: its settings, the trait of what keeps them, and a shelf in memory.
#![tactic(auto)]

mod entries;
mod kept;
pub mod mem_shelf;
mod queue;
pub mod settings;
pub mod shelf;

pub use mem_shelf::MemShelf;
pub use settings::{MOST_IN_BATCH, ShelfSettings};
pub use shelf::{Shelf, ShelfFault};
