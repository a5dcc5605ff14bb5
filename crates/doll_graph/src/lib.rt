//! Things numbered from 0 that depend on one another: how long their chains are, which lie on a cycle, and in which order
//! each comes after what it depends on.
#![tactic(auto)]

mod chains;
mod cycles;

pub use chains::{first_longer, layer, longer_chains};
pub use cycles::cycle;
