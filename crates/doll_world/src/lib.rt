//! A world: one history of commits, and a shelf of fragments that are true for it.
#![tactic(auto)]

pub mod laws;
pub mod world;

pub use laws::{handed_in_is_sound, hits_are_found};
pub use world::World;
