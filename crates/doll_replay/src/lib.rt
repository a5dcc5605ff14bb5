//! Scripts played on a core, and the report of what they come to.
#![tactic(auto)]

mod orders;
pub mod playing;

pub use playing::{Replayed, replay};
