//! Explanations of refusals: where in a site something is wrong, what, and what to write instead.
//!
//! `explain` makes the text of an answer from what was answered, by the calls that answered. `KeptSource`, `KeptFolder` and
//! `KeptClock` pass on what a program is given, and keep it for that.
#![tactic(auto)]

pub mod answers;
mod commits;
pub mod kept;
mod lints;
mod orders;
mod paths;
mod reading;
mod report;
mod schema;
mod scripts;
mod sets;
mod settings;
mod types;
mod words;

pub use answers::{Answer, Answered, explain};
pub use kept::{KeptClock, KeptFolder, KeptSource};
