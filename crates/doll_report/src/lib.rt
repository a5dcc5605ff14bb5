//! The report of a replay: what its steps are, what becomes of them, and the lines that tell it.
#![tactic(auto)]

mod appending;
pub mod lines;
pub mod outcome;
mod refusals;

pub use lines::report;
pub use outcome::{CONFLICT, NOT_FOUND, Outcome, Step};
