//! Commits made on a table: changes in order, and the moment of the commit at every record that they touch.
#![tactic(auto)]

pub mod apply;
mod change;
mod course;
mod fault;
mod given;
mod refs;
mod removal;
mod rows;
mod touched;
mod walk;

pub use apply::Applied;
pub use fault::{CommitFault, Why};
