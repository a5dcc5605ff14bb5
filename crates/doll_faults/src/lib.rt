//! The lines that tell the faults of a set of templates, those of its types and those of its lint.
#![tactic(auto)]

pub mod laws;
mod line;
mod lints;
mod types;

pub use lints::lint_lines;
pub use types::type_lines;
