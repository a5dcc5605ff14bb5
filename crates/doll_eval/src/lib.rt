//! The value of an expression, and the parts of a record that an expression may name.
#![tactic(auto)]

mod evaluation;
pub mod member;
mod operators;
mod printing;
mod steps;

pub use evaluation::{eval, look_up};
pub use member::Member;
pub use operators::{is_true, nil};
pub use printing::print;
