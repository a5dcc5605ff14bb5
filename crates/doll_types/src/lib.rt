//! The types of a template set: the type of each expression that a route's page reaches, and the faults that would make it
//! print nothing.
#![tactic(auto)]

mod expressions;
mod fault;
mod findings;
mod keyed;
mod keys;
pub mod laws;
mod opening;
mod operators;
mod reached;
mod reaching;
mod renders;
mod rounds;
mod typed;
mod types;

pub use expressions::{named_type, step_type, type_of};
pub use fault::{TypeFault, TypeFaults, TypeRefusal};
pub use findings::Finding;
pub use operators::{binary_type, negated_type, query_type};
pub use reached::Reached;
pub use renders::{items_type, locals_typing};
pub use typed::{Typed, type_set};
pub use types::{TypeKind, Typing, ValueType};
